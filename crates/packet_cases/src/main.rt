// Reads slices from standard input, each behind its length in four bytes, and prints what is read of each: where the points are, and of
// the kinds 16 and 17 the header's refusal, the first step of a reader that holds the bytes, the step behind it, and record 1; at the end
// the first slice as kind 18, which no packet has. A line has spaces between its fields. (The host's tests ask the C face on the same
// slices.)
#![tactic(auto)]

use case_input::{case_at, case_end};
use packet::{Cursor, PacketHeader, PacketRecord, PacketStep, Points, Record};
use packet_reader::{PacketReader, first_step};
use refusals::Refusal;
use std::io;
use std::io::Read;

// The most bytes of input that are read.
const MOST_INPUT: u64 = 65536;

fn print_step(rt: &impl Print, record: Result<Record, Refusal>, next: Cursor) -> io::Result<()> {
    let step = PacketStep::new(record, next);
    print!(rt;
        " {} {} {} {} {}",
        step.refusal, step.tag, step.start, step.length, next.at
    )
}

fn print_record(rt: &impl Print, record: Result<Record, Refusal>) -> io::Result<()> {
    let shown = PacketRecord::from(record);
    print!(rt;
        " record {} {} {} {}",
        shown.refusal, shown.tag, shown.start, shown.length
    )
}

fn print_points(rt: &impl Print, points: Result<Points, Refusal>) -> io::Result<()> {
    match points {
        Ok(found) => print!(rt; " points 0 {} {}", found.start, found.count),
        Err(refusal) => print!(rt; " points {} 0 0", refusal.number()),
    }
}

fn read_kind(rt: &impl Print, kind: u32, s: &[u8]) -> io::Result<()> {
    let header = PacketHeader::from(packet_header::header(kind, s));
    print!(rt; "kind {} header {} first", kind, header.refusal)?;
    let mut reader = PacketReader::new(kind, s);
    let first = first_step(kind, s);
    if let Ok(record) = first {
        reader.at = record.start + record.length;
    }
    print_step(rt, first, Cursor { at: reader.at })?;
    rt.print(" next")?;
    let next = reader.step();
    print_step(rt, next, Cursor { at: reader.at })?;
    print_record(rt, packet_fields::record(kind, s, 1))?;
    rt.print("\n")
}

fn read_one(rt: &impl Print, s: &[u8]) -> io::Result<()> {
    print!(rt; "slice {}", s.len())?;
    print_points(rt, packet_points::points(s))?;
    rt.print("\n")?;
    read_kind(rt, 16, s)?;
    read_kind(rt, 17, s)
}

fn read_all(rt: &impl Print, input: &[u8]) -> io::Result<()> {
    let mut at: usize = 0;
    let mut end = case_end(input, at);
    while at < end {
        read_one(rt, case_at(input, at))?;
        at = end;
        end = case_end(input, at);
    }
    Ok(())
}

fn main(rt: HostRuntime) -> io::Result<()> {
    let mut input = Vec::new(rt.alloc());
    rt.reader().take(MOST_INPUT).read_to_end(&mut input)?;
    read_all(&rt, &input)?;
    read_kind(&rt, 18, case_at(&input, 0))
}
