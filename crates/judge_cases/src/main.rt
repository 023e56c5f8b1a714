// Reads slices from standard input, each behind its length in four bytes, and prints of each its length and the judgements of the three
// dialects.
#![tactic(auto)]

use case_input::{case_at, case_end};
use form::Judgement;
use mmwave::PacketDialect;
use std::io::Read;
use std::{fmt, io};

// The most bytes of input that are read.
const MOST_INPUT: u64 = 65536;

// A judgement as it is printed.
#[derive(Clone, Copy)]
struct Shown(Judgement);

impl fmt::Display for Shown {
    fn fmt<W: fmt::Write>(&self, f: &mut fmt::Formatter<W>) -> fmt::Result {
        match self.0 {
            Judgement::Whole(kind, size) => write!(f, "whole {kind} {size}"),
            Judgement::Bad(reason) => write!(f, "bad {reason}"),
            Judgement::Waiting => f.write_str("waiting"),
        }
    }
}

fn judge_one(rt: &impl Print, s: &[u8]) -> io::Result<()> {
    let size = s.len();
    let sirad = Shown(sirad_judge::judge(s));
    let mmwave = Shown(mmwave_judge::judge(s, PacketDialect::MmWave));
    let vital = Shown(mmwave_judge::judge(s, PacketDialect::VitalSigns));
    print!(rt; "{size} sirad {sirad} mmwave {mmwave} vital {vital}\n")
}

fn judge_all(rt: &impl Print, input: &[u8]) -> io::Result<()> {
    let mut at: usize = 0;
    let mut end = case_end(input, at);
    while at < end {
        judge_one(rt, case_at(input, at))?;
        at = end;
        end = case_end(input, at);
    }
    Ok(())
}

fn main(rt: HostRuntime) -> io::Result<()> {
    let mut input = Vec::new(rt.alloc());
    rt.reader().take(MOST_INPUT).read_to_end(&mut input)?;
    judge_all(&rt, &input)
}
