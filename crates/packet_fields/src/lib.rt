// The records of one whole packet of the kind named, and a cursor over them (paper 01, "Fields"; paper 02, (i)).
#![tactic(auto)]

ghost use Rattle.std.specs.Prelude.{◌≡◌, suc, ◌≤◌, Ok};
ghost use Rattle.packet.specs.Walk.{records_of, end_at, record_at, starts_among};
ghost use Rattle.packet.specs.Fields.{packet_record_of, record_shown, record_read, RecordShown};
ghost use Rattle.packet.specs.Fields.{packet_step_of, cursor_behind, step_read, StepShown};
ghost use Rattle.packet.specs.Internal.{Walkable};

use form::Judgement;
use mmwave::Header;
use mmwave_judge::judge;
use packet::{Cursor, Record};
use packet_header::{RECORD_HEADER, dialect_named, payload_length};
use refusals::Refusal;

// -- The walk over the records

// The offset right behind the record at `p`.
fn behind(s: &[u8], p: usize) -> usize
    requires { p ≤ 32768 }
    ensures { result ≡ end_at s.now p }
{
    p + RECORD_HEADER + payload_length(s, p) as usize
}

// The offset of record `j`, counted from the one at `p`.
fn place(s: &[u8], p: usize, j: usize) -> usize
    requires { Walkable s.now (suc j) p }
    ensures { result ≡ record_at s.now j p }
{
    if j == 0 {
        return p;
    }
    let next = behind(s, p);
    place(s, next, j - 1)
}

// Does one of the `k` records from `p` on start at `at`?
fn starts(s: &[u8], p: usize, k: u32, at: usize) -> bool
    requires { Walkable s.now k p }
    ensures { result ≡ starts_among s.now k p at }
{
    if k == 0 {
        return false;
    }
    if p == at {
        return true;
    }
    let next = behind(s, p);
    starts(s, next, k - 1, at)
}

// -- Records

// The record that starts at `p`.
fn record_from(s: &[u8], p: usize) -> Record
    requires { p ≤ 32768 }
    ensures { packet_record_of (Ok result) ≡ record_shown s.now p }
{
    Record {
        tag: numbers::word_at(s, p),
        start: p + RECORD_HEADER,
        length: payload_length(s, p) as usize,
    }
}

// Record `index` of a packet.
fn read_record(s: &[u8], index: usize) -> Result<Record, Refusal>
    requires { Walkable s.now (records_of s.now) 40 }
    ensures { packet_record_of result ≡ record_read s.now index }
{
    let records = numbers::word_at(s, Header::RECORDS) as usize;
    if records <= index {
        return Err(Refusal::NoSuchIndex);
    }
    let p = place(s, Header::SIZE, index);
    Ok(record_from(s, p))
}

// Record `index` of the packet of this kind: its type and the part of the slice that is its payload; 5, or 6 for an index at or over the
// record count.
pub fn record(kind: u32, packet: &[u8], index: usize) -> Result<Record, Refusal>
    ensures { RecordShown kind packet.now index (packet_record_of result) }
{
    let Some(d) = dialect_named(kind) else {
        return Err(Refusal::NotOneFrame);
    };
    let Judgement::Whole(found, length) = judge(packet, d) else {
        return Err(Refusal::NotOneFrame);
    };
    if found != kind {
        return Err(Refusal::NotOneFrame);
    }
    if length != packet.len() {
        return Err(Refusal::NotOneFrame);
    }
    read_record(packet, index)
}

// -- The cursor

// The record of a packet that starts at `at`.
fn read_step(s: &[u8], at: usize) -> Result<Record, Refusal>
    requires { Walkable s.now (records_of s.now) 40 }
    ensures { packet_step_of result (cursor_behind at result) ≡ step_read s.now at }
{
    let records = numbers::word_at(s, Header::RECORDS);
    if !starts(s, Header::SIZE, records, at) {
        return Err(Refusal::NoSuchIndex);
    }
    Ok(record_from(s, at))
}

// The record of the packet of this kind that starts at the cursor; 5, or 6 where no record starts there.
pub fn peek(kind: u32, packet: &[u8], cursor: Cursor) -> Result<Record, Refusal>
    ensures { StepShown kind packet.now cursor.at (packet_step_of result (cursor_behind cursor.at result)) }
{
    let Some(d) = dialect_named(kind) else {
        return Err(Refusal::NotOneFrame);
    };
    let Judgement::Whole(found, length) = judge(packet, d) else {
        return Err(Refusal::NotOneFrame);
    };
    if found != kind {
        return Err(Refusal::NotOneFrame);
    }
    if length != packet.len() {
        return Err(Refusal::NotOneFrame);
    }
    read_step(packet, cursor.at)
}

// The record of the packet of this kind that starts at the cursor, which moves behind it; 5, or 6 where no record starts there, and the
// cursor stays. From 40 on, steps give record 0, 1, .. and then 6.
pub fn step(kind: u32, packet: &[u8], cursor: &mut Cursor) -> Result<Record, Refusal>
    ensures { StepShown kind packet.now cursor.old.at (packet_step_of result cursor.new) }
{
    let record = peek(kind, packet, *cursor)?;
    cursor.at = record.start + record.length;
    Ok(record)
}
