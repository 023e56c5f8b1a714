// The record of points of a packet: its first record of type 1 (paper 01, "Fields").
#![tactic(auto)]

ghost use Rattle.std.specs.Prelude.{◌≡◌};
ghost use Rattle.packet.specs.Walk.{first_of_type};
ghost use Rattle.packet.specs.Internal.{point_record_found};

use mmwave::Header;
use mmwave_header::MOST_RECORDS;
use packet_header::{RECORD_HEADER, payload_length};

// The type of a record of points.
const POINTS: u32 = 1;

// The first of the `k` records from `p` on that is one of points: this one, or else the first of those behind it. Beyond the end of the
// bytes there is none.
fn first_of(s: &[u8], p: usize, k: u32) -> Option<usize>
    ensures { result ≡ first_of_type 1 s.now k p }
{
    if k == 0 {
        return None;
    }
    if s.len() < p {
        return None;
    }
    if numbers::word_at(s, p) == POINTS {
        return Some(p);
    }
    let next = p + RECORD_HEADER + payload_length(s, p) as usize;
    first_of(s, next, k - 1)
}

// The first record of type 1 of a packet, which is not judged here: in bytes with a record count over 32 none is looked for.
pub fn point_record(packet: &[u8]) -> Option<usize>
    ensures { result ≡ point_record_found packet.now }
{
    let records = numbers::word_at(packet, Header::RECORDS);
    if MOST_RECORDS < records {
        return None;
    }
    first_of(packet, Header::SIZE, records)
}
