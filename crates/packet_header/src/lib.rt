// The header of one whole packet of the kind named, and the payload length in a record's header (paper 01, "Fields"; paper 02, (i)).
#![tactic(auto)]

ghost use Rattle.std.specs.Prelude.{◌≡◌, cond};
ghost use Rattle.refusals.specs.declared.Refusal.TheVariants.{NotOneFrame};
ghost use Rattle.packet.specs.Walk.{length_at};
ghost use Rattle.packet.specs.Fields.{dialect_named, is_packet, packet_header_of, header_shown, header_of};

use form::Judgement;
use mmwave::{Header, PacketDialect};
use mmwave_dialects::{KIND, VITAL_KIND};
use mmwave_judge::judge;
use refusals::Refusal;

// A record's header: type and payload length.
pub const RECORD_HEADER: usize = 8;

const LENGTH_FIELD: usize = 4;

// -- One whole packet

// The dialect whose packets have this kind.
#[tactic(auto, unfolding(packet::specs::Fields::dialect_named))]
pub fn dialect_named(kind: u32) -> Option<PacketDialect>
    ensures { result ≡ dialect_named kind }
{
    if kind == KIND {
        return Some(PacketDialect::MmWave);
    }
    if kind == VITAL_KIND {
        return Some(PacketDialect::VitalSigns);
    }
    None
}

// Whether the slice is exactly one whole packet of this kind, 16 or 17.
fn is_packet(kind: u32, packet: &[u8]) -> bool
    ensures { result ≡ is_packet kind packet.now }
{
    let Some(dialect) = dialect_named(kind) else {
        return false;
    };
    let Judgement::Whole(found, length) = judge(packet, dialect) else {
        return false;
    };
    found == kind && length == packet.len()
}

// 5 if the slice is not exactly one whole packet of this kind, 16 or 17.
pub fn check_packet(kind: u32, packet: &[u8]) -> Result<(), Refusal>
    ensures { result ≡ cond (is_packet kind packet.now) (Ok tt) (Err NotOneFrame) }
{
    if is_packet(kind, packet) {
        Ok(())
    } else {
        Err(Refusal::NotOneFrame)
    }
}

// -- The packet's header

// The eight words at their offsets.
fn read_header(s: &[u8]) -> Header
    ensures { packet_header_of (Ok result) ≡ header_shown s.now }
{
    Header {
        version: numbers::word_at(s, Header::VERSION),
        total: numbers::word_at(s, Header::TOTAL),
        platform: numbers::word_at(s, Header::PLATFORM),
        frame: numbers::word_at(s, Header::FRAME),
        time: numbers::word_at(s, Header::TIME),
        objects: numbers::word_at(s, Header::OBJECTS),
        records: numbers::word_at(s, Header::RECORDS),
        subframe: numbers::word_at(s, Header::SUBFRAME),
    }
}

// The header's eight fields, or 5 if the slice is not exactly one whole packet of this kind, 16 or 17.
pub fn header(kind: u32, packet: &[u8]) -> Result<Header, Refusal>
    ensures { packet_header_of result ≡ header_of kind packet.now }
{
    let Some(d) = dialect_named(kind) else {
        return Err(Refusal::NotOneFrame);
    };
    let Judgement::Whole(found, length) = judge(packet, d) else {
        return Err(Refusal::NotOneFrame);
    };
    if found != kind {
        return Err(Refusal::NotOneFrame);
    }
    if length != packet.len() {
        return Err(Refusal::NotOneFrame);
    }
    Ok(read_header(packet))
}

// -- A record's header

// The payload length of the record at `p`; 0 where the bytes end before it.
pub fn payload_length(s: &[u8], p: usize) -> u32
    ensures { result ≡ length_at s.now p }
{
    if s.len() < p {
        return 0;
    }
    numbers::word_at(s, p + LENGTH_FIELD)
}
