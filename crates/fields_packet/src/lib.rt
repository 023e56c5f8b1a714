// The C face of a packet's fields: the readers of `packet_header`, `packet_fields` and `packet_points` under names for C, each with its
// own promise. A slice is a pointer that is not null and a count; a struct crosses by value.
#![tactic(auto)]

ghost use Rattle.std.specs.Prelude.{◌≡◌};
ghost use Rattle.packet.specs.Fields.{header_of, RecordShown, StepShown, point_of};

use packet::{Cursor, PacketHeader, PacketPoint, PacketRecord, PacketStep};

// The header of exactly one whole packet of a kind, 16 or 17; else 5.
#[unsafe(no_mangle)]
pub extern "C" fn vq_header(kind: u32, packet: &[u8]) -> PacketHeader
    ensures { result ≡ header_of kind packet.now }
{
    PacketHeader::from(packet_header::header(kind, packet))
}

// Record `index` of a packet of a kind: its type and the part of the slice that is its payload; 5, 6.
#[unsafe(no_mangle)]
pub extern "C" fn vq_record(kind: u32, packet: &[u8], index: usize) -> PacketRecord
    ensures { RecordShown kind packet.now index result }
{
    PacketRecord::from(packet_fields::record(kind, packet, index))
}

// The record of a packet of a kind that starts at `at`, and the offset behind it; 5, 6.
#[unsafe(no_mangle)]
pub extern "C" fn vq_step(kind: u32, packet: &[u8], at: usize) -> PacketStep
    ensures { StepShown kind packet.now at result }
{
    let mut cursor = Cursor { at };
    let record = packet_fields::step(kind, packet, &mut cursor);
    PacketStep::new(record, cursor)
}

// Point `index` of a packet of kind 16 in millimetres by an edition; 5, 7, 6, 32, then 30 or 31.
#[unsafe(no_mangle)]
pub extern "C" fn vq_point(edition: u32, packet: &[u8], index: usize) -> PacketPoint
    ensures { result ≡ point_of edition packet.now index }
{
    PacketPoint::from(packet_points::point(edition, packet, index))
}
