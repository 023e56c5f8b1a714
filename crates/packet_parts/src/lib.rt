// A record of the packet that a reader holds, with the part of the slice that is its payload (paper 01, "Fields"; paper 02, (i)).
#![tactic(auto)]

ghost use Rattle.packet_parts.specs.Parts.{PartShown};

use packet_reader::PacketReader;
use refusals::Refusal;

// A record: its payload as the part of the slice, and its type.
#[derive(Clone, Copy)]
pub struct RecordPart<'a> {
    pub payload: &'a [u8],
    pub tag: u32,
}

// Record `index` of the bytes that the reader holds: its payload as the part of the slice, and its type; 5 or 6.
pub fn show<'a>(reader: PacketReader<'a>, index: usize) -> Result<RecordPart<'a>, Refusal>
    ensures { PartShown reader.entry.kind reader.entry.bytes.now index result }
{
    let record = packet_fields::record(reader.kind, reader.bytes, index)?;
    let end = record.start + record.length;
    Ok(RecordPart {
        payload: &reader.bytes[record.start..end],
        tag: record.tag,
    })
}
