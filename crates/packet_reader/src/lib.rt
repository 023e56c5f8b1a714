// The packet reader: it holds the lent bytes, the offset of its next record and the kind of packet that it reads (paper 01, "Fields";
// paper 02, (i)). Its methods are thin; the work is done by the plain cursor's functions.
#![tactic(auto)]

ghost use Rattle.std.specs.Prelude.{◌≡◌};
ghost use Rattle.packet.specs.Fields.{packet_step_of, cursor_behind, step_of};
ghost use Rattle.packet_reader.specs.Steps.{Stepped};

use mmwave::Header;
use packet::{Cursor, Record};
use refusals::Refusal;

// The lent bytes, the offset of the next record, and the kind of packet that the bytes are read as: 16 or 17, any other is refused with 5.
#[derive(Clone, Copy)]
pub struct PacketReader<'a> {
    pub bytes: &'a [u8],
    pub at: usize,
    pub kind: u32,
}

impl<'a> PacketReader<'a> {
    // A reader of this kind, at the packet's first record.
    pub fn new(kind: u32, bytes: &'a [u8]) -> PacketReader<'a>
        ensures { (result.bytes ≡ bytes.entry) × (result.at ≡ 40) × (result.kind ≡ kind) }
    {
        PacketReader {
            bytes,
            at: Header::SIZE,
            kind,
        }
    }

    // The record at the reader's place, which stays.
    pub fn peek(&self) -> Result<Record, Refusal>
        ensures { packet_step_of result (cursor_behind self.now.at result) ≡ step_of self.now.kind self.now.bytes.now self.now.at }
    {
        packet_fields::peek(self.kind, self.bytes, Cursor { at: self.at })
    }

    // The record at the reader's place, and the reader moves behind it; with a refusal the place stays.
    pub fn step(&mut self) -> Result<Record, Refusal>
        ensures { Stepped self.old result self.new }
    {
        let mut cursor = Cursor { at: self.at };
        let record = packet_fields::step(self.kind, self.bytes, &mut cursor);
        self.at = cursor.at;
        record
    }
}

// The first record of these bytes.
pub fn first_step(kind: u32, bytes: &[u8]) -> Result<Record, Refusal>
    ensures { packet_step_of result (cursor_behind 40 result) ≡ step_of kind bytes.now 40 }
{
    PacketReader::new(kind, bytes).peek()
}
