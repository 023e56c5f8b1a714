// An input gathered in blocks (paper 01, "The listing").
#![tactic(auto)]

ghost use Rattle.std.specs.Prelude.{◌≡◌, ◌+◌, ◌≤◌, ◌<◌, length};
ghost use Rattle.listing.specs.Gather.{Gathers};
ghost use Rattle.listing.specs.Internal.{Appends, Within};
ghost use Rattle.listing_gather.specs.Known.{Takes, Holds};

use std::io::{ErrorKind, Read};

// How often in a row a signal may interrupt a read or a write; then it counts as failed.
pub const MOST_TRIES: u32 = 1000000;

// Puts as many of the first bytes of the block behind those gathered as there is room for.
fn append(buffer: &mut [u8], size: usize, block: &[u8], got: usize) -> usize
    requires size_in_bounds { size ≤ length buffer.old }
    requires got_in_bounds { got ≤ length block.now }
    ensures appends { Appends buffer.old size block.now got result buffer.new }
    ensures all { result < length buffer.old → result ≡ size + got }
{
    let n = got.min(buffer.len() - size);
    stores::put_bytes(buffer, size, &block[..n]);
    size + n
}

// One read into the block, tried again where a signal interrupts it: how many bytes it gave, or none where it failed.
fn read_block<R: Read>(reader: &mut R, block: &mut [u8]) -> Option<usize>
    ensures within { Within result block.new × (length block.new ≡ length block.old) }
    ensures takes { Takes (R.remaining reader.old) (R.remaining reader.new) result block.new }
{
    for _ in 0..MOST_TRIES {
        match reader.read(block) {
            Ok(got) => return Some(got),
            Err(e) => {
                if e.kind() != ErrorKind::Interrupted {
                    return None;
                }
            }
        }
    }
    None
}

// Reads an input, block by block, into the buffer until it ends or the buffer is full, and answers how many bytes there are,
// or none where a read failed.
// Fewer bytes than the block holds are not the end; none are. An empty block can take none, so no read can succeed with it.
#[tactic(auto, using(crate::proofs::KnownLaws::gathers_none))]
pub fn gather<R: Read>(reader: &mut R, block: &mut [u8], buffer: &mut [u8]) -> Option<usize>
    ensures gathers { Gathers block.old buffer.old result block.new buffer.new }
    ensures holds { Holds (R.remaining reader.old) result buffer.new }
{
    if block.is_empty() {
        return None;
    }
    let mut size: usize = 0;
    while size < buffer.len() {
        let got = read_block(reader, block)?;
        if got == 0 {
            return Some(size);
        }
        size = append(buffer, size, block, got);
    }
    Some(size)
}
