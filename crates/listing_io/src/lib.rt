// The listing of standard input on standard output (paper 01, "The listing").
#![tactic(auto)]

ghost use Rattle.std.specs.Prelude.{◌≡◌, ◌+◌, ◌≤◌, ◌<◌, length, take, MatchResult};
ghost use Rattle.std.specs.Io.KnownBytes.{Appends};
ghost use Rattle.listing.specs.Gather.{Lent};
ghost use Rattle.listing.specs.Listing.{listing};
ghost use Rattle.listing.specs.Internal.{Puts, text_room};
ghost use Rattle.listing_io.specs.Known.{Grows, Leaves, Lists, ListsFirst};

use capture::Dialect;
use listing_gather::{MOST_TRIES, gather};
use listing_text::write_listing;
use std::io::{ErrorKind, Read, Write};

// One byte more than is listed: it is reached by an input that is too long.
pub const INPUT_ROOM: usize = 65537;

// Room for 8,192 lines of at most 24 bytes (a letter, two tabs, two numbers of at most 10 digits, a line feed),
// the first line with 18 and the last one with at most 26.
pub const TEXT_ROOM: usize = 196652;

// Why nothing, or not the whole listing, is printed: a read of the input failed, or a write to the output.
#[derive(Clone, Copy)]
pub enum Fault {
    Unread,
    Unwritten,
}

// Zeros for the input.
fn input_buffer() -> [u8; INPUT_ROOM]
    ensures { 65537 ≡ length result }
{
    [0; INPUT_ROOM]
}

// Zeros for the text of any listing.
fn text_buffer() -> [u8; TEXT_ROOM]
    ensures { text_room ≡ length result }
{
    [0; TEXT_ROOM]
}

// Puts the listing into a buffer that holds every listing, and answers its length.
fn put_listing(bytes: &[u8], out: &mut [u8], d: Dialect) -> usize
    requires { text_room ≤ length out.old }
    ensures { Puts (listing d bytes.now) out.old 0 result out.new }
{
    write_listing(bytes, out, d).unwrap()
}

// One write, tried again where a signal interrupts it; answers how many of the first bytes were taken, 0 where it fails.
fn write_part<W: Write>(writer: &mut W, text: &[u8]) -> usize
    ensures within { result ≤ length text.now }
    ensures writes { Appends (W.contents writer.old) (W.contents writer.new) (take result text.now) }
{
    for _ in 0..MOST_TRIES {
        match writer.write(text) {
            Ok(taken) => return taken,
            Err(e) => {
                if e.kind() != ErrorKind::Interrupted {
                    return 0;
                }
            }
        }
    }
    0
}

// Writes the whole text, part by part, and answers whether it could.
fn write_whole<W: Write>(writer: &mut W, text: &[u8]) -> bool
    ensures { Grows (W.contents writer.old) (W.contents writer.new) result text.now }
{
    let mut at = 0;
    while at < text.len() {
        let taken = write_part(writer, &text[at..]);
        if taken == 0 {
            return false;
        }
        at += taken;
    }
    true
}

// Says on standard error what a program can't do.
fn complain<W: Write>(errors: &mut W, program: &[u8], what: &[u8]) {
    write_whole(errors, program);
    write_whole(errors, what);
}

// Lists an input, read by the block, on an output. Where a read fails nothing is listed, so that no part of a capture is taken
// for the whole.
pub fn print_listing<R: Read, W: Write>(
    input: &mut R,
    block: &mut [u8],
    d: Dialect,
    output: &mut W,
) -> Result<(), Fault>
    ensures lent { Lent block.old block.new }
    ensures lists { MatchResult result
        (λ _. Lists d (R.remaining input.old) (W.contents output.old) (W.contents output.new))
        (Leaves d (R.remaining input.old) (W.contents output.old) (W.contents output.new)) }
{
    let mut buffer = input_buffer();
    let mut text = text_buffer();
    let Some(size) = gather(input, block, &mut buffer) else {
        return Err(Fault::Unread);
    };
    let end = put_listing(&buffer[..size], &mut text, d);
    let printed = write_whole(output, &text[..end]);
    if printed {
        return Ok(());
    }
    Err(Fault::Unwritten)
}

// Lists standard input, read by the block, on standard output. A line on standard error says that a read failed; another one says
// that a write failed.
pub fn list_input<R: Read, W: Write, E: Write>(
    program: &[u8],
    input: &mut R,
    block: &mut [u8],
    d: Dialect,
    output: &mut W,
    errors: &mut E,
)
    ensures lent { Lent block.old block.new }
    ensures lists { ListsFirst d (R.remaining input.old) (W.contents output.old) (W.contents output.new) }
{
    match print_listing(input, block, d, output) {
        Ok(()) => {}
        Err(Fault::Unread) => complain(errors, program, b": standard input cannot be read\n"),
        Err(Fault::Unwritten) => complain(
            errors,
            program,
            b": standard output cannot be written\n",
        ),
    }
}
