// The text that a listing program prints (paper 01, "The listing").
#![tactic(auto)]

ghost use Rattle.std.specs.Prelude.{◌≡◌, ◌≤◌, ◌<◌, length};
ghost use Rattle.digits.specs.Stores.{Writes, written_of};
ghost use Rattle.listing.specs.Listing.{listed, listing};

use capture::Dialect;
use listing_table::write_table;
use reading::Answer;
use refusals::Refusal;

// The most bytes of input that are listed.
pub const MAX_INPUT: usize = 65536;

// Three numbers for each of 8,192 rows: the shortest frame has 8 bytes, so an input within the limit has no more (`rows_in_bytes`).
const TABLE_ROOM: usize = 24576;

// Zeros for the rows.
fn row_table() -> [u32; TABLE_ROOM]
    ensures { 24576 ≡ length result }
{
    [0; TABLE_ROOM]
}

// Writes a text at the start of the buffer.
fn write_text(out: &mut [u8], text: &[u8]) -> Result<usize, Refusal>
    ensures { Writes 0 text.now out.old (written_of result) out.new }
{
    if out.len() < text.len() {
        return Err(Refusal::OutputTooShort);
    }
    stores::put_bytes(out, 0, text);
    Ok(text.len())
}

// Writes the lines of the closed reading of an input within the limit.
fn write_listed(bytes: &[u8], out: &mut [u8], d: Dialect) -> Result<usize, Refusal>
    requires { length bytes.now ≤ 65536 }
    ensures { Writes 0 (listed d bytes.now) out.old (written_of result) out.new }
{
    let mut table = row_table();
    let number = capture_judge::number_of(d);
    let read = capture_read::closed_reading(number, bytes, &mut table);
    let a = Answer::from(read);
    let size = bytes.len() as u32;
    let skipped = a.skipped as u32;
    write_table(out, &table, a.rows, size, skipped)
}

// Writes what a listing program prints for these bytes: the closed reading, one line for each frame,
// or `refused`, tab, `4` for over 65,536 bytes.
// For the 9 bytes `!E0000`, CR, LF, space it is `kind`, tab, `place`, tab, `length`; `E`, tab, `0`, tab, `8`; `end`, tab, `9`, tab, `1`.
pub fn write_listing(bytes: &[u8], out: &mut [u8], d: Dialect) -> Result<usize, Refusal>
    ensures { Writes 0 (listing d bytes.now) out.old (written_of result) out.new }
{
    if MAX_INPUT < bytes.len() {
        return write_text(out, b"refused\t4\n");
    }
    write_listed(bytes, out, d)
}
