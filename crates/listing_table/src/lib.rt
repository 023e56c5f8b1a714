// The text of a table of rows: measured, and put (paper 01, "The listing").
#![tactic(auto)]

ghost use Rattle.std.specs.Prelude.{◌≡◌, ◌+◌, ◌*◌, ◌≤◌, ◌<◌, length, drop};
ghost use Rattle.digits.specs.Stores.{Writes, written_of};
ghost use Rattle.listing.specs.Lines.{letter, header_line, row_line, end_line};
ghost use Rattle.listing.specs.Internal.{Puts, table_lines, table_text, first_of, held_rows, held_text};

use listing_lines::{fields_size, put_line};
use refusals::Refusal;

// The most rows that are listed.
const MAX_ROWS: usize = 8192;

// How many bytes the line of the row takes that starts at an index of the table.
fn row_size(table: &[u32], index: usize) -> usize
    requires { index + 3 ≤ length table.now }
    ensures { result ≡ length (row_line (first_of (drop index table.now))) }
{
    1 + fields_size(table[index], table[index + 1])
}

// How many bytes the lines of the first rows of the table take.
fn rows_size(table: &[u32], rows: usize) -> usize
    requires rows_bound { rows ≤ 8192 }
    requires rows_in_bounds { 3 * rows ≤ length table.now }
    ensures { result ≡ length (table_lines rows table.now) }
{
    let mut size = 0;
    for i in 0..rows {
        size += row_size(table, 3 * i);
    }
    size
}

// How many bytes the text of the table takes: the first line has 18, and the word `end` 3.
fn text_size(table: &[u32], rows: usize, size: u32, skipped: u32) -> usize
    requires rows_bound { rows ≤ 8192 }
    requires rows_in_bounds { 3 * rows ≤ length table.now }
    ensures { result ≡ length (table_text rows table.now size skipped) }
{
    let lines = rows_size(table, rows);
    let last = fields_size(size, skipped);
    21 + lines + last
}

// The letter of a kind.
fn letter_of(kind: u32) -> u8
    ensures { result ≡ letter kind }
{
    match kind {
        1 => b'R',
        2 => b'P',
        3 => b'C',
        4 => b'T',
        5 => b'U',
        6 => b'E',
        16 => b'M',
        _ => b'?',
    }
}

// Puts the line of the row that starts at an index of the table.
fn put_row(out: &mut [u8], at: usize, table: &[u32], index: usize) -> usize
    requires index_in_bounds { index + 3 ≤ length table.now }
    requires line_fits { at + length (row_line (first_of (drop index table.now))) ≤ length out.old }
    ensures { Puts (row_line (first_of (drop index table.now))) out.old at result out.new }
{
    let letter = letter_of(table[index + 2]);
    put_line(out, at, &[letter], table[index], table[index + 1])
}

// Puts the lines of the first rows of the table.
fn put_rows(out: &mut [u8], from: usize, table: &[u32], rows: usize) -> usize
    requires rows_in_bounds { 3 * rows ≤ length table.now }
    requires lines_fit { from + length (table_lines rows table.now) ≤ length out.old }
    ensures { Puts (table_lines rows table.now) out.old from result out.new }
{
    let mut at = from;
    for i in 0..rows {
        at = put_row(out, at, table, 3 * i);
    }
    at
}

fn put_end(out: &mut [u8], at: usize, size: u32, skipped: u32) -> usize
    requires { at + length (end_line size skipped) ≤ length out.old }
    ensures { Puts (end_line size skipped) out.old at result out.new }
{
    put_line(out, at, b"end", size, skipped)
}

// Puts the first line.
fn put_header(out: &mut [u8]) -> usize
    requires { 18 ≤ length out.old }
    ensures { Puts header_line out.old 0 result out.new }
{
    stores::put_bytes(out, 0, b"kind\tplace\tlength\n");
    18
}

// Puts the first line, the lines of the table's rows, and the last line.
fn put_all(out: &mut [u8], table: &[u32], rows: usize, size: u32, skipped: u32) -> usize
    requires rows_in_bounds { 3 * rows ≤ length table.now }
    requires text_fits { length (table_text rows table.now size skipped) ≤ length out.old }
    ensures { Puts (table_text rows table.now size skipped) out.old 0 result out.new }
{
    let first = put_header(out);
    let last = put_rows(out, first, table, rows);
    put_end(out, last, size, skipped)
}

// The number of rows asked for, if the table holds them and they are not too many; else none.
fn held_rows(table: &[u32], rows: usize) -> usize
    ensures { (result ≡ held_rows rows table.now) × (result ≤ 8192) × (3 * result ≤ length table.now) }
{
    if MAX_ROWS < rows {
        return 0;
    }
    if table.len() < 3 * rows {
        return 0;
    }
    rows
}

// Writes the text of rows that the table holds: it is measured first, since a refusal writes nothing.
fn write_rows(
    out: &mut [u8],
    table: &[u32],
    rows: usize,
    size: u32,
    skipped: u32,
) -> Result<usize, Refusal>
    requires rows_bound { rows ≤ 8192 }
    requires rows_in_bounds { 3 * rows ≤ length table.now }
    ensures { Writes 0 (table_text rows table.now size skipped) out.old (written_of result) out.new }
{
    if out.len() < text_size(table, rows, size, skipped) {
        return Err(Refusal::OutputTooShort);
    }
    Ok(put_all(out, table, rows, size, skipped))
}

// Writes the text of the first rows of a table, three numbers each, with the size of the input and its skipped bytes on the last line.
// Of more rows than the table holds, or than 8,192, it writes none.
pub fn write_table(
    out: &mut [u8],
    table: &[u32],
    rows: usize,
    size: u32,
    skipped: u32,
) -> Result<usize, Refusal>
    ensures { Writes 0 (held_text rows table.now size skipped) out.old (written_of result) out.new }
{
    let held = held_rows(table, rows);
    write_rows(out, table, held, size, skipped)
}
