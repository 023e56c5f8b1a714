// The choice between two lines (paper 01, "Two lines").
#![tactic(auto)]

ghost use Rattle.std.specs.Prelude.{◌≡◌, true, false, cond, ◌+◌, ◌≤◌, ◌<◌, length, unwrap_or, Some};
ghost use Rattle.capture.specs.Dialects.{dialect_of};
ghost use Rattle.capture.specs.Lines.{closed_rows, first_row, row_part, empty_part, part_of, RefersTo};
ghost use Rattle.capture.specs.Entries.{max_bytes};

use capture::{Dialect, Part};
use capture_judge::{MAX_BYTES, dialect_of, number_of};
use capture_read::closed_reading;
use reading::Row;

// The first frame of a line's closed reading. A table of zeros stays zeros where there is none, and no frame is empty.
fn first_frame(line: &[u8], d: Dialect) -> Option<Row>
    requires { length line.now ≤ max_bytes }
    ensures { result ≡ first_row (closed_rows d line.now) }
{
    let mut table = [0u32; 3];
    let number = number_of(d);
    let _ = closed_reading(number, line, &mut table);
    let offset = table[0];
    let size = table[1];
    let kind = table[2];
    if size == 0 {
        return None;
    }
    Some(Row { offset, size, kind })
}

fn row_part(standby: bool, w: Row) -> Part
    ensures { result ≡ row_part standby w }
{
    Part {
        standby: standby,
        offset: w.offset as usize,
        size: w.size as usize,
    }
}

// The first frame of the main line, or, where it has none, of the standby line; none where a reading of either line would be refused.
fn first_part(dialect: u32, main: &[u8], standby: &[u8]) -> Option<Part>
    ensures { unwrap_or result empty_part ≡ part_of (dialect_of dialect) main.now standby.now }
{
    let d = dialect_of(dialect)?;
    if MAX_BYTES < main.len() {
        return None;
    }
    if MAX_BYTES < standby.len() {
        return None;
    }
    if let Some(m) = first_frame(main, d) {
        return Some(row_part(false, m));
    }
    let s = first_frame(standby, d)?;
    Some(row_part(true, s))
}

// Which part of which line is the first frame: an empty part of the main line where there is none.
pub fn choose_part(dialect: u32, main: &[u8], standby: &[u8]) -> Part
    ensures { result ≡ part_of (dialect_of dialect) main.now standby.now }
{
    first_part(dialect, main, standby).unwrap_or(Part {
        standby: false,
        offset: 0,
        size: 0,
    })
}

// The standby line where it is asked for, else the main line: the result is lent for as long as the main line is, and so is the standby
// line.
fn line_of<'a, 'b: 'a>(main: &'a [u8], standby: &'b [u8], back: bool) -> &'a [u8]
    ensures { result ≡ cond back standby.entry main.entry }
{
    if back {
        return standby;
    }
    main
}

// That part itself: of the lines `noise` and `?!E0000\r\n` it is the last eight bytes of the second.
pub fn choose_line<'a, 'b: 'a>(dialect: u32, main: &'a [u8], standby: &'b [u8]) -> &'a [u8]
    ensures { RefersTo (part_of (dialect_of dialect) main.now standby.now) main.entry standby.entry result }
{
    let p = choose_part(dialect, main, standby);
    let line = line_of(main, standby, p.standby);
    let from = p.offset;
    let to = from + p.size;
    &line[from..to]
}
