// The judgement of bytes as a SiRad frame, byte by byte (paper 01, "SiRad" and "Judging a place").
#![tactic(auto)]

ghost use Rattle.std.specs.Prelude.{◌≡◌, true, ◌≤◌};
ghost use Rattle.digits.specs.Bytes.{is_hex};
ghost use Rattle.digits.specs.Hex.{digit};
ghost use Rattle.form.specs.Numbers.{Judges, judgement_of};
ghost use Rattle.sirad.specs.Rows.{ending, blocks, t_pieces, u_pieces, e_pieces};
ghost use Rattle.sirad.specs.Sirad.{row, number, head, sized, kind_of, sirad};

use form::{Judgement, Parsed, Unparsed};
use sirad::Kind;
use sirad_bytes::{Character, HexDigit, NO_STOP, byte_of, fixed_at};
use sirad_pieces::{block_at, chars, hexes};

// The byte that starts every frame and stands nowhere else in one.
pub const START_MARKER: u8 = b'!';

// The stop marker.
const CR: u8 = 13;

const LF: u8 = 10;

// The reasons of the first two bytes (paper 01, "Judging a place").
pub const NO_START: u32 = 10;

pub const NO_IDENTIFIER: u32 = 11;

// The kinds of this wire (paper 01, "SiRad").
pub const RANGE: u32 = 1;

pub const PHASE: u32 = 2;

pub const CFAR: u32 = 3;

pub const TARGETS: u32 = 4;

pub const STATUS: u32 = 5;

pub const ERROR: u32 = 6;

const SIZE_DIGITS: usize = 4;

const RESERVED: usize = 8;

const BLOCKS: usize = 16;

// Five numbers of a U frame, the flags of an E frame.
const STATUS_DIGITS: usize = 20;

const FLAG_DIGITS: usize = 4;

// What a hex digit stands for: `digits::digit_of` for a byte that is known to be one, with one test instead of four.
// `0` is 48, and `A`, which is 65, stands for 10.
fn digit_of(b: u32) -> u32
    requires { is_hex b ≡ true }
    ensures { result ≡ digit b }
{
    if b < 65 { b - 48 } else { b - 55 }
}

// The number of n hex digits, which fits.
fn hex_number(s: &[u8], from: usize, n: usize) -> Result<Parsed, Unparsed>
    requires { n ≤ 7 }
    ensures { Judges (number n 0) from s.now (judgement_of result) }
{
    let mut value = 0;
    let mut at = from;
    for _ in 0..n {
        let read = byte_of::<HexDigit>(s, at)?;
        value = value * 16 + digit_of(read.value);
        at = read.end;
    }
    Ok(Parsed { value, end: at })
}

// The stop marker of a frame of this kind.
fn stop(s: &[u8], at: usize, kind: u32) -> Result<Parsed, Unparsed>
    ensures { Judges (row ending kind) at s.now (judgement_of result) }
{
    let cr = fixed_at(s, at, CR, NO_STOP)?;
    let lf = fixed_at(s, cr.end, LF, NO_STOP)?;
    Ok(Parsed {
        value: kind,
        end: lf.end,
    })
}

// Format and gain.
fn head_at(s: &[u8], at: usize) -> Result<Parsed, Unparsed>
    ensures { Judges head at s.now (judgement_of result) }
{
    let format = byte_of::<HexDigit>(s, at)?;
    let gain = byte_of::<Character>(s, format.end)?;
    Ok(Parsed {
        value: 0,
        end: gain.end,
    })
}

// n blocks and the stop marker.
fn blocks_from(s: &[u8], from: usize, n: usize) -> Result<Parsed, Unparsed>
    ensures { Judges (row (blocks n) 4) from s.now (judgement_of result) }
{
    let mut at = from;
    for _ in 0..n {
        at = block_at(s, at)?.end;
    }
    stop(s, at, TARGETS)
}

fn data_frame(s: &[u8], at: usize, kind: u32) -> Result<Parsed, Unparsed>
    ensures { Judges (sized kind) at s.now (judgement_of result) }
{
    let size = hex_number(s, at, SIZE_DIGITS)?;
    let data = chars(s, size.end, size.value as usize + RESERVED)?;
    stop(s, data.end, kind)
}

fn target_list(s: &[u8], at: usize) -> Result<Parsed, Unparsed>
    ensures { Judges (row t_pieces 4) at s.now (judgement_of result) }
{
    let head = head_at(s, at)?;
    blocks_from(s, head.end, BLOCKS)
}

fn status_update(s: &[u8], at: usize) -> Result<Parsed, Unparsed>
    ensures { Judges (row u_pieces 5) at s.now (judgement_of result) }
{
    let head = head_at(s, at)?;
    let fields = hexes(s, head.end, STATUS_DIGITS)?;
    stop(s, fields.end, STATUS)
}

fn error_flags(s: &[u8], at: usize) -> Result<Parsed, Unparsed>
    ensures { Judges (row e_pieces 6) at s.now (judgement_of result) }
{
    let flags = hexes(s, at, FLAG_DIGITS)?;
    stop(s, flags.end, ERROR)
}

fn kind_of(b: u8) -> Kind
    ensures { result ≡ kind_of b }
{
    match b {
        b'R' => Kind::Sized(RANGE),
        b'P' => Kind::Sized(PHASE),
        b'C' => Kind::Sized(CFAR),
        b'T' => Kind::Targets,
        b'U' => Kind::Status,
        b'E' => Kind::Flags,
        _ => Kind::Unknown,
    }
}

// A frame that stands at the first byte: its kind, and the offset behind it.
fn frame(bytes: &[u8]) -> Result<Parsed, Unparsed>
    ensures { Judges sirad 0 bytes.now (judgement_of result) }
{
    let Some(&first) = bytes.first() else {
        return Err(Unparsed::Waiting);
    };
    if first != START_MARKER {
        return Err(Unparsed::Bad(NO_START));
    }
    let Some(&identifier) = bytes.get(1) else {
        return Err(Unparsed::Waiting);
    };
    match kind_of(identifier) {
        Kind::Sized(kind) => data_frame(bytes, 2, kind),
        Kind::Targets => target_list(bytes, 2),
        Kind::Status => status_update(bytes, 2),
        Kind::Flags => error_flags(bytes, 2),
        Kind::Unknown => Err(Unparsed::Bad(NO_IDENTIFIER)),
    }
}

// The judgement of the bytes from their first on; at an offset: `judge(&bytes[at..])`.
// `judge(b"!E0000\r\n")` is Whole(6, 8), `judge(b"!E00")` is Waiting, `judge(b"!e")` is Bad(11).
pub fn judge(bytes: &[u8]) -> Judgement
    ensures { Judges sirad 0 bytes.now result }
{
    Judgement::from(frame(bytes))
}
