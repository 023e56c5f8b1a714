// Classes of bytes, and single hex digits both ways. The definitions of numbers as bytes and of stores stand here too, with their laws;
// `hex_numbers`, `numbers` and `stores` have the code.
#![tactic(auto)]

ghost use Rattle.std.specs.Prelude.{◌≡◌, ◌&&◌, ◌||◌, ◌%◌};
ghost use Rattle.digits.specs.Bytes.{within, is_hex, is_character};
ghost use Rattle.digits.specs.Hex.{digit, glyph};
ghost use Rattle.digits.specs.Stores.{written_of};

use refusals::Refusal;

// A character is a byte from the first to the last, both included (document 000).
const FIRST_CHARACTER: u8 = 34;

const LAST_CHARACTER: u8 = 254;

// What a writer answers to a host in C: the refusal number (0: none) and the bytes produced.
#[repr(C)]
#[derive(Clone, Copy)]
pub struct Written {
    pub refusal: u32,
    pub size: usize,
}

impl From<Result<usize, Refusal>> for Written {
    ghost from_gives = { λ r w. w ≡ written_of r };

    fn from(answer: Result<usize, Refusal>) -> Written {
        match answer {
            Ok(size) => Written { refusal: 0, size },
            Err(refusal) => Written {
                refusal: refusal.number(),
                size: 0,
            },
        }
    }
}

// -- Tests, by calls where `&&` and `||` would branch on the data

pub fn both(a: bool, b: bool) -> bool
    ensures { result ≡ (a && b) }
{
    a && b
}

fn either(a: bool, b: bool) -> bool
    ensures { result ≡ (a || b) }
{
    a || b
}

// -- Single bytes

fn between(low: u8, high: u8, b: u8) -> bool
    ensures { result ≡ within low high b }
{
    low <= b && b <= high
}

// Whether a byte is an upper-case hex digit: 70 (`F`) is, 71 and 102 (`f`) are not.
pub fn is_hex(b: u8) -> bool
    ensures { result ≡ is_hex b }
{
    let figure = between(b'0', b'9', b);
    let letter = between(b'A', b'F', b);
    either(figure, letter)
}

// Whether a byte is a character: 34 and 254 are, 33 (`!`) and 255 are not.
pub fn is_character(b: u8) -> bool
    ensures { result ≡ is_character b }
{
    between(FIRST_CHARACTER, LAST_CHARACTER, b)
}

// What an upper-case hex digit stands for: 70 (`F`) is 15; 0 for a byte that is no digit.
pub fn digit_of(b: u8) -> u16
    ensures { result ≡ digit b }
{
    if between(b'0', b'9', b) {
        return b as u16 - 48;
    }
    if between(b'A', b'F', b) {
        return b as u16 - 55;
    }
    0
}

// The byte of a number's lowest hex digit: 70 (`F`) for 15, and for 31.
pub fn glyph_of(v: u32) -> u8
    ensures { result ≡ glyph (v % 16) }
{
    let d = (v % 16) as u8;
    if d <= 9 {
        return 48 + d;
    }
    55 + d
}
