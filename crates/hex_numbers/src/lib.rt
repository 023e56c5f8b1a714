// Hex numbers in bytes, both ways.
#![tactic(auto)]

ghost use Rattle.std.specs.Prelude.{◌≡◌, ◌+◌, ◌≤◌, min, length};
ghost use Rattle.digits.specs.Hex.{hex_at, hex_digits};
ghost use Rattle.digits.specs.Stores.{stored_within};

use digits::{digit_of, glyph_of};

// As many hex digits as 32 bits take.
const MOST_DIGITS: usize = 8;

fn hex_from(s: &[u8], at: usize, n: usize) -> u32
    requires { (n ≤ 8) × (at + n ≤ length s.now) }
    ensures { result ≡ hex_at n at s.now }
{
    let mut v = 0;
    for i in 0..n {
        let d = digit_of(s[at + i]);
        v = v * 16 + d as u32;
    }
    v
}

// The number of the n digits from an offset on, at most eight; of fewer where the bytes end before.
// `hex_at(b"!R0102", 2, 4)` is 258.
pub fn hex_at(s: &[u8], at: usize, n: usize) -> u32
    ensures { result ≡ hex_at (min n 8) at s.now }
{
    if s.len() < at {
        return 0;
    }
    let count = n.min(MOST_DIGITS).min(s.len() - at);
    hex_from(s, at, count)
}

// The number of the digit at an offset; 0 where none is.
pub fn digit_at(s: &[u8], at: usize) -> u8
    ensures { result ≡ hex_at 1 at s.now }
{
    hex_at(s, at, 1) as u8
}

// The number of the four digits from an offset on, of fewer where the bytes end before.
pub fn number_at(s: &[u8], at: usize) -> u16
    ensures { result ≡ hex_at 4 at s.now }
{
    hex_at(s, at, 4) as u16
}

// Lays the lowest n digits of a number over the buffer at an offset; changes nothing where they do not fit.
// `put_hex(out, 2, 4, 258)` stores `0102`.
pub fn put_hex(out: &mut [u8], at: usize, n: usize, v: u32)
    ensures { out.new ≡ stored_within out.old at (hex_digits n v) }
{
    if out.len() < at {
        return;
    }
    if out.len() - at < n {
        return;
    }
    let mut rest = v;
    for i in (0..n).rev() {
        out[at + i] = glyph_of(rest);
        rest /= 16;
    }
}
