// The pieces of a SiRad frame, many bytes at once: runs of bytes, and the blocks of a target list (paper 01, "SiRad"; paper 02, (ii)).
#![tactic(auto)]

ghost use Rattle.std.specs.Prelude.{◌≡◌, true, ◌+◌, ◌≤◌, length};
ghost use Rattle.std.specs.List.{list_all};
ghost use Rattle.form.specs.Form.{judge_at};
ghost use Rattle.form.specs.Numbers.{Judges, judgement_of};
ghost use Rattle.sirad.specs.Classes.{Hex, Char, accepts};
ghost use Rattle.sirad.specs.Rows.{behind_number};
ghost use Rattle.sirad.specs.Sirad.{lay, run, block};

use form::{Judgement, Parsed, Unparsed};
use sirad_bytes::{ByteClass, Character, HexDigit, ZeroByte};
use sirad_bytewise::{BLOCK_BYTES, block_slowly, span};

// Bytes that are tested together; any number from 1 on would do.
const CHUNK: usize = 64;

// Whether all bytes are of the class, without a branch on data.
fn all_of<C: ByteClass>(bytes: &[u8]) -> bool
    ensures { result ≡ list_all (accepts C.class) bytes.now }
{
    let mut all = true;
    for b in bytes {
        all &= C::is_of(*b);
    }
    all
}

// n bytes of a class, tested together; one by one where one fails.
fn run_of<C: ByteClass>(s: &[u8], from: usize, n: usize) -> Result<Parsed, Unparsed>
    ensures { Judges (run n C.class) from s.now (judgement_of result) }
{
    if from <= s.len() && n <= s.len() - from && all_of::<C>(&s[from..from + n]) {
        return Ok(Parsed {
            value: 0,
            end: from + n,
        });
    }
    span::<C>(s, from, n)
}

// n hex digits.
pub fn hexes(s: &[u8], from: usize, n: usize) -> Result<Parsed, Unparsed>
    ensures { Judges (run n Hex) from s.now (judgement_of result) }
{
    run_of::<HexDigit>(s, from, n)
}

// n characters, a chunk at a time: a size off the wire costs no more than a chunk behind the byte that fails.
pub fn chars(s: &[u8], from: usize, n: usize) -> Result<Parsed, Unparsed>
    ensures { Judges (run n Char) from s.now (judgement_of result) }
{
    let mut at = from;
    for _ in 0..n / CHUNK {
        at = run_of::<Character>(s, at, CHUNK)?.end;
    }
    run_of::<Character>(s, at, n % CHUNK)
}

// Whether a target's bytes behind its number stand, without a branch on data; false says nothing.
fn seen_behind(s: &[u8], p: usize) -> bool
    requires { p + 14 ≤ length s.now }
    ensures { result ≡ true → judge_at (lay behind_number 0) (p + 1) s.now ≡ Judgement.Whole 0 (p + 14) }
{
    all_of::<HexDigit>(&s[p + 1..p + 5])
        & all_of::<Character>(&s[p + 5..p + 6])
        & all_of::<HexDigit>(&s[p + 6..p + 10])
        & all_of::<Character>(&s[p + 10..p + 14])
}

// Whether a block stands, of the form that its first byte chooses; false says nothing.
fn seen_block(s: &[u8], p: usize) -> bool
    requires { p + 14 ≤ length s.now }
    ensures { result ≡ true → judge_at block p s.now ≡ Judgement.Whole 0 (p + 14) }
{
    if digits::is_hex(s[p]) {
        return seen_behind(s, p);
    }
    all_of::<ZeroByte>(&s[p..p + BLOCK_BYTES])
}

// The block at an offset: tested at once, and byte by byte where one fails.
pub fn block_at(s: &[u8], from: usize) -> Result<Parsed, Unparsed>
    ensures { Judges block from s.now (judgement_of result) }
{
    if from <= s.len() && BLOCK_BYTES <= s.len() - from && seen_block(s, from) {
        return Ok(Parsed {
            value: 0,
            end: from + BLOCK_BYTES,
        });
    }
    block_slowly(s, from)
}
