// Runs of bytes and the blocks of a target list, byte by byte: where one fails, it is found (paper 01, "SiRad"; paper 02, (ii)).
#![tactic(auto)]

ghost use Rattle.form.specs.Numbers.{Judges, judgement_of};
ghost use Rattle.sirad.specs.Sirad.{run, target, block};

use form::{Parsed, Unparsed};
use sirad_bytes::{ByteClass, Character, HexDigit, ZeroByte, byte_of};

// A block of a target list, of either form.
pub const BLOCK_BYTES: usize = 14;

// n bytes of a class, one by one: finds the first that fails.
pub fn span<C: ByteClass>(s: &[u8], from: usize, n: usize) -> Result<Parsed, Unparsed>
    ensures { Judges (run n C.class) from s.now (judgement_of result) }
{
    let mut at = from;
    for _ in 0..n {
        at = byte_of::<C>(s, at)?.end;
    }
    Ok(Parsed { value: 0, end: at })
}

// A target byte by byte: finds the first that fails.
fn target_slowly(s: &[u8], at: usize) -> Result<Parsed, Unparsed>
    ensures { Judges target at s.now (judgement_of result) }
{
    let number_and_distance = span::<HexDigit>(s, at, 5)?;
    let magnitude = span::<Character>(s, number_and_distance.end, 1)?;
    let phase = span::<HexDigit>(s, magnitude.end, 4)?;
    span::<Character>(s, phase.end, 4)
}

// A block byte by byte: a first byte of value 0 commits the other thirteen, any other starts a target.
pub fn block_slowly(s: &[u8], at: usize) -> Result<Parsed, Unparsed>
    ensures { Judges block at s.now (judgement_of result) }
{
    match s.get(at) {
        None => Err(Unparsed::Waiting),
        Some(0) => span::<ZeroByte>(s, at, BLOCK_BYTES),
        Some(_) => target_slowly(s, at),
    }
}
