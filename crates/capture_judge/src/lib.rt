// The judgement at an offset, by a dialect's number (paper 01, "Judging a place"; paper 02, (i)). The dialects are handed on for callers.
#![tactic(auto)]

ghost use Rattle.std.specs.Prelude.{◌≡◌, ◌+◌, ltb, drop};
ghost use Rattle.capture.specs.Dialects.{form_of, judge_of};
ghost use Rattle.form.specs.Numbers.{Judges};
ghost use Rattle.capture.specs.Entries.{max_bytes, verdict, JudgesAt};

use capture::Dialect;
pub use capture_dialects::{dialect_of, number_of, start_byte};
use form::Judgement;
use refusals::Refusal;

// The most bytes that are read at once.
pub const MAX_BYTES: usize = 1048576;

// Whether a stream of so many bytes, `front` and `back` behind the first `offset`, is over the size limit; no sum can overflow.
// `too_long(1048576, 0, 0)` is false, `too_long(1048576, 0, 1)` true.
pub fn too_long(offset: usize, front: usize, back: usize) -> bool
    ensures { result ≡ ltb max_bytes (offset + front + back) }
{
    if MAX_BYTES < offset {
        return true;
    }
    let left = MAX_BYTES - offset;
    if left < front {
        return true;
    }
    left - front < back
}

#[tactic(auto, unfolding(capture::specs::Dialects::form_of))]
fn judge_part(bytes: &[u8], d: Dialect) -> Judgement
    ensures { result ≡ judge_of d bytes.now }
{
    match d {
        Dialect::Sirad => sirad_judge::judge(bytes),
        Dialect::Packets(p) => mmwave_judge::judge(bytes, p),
    }
}

// The judgement of the bytes from an offset on; beyond the end there are none, and it waits.
pub fn judge_from(bytes: &[u8], at: usize, d: Dialect) -> Judgement
    ensures { Judges (form_of d) 0 (drop at bytes.now) result }
{
    if bytes.len() < at {
        return Judgement::Waiting;
    }
    judge_part(&bytes[at..], d)
}

#[tactic(auto, unfolding(capture::specs::Entries::verdict))]
fn judge_known(bytes: &[u8], at: usize, d: Dialect) -> Result<Judgement, Refusal>
    ensures { result ≡ verdict (Some d) bytes.now at }
{
    if MAX_BYTES < bytes.len() {
        return Err(Refusal::TooManyBytes);
    }
    if bytes.len() < at {
        return Err(Refusal::BeyondEnd);
    }
    Ok(judge_from(bytes, at, d))
}

// The judgement of the bytes from `offset` on: `judge_at(0, b"!E0000\r\n", 0)` is Ok(Whole(6, 8)), at 1 it is Ok(Bad(10)), at 8
// Ok(Waiting), at 9 Err(BeyondEnd).
pub fn judge_at(dialect: u32, bytes: &[u8], offset: usize) -> Result<Judgement, Refusal>
    ensures { JudgesAt dialect bytes.now offset result }
{
    let d = Dialect::try_from(dialect)?;
    judge_known(bytes, offset, d)
}
