// The judgement of bytes by a grammar, and the pieces that every wire's judgement is made of.
#![tactic(auto)]

ghost use Rattle.std.specs.Prelude.{◌≡◌};
ghost use Rattle.form.specs.Numbers.{numbers_of, answer_numbers, judgement_of, Judges};
ghost use Rattle.form.specs.Pieces.{any, always, four, free, frees};

use refusals::Refusal;

// Paper 01, "Judging a place".
#[derive(Clone, Copy)]
pub enum Judgement {
    // a whole frame: kind, length
    Whole(u32, usize),
    // no frame can stand here: reason
    Bad(u32),
    // further bytes decide
    Waiting,
}

// What a piece of a grammar comes to: its value, and the offset behind it.
#[derive(Clone, Copy)]
pub struct Parsed {
    pub value: u32,
    pub end: usize,
}

// Why a piece does not stand: a reason, or its bytes are not all there and may still come.
#[derive(Clone, Copy)]
pub enum Unparsed {
    Bad(u32),
    Waiting,
}

impl From<Result<Parsed, Unparsed>> for Judgement {
    ghost from_gives = { λ r j. j ≡ judgement_of r };

    fn from(piece: Result<Parsed, Unparsed>) -> Judgement {
        match piece {
            Ok(frame) => Judgement::Whole(frame.value, frame.end),
            Err(Unparsed::Bad(reason)) => Judgement::Bad(reason),
            Err(Unparsed::Waiting) => Judgement::Waiting,
        }
    }
}

// The cases of a judgement as numbers; 0 is none of them, so that a refusal, whose other numbers are 0, is never taken for a whole frame.
pub const STATE_WHOLE: u32 = 1;

pub const STATE_BAD: u32 = 2;

pub const STATE_WAITING: u32 = 3;

// A judgement in numbers: the refusal (0: none), the state, kind and length of a whole frame, the reason of a bad one.
#[repr(C)]
#[derive(Clone, Copy)]
pub struct JudgementNumbers {
    pub refusal: u32,
    pub state: u32,
    pub kind: u32,
    pub reason: u32,
    pub length: usize,
}

// The numbers of a judgement: those of `Whole(6, 8)` are state 1, kind 6, length 8 and otherwise 0.
impl From<Judgement> for JudgementNumbers {
    ghost from_gives = { λ j n. n ≡ numbers_of j };

    fn from(j: Judgement) -> JudgementNumbers {
        match j {
            Judgement::Whole(kind, size) => JudgementNumbers {
                refusal: 0,
                state: STATE_WHOLE,
                kind: kind,
                reason: 0,
                length: size,
            },
            Judgement::Bad(reason) => JudgementNumbers {
                refusal: 0,
                state: STATE_BAD,
                kind: 0,
                reason: reason,
                length: 0,
            },
            Judgement::Waiting => JudgementNumbers {
                refusal: 0,
                state: STATE_WAITING,
                kind: 0,
                reason: 0,
                length: 0,
            },
        }
    }
}

impl From<Result<Judgement, Refusal>> for JudgementNumbers {
    ghost from_gives = { λ r n. n ≡ answer_numbers r };

    fn from(answer: Result<Judgement, Refusal>) -> JudgementNumbers {
        match answer {
            Ok(j) => JudgementNumbers::from(j),
            Err(refusal) => JudgementNumbers {
                refusal: refusal.number(),
                state: 0,
                kind: 0,
                reason: 0,
                length: 0,
            },
        }
    }
}

// The four-byte field at offset `at`: its number and the offset behind it, or waiting for its bytes.
pub fn number(s: &[u8], at: usize) -> Result<Parsed, Unparsed>
    ensures { Judges (four (always 0) any) at s.now (judgement_of result) }
{
    if s.len() < at {
        return Err(Unparsed::Waiting);
    }
    if s.len() - at < 4 {
        return Err(Unparsed::Waiting);
    }
    let v = numbers::join(s[at], s[at + 1], s[at + 2], s[at + 3]);
    let end = at + 4;
    Ok(Parsed { value: v, end: end })
}

// The `n` free bytes from offset `at` on, in one step.
pub fn skip(s: &[u8], at: usize, n: usize) -> Result<Parsed, Unparsed>
    ensures { Judges (free n) at s.now (judgement_of result) }
{
    if n == 0 {
        return Ok(Parsed { value: 0, end: at });
    }
    if s.len() < at {
        return Err(Unparsed::Waiting);
    }
    if s.len() - at < n {
        return Err(Unparsed::Waiting);
    }
    let end = at + n;
    Ok(Parsed { value: 0, end: end })
}

// The `n` free four-byte fields from offset `at` on, in one step.
pub fn skip_numbers(s: &[u8], at: usize, n: u8) -> Result<Parsed, Unparsed>
    ensures { Judges (frees n) at s.now (judgement_of result) }
{
    let bytes = 4 * (n as usize);
    skip(s, at, bytes)
}
