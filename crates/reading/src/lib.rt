// The open and the closed reading of bytes, for any judgement: what they answer. Definitions and theorems are in specs/ and proofs/, the
// code is in `capture`.
#![tactic(auto)]

ghost use Rattle.std.specs.Prelude.{◌≡◌};
ghost use Rattle.reading.specs.Answers.{state_of, answer_of};

use refusals::Refusal;

// A frame of the answer: its offset (paper 01's "place"), length and kind.
#[derive(Clone, Copy)]
pub struct Row {
    pub offset: u32,
    pub size: u32,
    pub kind: u32,
}

// How many numbers a row takes in the table.
pub const ROW_WIDTH: usize = 3;

// Why a reading stopped (paper 01, "Two readings").
#[derive(Clone, Copy, Debug, PartialEq, Eq)]
pub enum Stop {
    // the open reading, where it waits
    Waiting,
    // either reading, at a whole frame with no row left
    Full,
    // the closed reading, at the end
    End,
}

// The state's number for a host in C.
impl From<Stop> for u32 {
    ghost from_gives = { λ s n. n ≡ state_of s };

    fn from(stop: Stop) -> u32 {
        match stop {
            Stop::Waiting => 0,
            Stop::Full => 1,
            Stop::End => 2,
        }
    }
}

// What a reading that was not refused comes to: how many rows it wrote, the skipped bytes, the offset where it stopped, and why.
#[derive(Clone, Copy)]
pub struct Summary {
    pub rows: usize,
    pub skipped: usize,
    pub next: usize,
    pub stop: Stop,
}

// What a reading answers to a host in C: the refusal number (0: none), the state, how many rows it wrote, the skipped bytes, and the
// offset where it stopped.
#[repr(C)]
#[derive(Clone, Copy)]
pub struct Answer {
    pub refusal: u32,
    pub state: u32,
    pub rows: usize,
    pub skipped: usize,
    pub next: usize,
}

impl From<Result<Summary, Refusal>> for Answer {
    ghost from_gives = { λ r a. a ≡ answer_of r };

    fn from(read: Result<Summary, Refusal>) -> Answer {
        match read {
            Ok(summary) => Answer {
                refusal: 0,
                state: u32::from(summary.stop),
                rows: summary.rows,
                skipped: summary.skipped,
                next: summary.next,
            },
            Err(refusal) => Answer {
                refusal: refusal.number(),
                state: 0,
                rows: 0,
                skipped: 0,
                next: 0,
            },
        }
    }
}
