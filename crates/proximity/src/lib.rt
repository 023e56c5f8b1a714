// Is anyone close: whether a point of a capture of mmWave packets lies within a distance (paper 02, (vi)). The definitions and their
// theorems stand here; `proximity_points` and `proximity_search` look.
#![tactic(auto)]

ghost use Rattle.std.specs.Prelude.{◌≡◌};
ghost use Rattle.proximity.specs.Proximity.{closeness_of};

use refusals::Refusal;

// The offset (the paper's "place") of the first packet that has a close point, and the index of its first close one.
#[derive(Clone, Copy)]
pub struct ClosePoint {
    pub offset: usize,
    pub index: usize,
}

// The answer to a host in C: `refusal` is 0, or its number with all else 0; `close` is 1 with the offset and the index of the close point,
// or 0 with zeros.
#[repr(C)]
#[derive(Clone, Copy)]
pub struct Closeness {
    pub refusal: u32,
    pub close: u32,
    pub offset: usize,
    pub index: usize,
}

impl From<Result<Option<ClosePoint>, Refusal>> for Closeness {
    ghost from_gives = { λ r c. c ≡ closeness_of r };

    fn from(answer: Result<Option<ClosePoint>, Refusal>) -> Closeness {
        match answer {
            Ok(Some(point)) => Closeness {
                refusal: 0,
                close: 1,
                offset: point.offset,
                index: point.index,
            },
            Ok(None) => Closeness {
                refusal: 0,
                close: 0,
                offset: 0,
                index: 0,
            },
            Err(refusal) => Closeness {
                refusal: refusal.number(),
                close: 0,
                offset: 0,
                index: 0,
            },
        }
    }
}
