// The first of a record's points that is close, by the bits of the coordinates (paper 02, (vi)).
#![tactic(auto)]

ghost use Rattle.std.specs.Prelude.{◌≡◌, ◌/◌, length};
ghost use Rattle.proximity.specs.Internal.{bits_within, point_within, first_within};

use coordinate_bounds::sign_last;
use packet::POINT_SIZE;

// Whether a coordinate's bits, with the sign last, are at most the limit.
fn is_within(bits: u32, limit: u32) -> bool
    ensures { result ≡ bits_within limit bits }
{
    sign_last(bits) <= limit
}

// Whether those of a point's X, Y and Z are.
fn is_close(point: &[u8], limit: u32) -> bool
    ensures { result ≡ point_within limit point.now 0 }
{
    if is_within(numbers::word_at(point, 0), limit) {
        if is_within(numbers::word_at(point, 4), limit) {
            return is_within(numbers::word_at(point, 8), limit);
        }
    }
    false
}

// The index of the first of these points, 16 bytes each, whose X, Y and Z have bits, with the sign last, of at most the limit
// (`coordinate_bounds::limit_of`). Each part is 16 bytes long, so that no number in it tests the length.
pub fn first_close(points: &[u8], limit: u32) -> Option<usize>
    ensures { result ≡ first_within limit points.now (length points.now / 16) 0 }
{
    let count = points.len() / POINT_SIZE;
    for i in 0..count {
        let from = POINT_SIZE * i;
        let to = from + POINT_SIZE;
        if is_close(&points[from..to], limit) {
            return Some(i);
        }
    }
    None
}
