// The bound of a distance: which floats in metres are within it, by their bits alone (paper 02, (vi)).
#![tactic(auto)]

ghost use Rattle.std.specs.Prelude.{◌≡◌};
ghost use Rattle.units.specs.Units.{millimetres};
ghost use Rattle.coordinate_bounds.specs.Bounds.{is_within, sign_last, Bounds, Greatest};

use refusals::Refusal;
use units::{LIMIT_BITS, SIGN, Ties};

// The greatest distance that is asked for, in millimetres (paper 02, (vi)).
const MAX_DISTANCE: u32 = 1000000;

// Whether the float with these bits is within the distance.
fn is_within(edition: u32, distance: u32, bits: u32) -> bool
    ensures { result ≡ is_within distance (millimetres edition bits) }
{
    match units::coordinate_to_millimetres(edition, bits) {
        Ok(z) => z.unsigned_abs() <= distance,
        Err(_) => false,
    }
}

// The greatest bits of a float within the distance, by an edition that there is: each turn halves the bits between one that is within and
// one that is not. Over LIMIT_BITS a float is refused.
fn greatest(edition: u32, distance: u32) -> u32
    ensures { Greatest edition distance result }
{
    let mut low: u32 = 0;
    let mut high: u32 = LIMIT_BITS + 1;
    while low + 1 < high {
        let middle = (low + high) / 2;
        if is_within(edition, distance, middle) {
            low = middle;
        } else {
            high = middle;
        }
    }
    low
}

// A float's bits turned left by one, so that the sign is last: they rise with the magnitude, whatever the sign. The processor turns them in
// one step, and they are read in one; with the sign masked out it would join them byte by byte.
pub fn sign_last(bits: u32) -> u32
    ensures { result ≡ sign_last bits }
{
    2 * (bits % SIGN) + bits / SIGN
}

// The limit of a distance in millimetres, by an edition; an unknown edition is refused, then a distance over the greatest. The millimetres
// rise with the bits: a coordinate is within the distance exactly if its bits, with the sign last, are at most the limit. Every edition
// takes the float 0.
// The limit of 62 mm is 7AFFFFFF in edition 1 and, with 0.0625 m (3D800000) in it, 7B000001 in edition 2.
pub fn limit_of(edition: u32, distance: u32) -> Result<u32, Refusal>
    ensures { Bounds edition distance result }
{
    Ties::try_from(edition)?;
    if MAX_DISTANCE < distance {
        return Err(Refusal::TooDistant);
    }
    let bits = greatest(edition, distance);
    Ok(2 * bits + 1)
}
