// The door controller's C face, a library apart from the others: with one caller in it the judgement is compiled into the search's loop.
// A slice is a pointer that is not null and a count; a struct crosses by value.
#![tactic(auto)]

ghost use Rattle.std.specs.Prelude.{◌≡◌};
ghost use Rattle.proximity.specs.Proximity.{closeness};

use proximity::Closeness;

// Whether a point of the mmWave packets of a capture is within a distance in millimetres, by an edition, and the first such; 1, 3, 32, 33.
#[unsafe(no_mangle)]
pub extern "C" fn vq_anyone_close(
    dialect: u32,
    edition: u32,
    distance: u32,
    bytes: &[u8],
) -> Closeness
    ensures { result ≡ closeness dialect edition distance bytes.now }
{
    Closeness::from(proximity_search::anyone_close(dialect, edition, distance, bytes))
}
