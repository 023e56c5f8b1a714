// The dialects by their numbers, and the byte that starts their frames (paper 01, "Judging a place"; paper 02, (i)).
#![tactic(auto)]

ghost use Rattle.std.specs.Prelude.{◌≡◌};
ghost use Rattle.capture.specs.Dialects.{dialect_of, dialect_number, start_of};

use capture::Dialect;

// The dialect that a number asks for, where it asks for one.
pub fn dialect_of(number: u32) -> Option<Dialect>
    ensures { result ≡ dialect_of number }
{
    Dialect::try_from(number).ok()
}

// The number of a dialect.
pub fn number_of(d: Dialect) -> u32
    ensures { result ≡ dialect_number d }
{
    u32::from(d)
}

// The byte with which every frame of a dialect starts.
#[tactic(auto, unfolding(capture::specs::Dialects::start_of))]
pub fn start_byte(d: Dialect) -> u8
    ensures { result ≡ start_of d }
{
    match d {
        Dialect::Sirad => 33,
        Dialect::Packets(_) => 2,
    }
}
