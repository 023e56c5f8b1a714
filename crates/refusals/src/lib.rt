// The refusals: one for each number of the papers' list (paper 01, "Refusal numbers"; paper 02, (ii) to (vi)).
#![tactic(auto)]

ghost use Rattle.std.specs.Prelude.{◌≡◌};
ghost use Rattle.refusals.specs.Numbers.{number, refusal_number};

use std::fmt;

// Why an entry did not do what it was asked. Number 4 is printed by the listing programs alone, and no entry answers it.
#[derive(Clone, Copy, Debug, PartialEq, Eq)]
pub enum Refusal {
    UnknownDialect,
    BeyondEnd,
    TooManyBytes,
    NotOneFrame,
    NoSuchIndex,
    NoPoints,
    NotFinite,
    TooFar,
    UnknownEdition,
    TooDistant,
    CommandTooShort,
    RestBitSet,
    LengthZero,
    WrongSize,
    UnknownCode,
    WrongCount,
    WrongSelection,
    NoEncoding,
    OutputTooShort,
    TooManyCharacters,
    UnknownKind,
    WrittenAsEmpty,
    CarryTooShort,
    TableTooShort,
    BadStream,
}

impl Refusal {
    // The paper's number.
    pub fn number(self) -> u32
        ensures { result ≡ number self }
    {
        match self {
            Refusal::UnknownDialect => 1,
            Refusal::BeyondEnd => 2,
            Refusal::TooManyBytes => 3,
            Refusal::NotOneFrame => 5,
            Refusal::NoSuchIndex => 6,
            Refusal::NoPoints => 7,
            Refusal::NotFinite => 30,
            Refusal::TooFar => 31,
            Refusal::UnknownEdition => 32,
            Refusal::TooDistant => 33,
            Refusal::CommandTooShort => 40,
            Refusal::RestBitSet => 41,
            Refusal::LengthZero => 42,
            Refusal::WrongSize => 43,
            Refusal::UnknownCode => 44,
            Refusal::WrongCount => 45,
            Refusal::WrongSelection => 46,
            Refusal::NoEncoding => 50,
            Refusal::OutputTooShort => 51,
            Refusal::TooManyCharacters => 52,
            Refusal::UnknownKind => 53,
            Refusal::WrittenAsEmpty => 54,
            Refusal::CarryTooShort => 60,
            Refusal::TableTooShort => 61,
            Refusal::BadStream => 62,
        }
    }
}

impl fmt::Display for Refusal {
    fn fmt<W: fmt::Write>(&self, f: &mut fmt::Formatter<W>) -> fmt::Result {
        let number = self.number();
        write!(f, "refused {number}")
    }
}
