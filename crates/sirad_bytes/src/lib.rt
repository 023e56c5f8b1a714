// Single bytes of a SiRad frame: of a class, or fixed (paper 01, "SiRad"; paper 02, (ii)).
#![tactic(auto)]

ghost use Rattle.std.specs.Prelude.{◌≡◌, eqb};
ghost use Rattle.form.specs.Numbers.{Judges, judgement_of};
ghost use Rattle.form.specs.Pieces.{one};
ghost use Rattle.sirad.specs.Classes.{Class, Hex, Char, Zero, accepts, reason};

use form::{Parsed, Unparsed};

// The reasons of single bytes (paper 01, "Judging a place"; paper 02, (ii)).
pub const NO_DIGIT: u32 = 12;

pub const NO_CHARACTER: u32 = 13;

pub const NO_STOP: u32 = 14;

pub const BROKEN_EMPTY: u32 = 17;

// A class of which a frame has runs of bytes; a fixed byte is tested apart.
pub trait ByteClass {
    ghost class: { Class };

    // Whether a byte is of the class.
    fn is_of(b: u8) -> bool
        ensures { result ≡ accepts class b };

    // The reason of a byte that is not.
    fn reason() -> u32
        ensures { result ≡ reason class };
}

// The upper-case hex digits.
#[derive(Clone, Copy)]
pub struct HexDigit;

impl ByteClass for HexDigit {
    ghost class = { Hex };

    fn is_of(b: u8) -> bool {
        digits::is_hex(b)
    }

    fn reason() -> u32 {
        NO_DIGIT
    }
}

// The bytes 34 to 254.
#[derive(Clone, Copy)]
pub struct Character;

impl ByteClass for Character {
    ghost class = { Char };

    fn is_of(b: u8) -> bool {
        digits::is_character(b)
    }

    fn reason() -> u32 {
        NO_CHARACTER
    }
}

// The value 0, of which an empty block has all its bytes.
#[derive(Clone, Copy)]
pub struct ZeroByte;

impl ByteClass for ZeroByte {
    ghost class = { Zero };

    fn is_of(b: u8) -> bool {
        b == 0
    }

    fn reason() -> u32 {
        BROKEN_EMPTY
    }
}

// The byte of a class at an offset, with the byte for its value.
pub fn byte_of<C: ByteClass>(s: &[u8], at: usize) -> Result<Parsed, Unparsed>
    ensures { Judges (one (reason C.class) (accepts C.class)) at s.now (judgement_of result) }
{
    let Some(&b) = s.get(at) else {
        return Err(Unparsed::Waiting); // the byte may still come
    };
    if !C::is_of(b) {
        return Err(Unparsed::Bad(C::reason()));
    }
    Ok(Parsed {
        value: b as u32,
        end: at + 1,
    })
}

// A byte that is fixed, and the reason of any other.
pub fn fixed_at(s: &[u8], at: usize, fixed: u8, reason: u32) -> Result<Parsed, Unparsed>
    ensures { Judges (one reason (λ b. eqb b fixed)) at s.now (judgement_of result) }
{
    let Some(&b) = s.get(at) else {
        return Err(Unparsed::Waiting);
    };
    if b != fixed {
        return Err(Unparsed::Bad(reason));
    }
    Ok(Parsed {
        value: b as u32,
        end: at + 1,
    })
}
