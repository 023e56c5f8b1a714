// The number rules (paper 01, "Numbers"; paper 02, (iv), (v)): all definitions and theorems, and what accuracies and coordinates mean;
// `character_units` has what characters mean. Sign and magnitude stay apart up to `signed`; so all numbers before the last step are whole
// and not negative, and no rounding but ours takes place.
#![tactic(auto)]

ghost use Rattle.std.specs.Prelude.{◌≡◌, ◌*◌, ◌^◌, ◌<◌, ◌≤◌, Ok};
ghost use Rattle.refusals.specs.Numbers.{refusal_number};
ghost use Rattle.units.specs.Rounding.{signed, half_up, nearest};
ghost use Rattle.units.specs.Float.{magnitude};
ghost use Rattle.units.specs.Units.{quantity_of, ties_named, accuracy_millimetres, coordinate, millimetres};
ghost use Rattle.units.specs.Internal.{Inside, parts, outside};

use refusals::Refusal;

// An accuracy is sent in tenths of a millimetre.
const ACCURACY_PARTS: u32 = 10;

// A float's fraction is below this; a normal significand is this much more.
const LEADING_ONE: u32 = 8388608;

// The bit of a float's sign; the bits below it are the magnitude's.
pub const SIGN: u32 = 0x80000000;

// Without the sign the bits rise with the magnitude: those of 2 ^ -12 m (below it the nearest millimetre is 0), of 1000 m, of infinity.
const LEAST_BITS: u32 = 0x39800000;

pub const LIMIT_BITS: u32 = 0x447A0000;

const INFINITE_BITS: u32 = 0x7F800000;

// A millimetre is 2 ^ 32 parts and half of one is HALF: from LEAST_BITS on a significand's one is SIGNIFICAND_PARTS of them, twice as many
// with each step of the exponent.
const SIGNIFICAND_PARTS: u64 = 125;

const HALF: u64 = 0x80000000;

// Which of the two nearest numbers is taken at an exact half: the one away from zero, or the even one (paper 02, (iv)).
#[derive(Clone, Copy, Debug, PartialEq, Eq)]
pub enum Ties {
    ToAway,
    ToEven,
}

impl TryFrom<u32> for Ties {
    type Error = Refusal;

    ghost try_from_gives = { λ edition ties. ties ≡ ties_named edition };

    // The rule of an edition: edition 1 takes halves away from zero, edition 2 to the even neighbour.
    #[tactic(auto, unfolding(crate::specs::Units::ties_named, crate::specs::Units::ties_of))]
    fn try_from(edition: u32) -> Result<Ties, Refusal> {
        match edition {
            1 => Ok(Ties::ToAway),
            2 => Ok(Ties::ToEven),
            _ => Err(Refusal::UnknownEdition),
        }
    }
}

// A value, or the refusal number with the value 0: what a host in C is answered.
#[repr(C)]
#[derive(Clone, Copy)]
pub struct Quantity {
    pub refusal: u32,
    pub value: i32,
}

impl From<Result<i32, Refusal>> for Quantity {
    ghost from_gives = { λ answer q. q ≡ quantity_of answer };

    fn from(answer: Result<i32, Refusal>) -> Quantity {
        match answer {
            Ok(value) => Quantity { refusal: 0, value },
            Err(refusal) => Quantity {
                refusal: refusal.number(),
                value: 0,
            },
        }
    }
}

// The number of this sign and magnitude.
fn signed(negative: bool, magnitude: u32) -> i32
    requires { magnitude ≤ 1000000 }
    ensures { result ≡ signed negative magnitude }
{
    let whole = magnitude as i32;
    if negative { -whole } else { whole }
}

// Whether a half above the whole number q goes up: 1 or 0.
fn half_up(ties: Ties, q: u32) -> u32
    ensures { result ≡ half_up ties q }
{
    match ties {
        Ties::ToAway => 1,
        Ties::ToEven => q % 2,
    }
}

// The whole number nearest to n / d.
#[tactic(auto, unfolding(crate::specs::Rounding::nearest))]
fn rounded(ties: Ties, n: u32, d: u32) -> u32
    requires { (n < 2 ^ 30) × (0 < d) × (d < 2 ^ 30) }
    ensures { result ≡ nearest ties n d }
{
    (2 * n + (d - 1) + half_up(ties, n / d)) / (2 * d)
}

// Tenths of a millimetre to whole millimetres: 512 is 51, and 5 is 1 in edition 1 and 0 in edition 2; any other edition is refused.
#[tactic(auto, unfolding(crate::specs::Units::ties_named, crate::specs::Units::accuracy_millimetres))]
pub fn accuracy_to_millimetres(edition: u32, tenths: u16) -> Result<u16, Refusal>
    ensures { result ≡ accuracy_millimetres edition tenths }
{
    let ties = Ties::try_from(edition)?;
    let whole = rounded(ties, tenths as u32, ACCURACY_PARTS);
    Ok(whole as u16)
}

// What a magnitude outside LEAST_BITS to LIMIT_BITS gives, by what its bits are over LEAST_BITS: one below is 0.
fn outside(over: u32) -> Result<i32, Refusal>
    ensures { result ≡ outside over }
{
    if SIGN - LEAST_BITS <= over {
        return Ok(0);
    }
    if INFINITE_BITS - LEAST_BITS <= over {
        return Err(Refusal::NotFinite);
    }
    Err(Refusal::TooFar)
}

// The number of that refusal, or 0 where there is none: a choice of three numbers, which needs no branch.
fn outside_number(over: u32) -> u32
    ensures { result ≡ refusal_number (outside over) }
{
    if SIGN - LEAST_BITS <= over {
        return 0;
    }
    if INFINITE_BITS - LEAST_BITS <= over {
        return Refusal::NotFinite.number();
    }
    Refusal::TooFar.number()
}

// The parts of a coordinate from LEAST_BITS to LIMIT_BITS; `over` is what its magnitude's bits are over LEAST_BITS.
fn parts_of(bits: u32, over: u32) -> u64
    requires { Inside bits over }
    ensures exact { result ≡ parts bits over }
    ensures few { result < 2 ^ 53 }
{
    let significand = LEADING_ONE + bits % LEADING_ONE;
    (SIGNIFICAND_PARTS * (significand as u64)) << (over / LEADING_ONE)
}

// The magnitude of such a coordinate's millimetres. Only what has no rest below HALF can be an exact half.
fn inside(ties: Ties, bits: u32, over: u32) -> u32
    requires { Inside bits over }
    ensures { result ≡ nearest ties (1000 * magnitude bits) (2 ^ 150) }
{
    let parts = parts_of(bits, over);
    if ties == Ties::ToEven && parts % HALF == 0 {
        return rounded(ties, (parts / HALF) as u32, 2);
    }
    ((parts + HALF) / (2 * HALF)) as u32
}

// A coordinate to whole millimetres, halves by a rule.
fn millimetres_by(ties: Ties, bits: u32) -> Result<i32, Refusal>
    ensures { quantity_of result ≡ coordinate ties bits }
{
    // Below LEAST_BITS the difference wraps round to over 2 ^ 30: one test for both ends.
    let over = bits.wrapping_sub(LEAST_BITS) % SIGN;
    if over <= LIMIT_BITS - LEAST_BITS {
        let negative = bits >> 31 == 1;
        let whole = inside(ties, bits, over);
        return Ok(signed(negative, whole));
    }
    outside(over)
}

// A coordinate, the bits of a float in metres, to whole millimetres, halves by the edition: 3D800000 (0.0625 m) is 63 in edition 1 and 62
// in edition 2, BD800000 is -63 and -62; any other edition is refused, then 7F800000 (infinite), and 447A0001 (over 1000 m).
// Each call of `millimetres_by` names its rule, so that the compiler makes a path of its own for each.
#[tactic(auto, unfolding(crate::specs::Units::ties_named, crate::specs::Units::millimetres))]
pub fn coordinate_to_millimetres(edition: u32, bits: u32) -> Result<i32, Refusal>
    ensures { quantity_of result ≡ millimetres edition bits }
{
    match Ties::try_from(edition)? {
        Ties::ToAway => millimetres_by(Ties::ToAway, bits),
        Ties::ToEven => millimetres_by(Ties::ToEven, bits),
    }
}

// -- In numbers

// A coordinate in millimetres, halves by a rule.
fn quantity_by(ties: Ties, bits: u32) -> Quantity
    ensures { result ≡ coordinate ties bits }
{
    let over = bits.wrapping_sub(LEAST_BITS) % SIGN;
    if LIMIT_BITS - LEAST_BITS < over {
        return Quantity {
            refusal: outside_number(over),
            value: 0,
        };
    }
    let whole = inside(ties, bits, over);
    Quantity {
        refusal: 0,
        value: signed(SIGN <= bits, whole),
    }
}

// What `coordinate_to_millimetres` answers, in numbers, as a host in C gets it: 3D800000 is 63 in edition 1, 447A0001 is refused with 31.
// By a `Result` the processor guesses at each float outside whether it is refused, and on any floats guesses wrong every other time. Here
// too each call of `quantity_by` names its rule.
#[tactic(auto, unfolding(crate::specs::Units::ties_named, crate::specs::Units::millimetres))]
pub fn coordinate_quantity(edition: u32, bits: u32) -> Quantity
    ensures { result ≡ millimetres edition bits }
{
    match Ties::try_from(edition) {
        Ok(Ties::ToAway) => quantity_by(Ties::ToAway, bits),
        Ok(Ties::ToEven) => quantity_by(Ties::ToEven, bits),
        Err(refusal) => Quantity {
            refusal: refusal.number(),
            value: 0,
        },
    }
}
