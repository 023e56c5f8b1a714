// What characters mean, in dB and as a phase (paper 01, "Numbers"; paper 02, (v)); the definitions are in `units`.
// A phase is worked out half a turn on, so that nothing is negative before the last step.
#![tactic(auto)]

ghost use Rattle.std.specs.Prelude.{◌≡◌, if◌then◌else◌, Ok, Err};
ghost use Rattle.refusals.specs.declared.Refusal.TheVariants.{NoEncoding};
ghost use Rattle.digits.specs.Bytes.{is_character};
ghost use Rattle.units.specs.Units.{quantity_of, decibels, centidegrees};

use refusals::Refusal;

// The characters that mean 0 dB and a phase of 0.
const ZERO_DECIBELS: i32 = 174;

const ZERO_PHASE: u32 = 144;

// 110 steps from character to character are half a turn: each is 1800 / 11 hundredths of a degree.
const HALF_TURN_STEPS: u32 = 110;

const HALF_TURN: i32 = 18000;

// In fixed point a hundredth of a degree is 2 ^ PHASE_BITS parts and half of one is HALF_PHASE; a step is PHASE_STEP parts and 3 / 11. The
// 220 steps of a whole turn miss 60 parts by it, and no phase is within 93 parts of a half.
const PHASE_STEP: u32 = 335127;

const HALF_PHASE: u32 = 1024;

const PHASE_BITS: u32 = 11;

// The byte, if it is a character.
fn checked(byte: u8) -> Result<u8, Refusal>
    ensures { result ≡ (if is_character byte then Ok byte else Err NoEncoding) }
{
    if digits::is_character(byte) {
        Ok(byte)
    } else {
        Err(Refusal::NoEncoding)
    }
}

// What a character means in dB: 90 (`Z`) is -84, and 33 is refused.
#[tactic(auto, unfolding(units::specs::Units::decibels))]
pub fn decibels_of(character: u8) -> Result<i32, Refusal>
    ensures { quantity_of result ≡ decibels character }
{
    let level = checked(character)? as i32;
    Ok(level - ZERO_DECIBELS)
}

// What a character means as a phase, in hundredths of a degree: 90 (`Z`) is -8836, and 33 is refused.
// No division, loop, recursion or table (paper 02, (v)): a multiplication and a shift, half a turn on.
#[tactic(auto, unfolding(units::specs::Units::centidegrees), using(crate::proofs::CharacterLaws::turned_back))]
pub fn centidegrees_of(character: u8) -> Result<i32, Refusal>
    ensures { quantity_of result ≡ centidegrees character }
{
    let steps = (checked(character)? as u32) + HALF_TURN_STEPS - ZERO_PHASE;
    let turned = (PHASE_STEP * steps + HALF_PHASE) >> PHASE_BITS;
    Ok((turned as i32) - HALF_TURN)
}
