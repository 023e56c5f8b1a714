// The C face: what a host in C calls (paper 01, "written in C, calls the judgement and the millimetre rule"; paper 02, (v): the phase).
// A slice is a pointer that is not null and a count; the numbers of each answer are those of paper 01.
#![tactic(auto)]

ghost use Rattle.std.specs.Prelude.{◌≡◌};
ghost use Rattle.capture.specs.Dialects.{dialect_of};
ghost use Rattle.capture.specs.Entries.{verdict, verdict_numbers};
ghost use Rattle.units.specs.Units.{centidegrees, millimetres};

use form::JudgementNumbers;
use units::Quantity;

// The judgement of the bytes from `offset` on: `!E0000`, CR, LF in dialect 0 at offset 0 is whole (state 1), of kind 6 and 8 bytes.
// With a refusal every other number is 0, and no state is.
#[unsafe(no_mangle)]
pub extern "C" fn vq_judge(dialect: u32, bytes: &[u8], offset: usize) -> JudgementNumbers
    ensures { result ≡ verdict_numbers (verdict (dialect_of dialect) bytes.now offset) }
{
    JudgementNumbers::from(capture_judge::judge_at(dialect, bytes, offset))
}

// The 32 bits of a coordinate in metres as whole millimetres by an edition, or the refusal number: 0x3D800000 is 63 in edition 1, 62 in
// edition 2, and refused with 32 in any other.
#[unsafe(no_mangle)]
pub extern "C" fn vq_millimetres(edition: u32, bits: u32) -> Quantity
    ensures { result ≡ millimetres edition bits }
{
    units::coordinate_quantity(edition, bits)
}

// What a character means as a phase, in hundredths of a degree, or the refusal number: 90 (`Z`) is -8836, and 33 is refused with 50.
#[unsafe(no_mangle)]
pub extern "C" fn vq_centidegrees(character: u8) -> Quantity
    ensures { result ≡ centidegrees character }
{
    Quantity::from(character_units::centidegrees_of(character))
}
