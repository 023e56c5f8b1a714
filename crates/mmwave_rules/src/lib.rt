// What a record's type says, by the dialect: the payload lengths, and which types exclude one another (paper 01, "mmWave", document 004;
// paper 02, (i), document 002, and (vii)).
#![tactic(auto)]

ghost use Rattle.std.specs.Prelude.{◌≡◌};
ghost use Rattle.mmwave.specs.MmWave.{per_object, payload_rule, once_mark};
ghost use Rattle.mmwave.specs.VitalSigns.{vital_rule};
ghost use Rattle.mmwave.specs.Dialects.{profile_of};

use mmwave::{PacketDialect, Rule, Unit};

// So many bytes for each object; without objects there is no such record. The product needs 64 bits.
fn per_object(size: u8, objects: u32) -> Rule
    ensures { result ≡ per_object size objects }
{
    if objects == 0 {
        return Rule::Never;
    }
    let bytes = (size as u64) * (objects as u64);
    Rule::Exact(bytes)
}

fn mmwave_rule(tag: u32, objects: u32) -> Rule
    ensures { result ≡ payload_rule tag objects }
{
    match tag {
        1 => per_object(16, objects),
        2 => Rule::Multiple(Unit::Two),
        3 => Rule::Multiple(Unit::Two),
        4 => Rule::Multiple(Unit::Four),
        5 => Rule::Multiple(Unit::Two),
        6 => Rule::Exact(24),
        7 => per_object(4, objects),
        8 => Rule::Multiple(Unit::Four),
        9 => Rule::Exact(28),
        _ => Rule::Free,
    }
}

fn vital_rule(tag: u32) -> Rule
    ensures { result ≡ vital_rule tag }
{
    match tag {
        1 => Rule::Exact(24),
        2 => Rule::Multiple(Unit::Four),
        3 => Rule::Multiple(Unit::Sixteen),
        4 => Rule::Exact(20),
        _ => Rule::Never,
    }
}

// The payload lengths of a record's type.
pub fn rule_of(tag: u32, objects: u32, d: PacketDialect) -> Rule
    ensures { result ≡ (profile_of d).rule tag objects }
{
    match d {
        PacketDialect::MmWave => mmwave_rule(tag, objects),
        PacketDialect::VitalSigns => vital_rule(tag),
    }
}

// A bit for each known type, one for 4 and 8: types with one bit exclude one another. Others have none.
fn mmwave_mark(tag: u32) -> u32
    ensures { result ≡ once_mark tag }
{
    match tag {
        1 => 2,
        2 => 4,
        3 => 8,
        4 => 16,
        5 => 32,
        6 => 64,
        7 => 128,
        8 => 16,
        9 => 512,
        _ => 0,
    }
}

// The bit of a type among those seen; 0 for one that may repeat.
pub fn mark_of(tag: u32, d: PacketDialect) -> u32
    ensures { result ≡ (profile_of d).mark tag }
{
    match d {
        PacketDialect::MmWave => mmwave_mark(tag),
        PacketDialect::VitalSigns => 0,
    }
}
