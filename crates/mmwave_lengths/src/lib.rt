// The tests of a record's type and payload length by the rule of the type; how a length fits is said once (paper 01, "mmWave"; paper 02,
// (i)).
#![tactic(auto)]

ghost use Rattle.std.specs.Prelude.{◌≡◌, ◌%◌};
ghost use Rattle.mmwave.specs.Profile.{unit_of, legal, fits, possible, length_ok};
ghost use Rattle.mmwave.specs.Dialects.{profile_of};
ghost use Rattle.mmwave.specs.Internal.{low_bits};

use mmwave::{PacketDialect, Rule, Unit};
use mmwave_dialects::padding_of;

// The bits below a unit.
fn low_bits(unit: Unit) -> u32
    ensures { result ≡ low_bits unit }
{
    match unit {
        Unit::Two => 1,
        Unit::Four => 3,
        Unit::Sixteen => 15,
    }
}

// What is left of a number behind the largest multiple of the unit, with no branch on the unit.
fn beyond(unit: Unit, m: u32) -> u32
    ensures { result ≡ m % unit_of unit }
{
    m & low_bits(unit)
}

// Does a payload of `m` bytes fit, with `k` records left (this one counted) and `room` bytes for their payloads and the padding? An exact
// length may need more than 32 bits.
fn payload_fits(k: u32, room: u32, m: u64, d: PacketDialect) -> bool
    ensures { result ≡ fits (profile_of d) k room m }
{
    if 1 < k {
        return m <= room as u64;
    }
    if (room as u64) < m {
        return false;
    }
    room as u64 - m <= padding_of(d) as u64
}

// Does some multiple of the unit fit?
fn some_multiple_fits(k: u32, room: u32, unit: Unit, d: PacketDialect) -> bool
    ensures { result ≡ possible (profile_of d) k room (Rule.Multiple unit) }
{
    if 1 < k {
        return true;
    }
    beyond(unit, room) <= padding_of(d)
}

// Does some length of the rule fit?
pub fn type_ok(rule: Rule, k: u32, room: u32, d: PacketDialect) -> bool
    ensures { result ≡ possible (profile_of d) k room rule }
{
    match rule {
        Rule::Never => false,
        Rule::Exact(n) => payload_fits(k, room, n, d),
        Rule::Multiple(unit) => some_multiple_fits(k, room, unit, d),
        Rule::Free => true,
    }
}

// Is this length one of the rule's?
fn length_legal(rule: Rule, m: u32) -> bool
    ensures { result ≡ legal rule m }
{
    match rule {
        Rule::Never => false,
        Rule::Exact(n) => m as u64 == n,
        Rule::Multiple(unit) => beyond(unit, m) == 0,
        Rule::Free => true,
    }
}

// Is the payload length legal for the rule, and does it fit?
pub fn length_ok(rule: Rule, k: u32, room: u32, m: u32, d: PacketDialect) -> bool
    ensures { result ≡ length_ok (profile_of d) rule k room m }
{
    if length_legal(rule, m) {
        return payload_fits(k, room, m as u64, d);
    }
    false
}
