// The tests of a packet's total length and record count (paper 01, "mmWave", document 004; paper 02, (i), document 002). Where the
// dialects differ, a function matches on them; what they share is said once.
#![tactic(auto)]

ghost use Rattle.std.specs.Prelude.{◌≡◌};
ghost use Rattle.mmwave.specs.Profile.{count_ok};
ghost use Rattle.mmwave.specs.MmWave.{total_legal};
ghost use Rattle.mmwave.specs.VitalSigns.{vital_total};
ghost use Rattle.mmwave.specs.Dialects.{profile_of};

use mmwave::{Header, PacketDialect};
use mmwave_dialects::padding_of;

const MOST_TOTAL: u32 = 32768;

pub const MOST_RECORDS: u32 = 32;

// A multiple of 32 from 64 on.
fn mmwave_total(l: u32) -> bool
    ensures { result ≡ total_legal l }
{
    if l % 32 != 0 {
        return false;
    }
    if l < 64 {
        return false;
    }
    l <= MOST_TOTAL
}

// A multiple of 4 from 40 on, and not 44.
fn vital_total(l: u32) -> bool
    ensures { result ≡ vital_total l }
{
    if l % 4 != 0 {
        return false;
    }
    if l == 44 {
        return false;
    }
    if l < 40 {
        return false;
    }
    l <= MOST_TOTAL
}

// Is the total length legal? What both dialects ask comes first: one byte settles most false magics.
pub fn total_ok(l: u32, d: PacketDialect) -> bool
    ensures { result ≡ (profile_of d).total l }
{
    if l % 4 != 0 {
        return false;
    }
    match d {
        PacketDialect::MmWave => mmwave_total(l),
        PacketDialect::VitalSigns => vital_total(l),
    }
}

// Can a packet of this total length have so many records? The bound on the count comes before its product.
pub fn count_ok(l: u32, k: u32, d: PacketDialect) -> bool
    ensures { result ≡ count_ok (profile_of d) l k }
{
    if MOST_RECORDS < k {
        return false;
    }
    if (l as usize) < Header::SIZE + 8 * (k as usize) {
        return false;
    }
    if 0 < k {
        return true;
    }
    l - 40 <= padding_of(d)
}
