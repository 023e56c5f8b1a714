// What a dialect of packets fixes: its kind, the object count, the subframe, the padding (paper 01, "mmWave"; paper 02, (i)).
#![tactic(auto)]

ghost use Rattle.std.specs.Prelude.{◌≡◌};
ghost use Rattle.mmwave.specs.Dialects.{profile_of};

use mmwave::PacketDialect;

// The kinds of packets' rows.
pub const KIND: u32 = 16;

pub const VITAL_KIND: u32 = 17;

// The kind of a dialect's packets.
pub fn kind_of(d: PacketDialect) -> u32
    ensures { result ≡ (profile_of d).kind }
{
    match d {
        PacketDialect::MmWave => KIND,
        PacketDialect::VitalSigns => VITAL_KIND,
    }
}

// Is the field at 28, the object count, legal?
pub fn objects_ok(n: u32, d: PacketDialect) -> bool
    ensures { result ≡ (profile_of d).objects n }
{
    match d {
        PacketDialect::MmWave => true,
        PacketDialect::VitalSigns => n == 99,
    }
}

// Is the subframe legal?
pub fn subframe_ok(v: u32, d: PacketDialect) -> bool
    ensures { result ≡ (profile_of d).subframe v }
{
    match d {
        PacketDialect::MmWave => true,
        PacketDialect::VitalSigns => v == 0,
    }
}

// The most bytes of padding.
pub fn padding_of(d: PacketDialect) -> u32
    ensures { result ≡ (profile_of d).padding }
{
    match d {
        PacketDialect::MmWave => 31,
        PacketDialect::VitalSigns => 0,
    }
}
