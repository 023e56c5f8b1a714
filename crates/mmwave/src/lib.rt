// Packets (paper 01, "mmWave", document 004; paper 02, (i), document 002): their types, definitions and laws.
#![tactic(auto)]

// The packet dialects.
#[derive(Clone, Copy)]
pub enum PacketDialect {
    // the mmWave demo's chips (paper 01, "mmWave")
    MmWave,
    // the vital-signs chips (paper 02, (i))
    VitalSigns,
}

// The packet header's fields; its offsets and its size are the type's constants.
#[repr(C)]
#[derive(Clone, Copy)]
pub struct Header {
    pub version: u32,
    pub total: u32,
    pub platform: u32,
    pub frame: u32,
    pub time: u32,
    pub objects: u32,
    pub records: u32,
    pub subframe: u32,
}

impl Header {
    // What every packet begins with.
    pub const MAGIC: [u8; 8] = [2, 1, 4, 3, 6, 5, 8, 7];

    pub const VERSION: usize = 8;

    pub const TOTAL: usize = 12;

    pub const PLATFORM: usize = 16;

    pub const FRAME: usize = 20;

    pub const TIME: usize = 24;

    pub const OBJECTS: usize = 28;

    pub const RECORDS: usize = 32;

    pub const SUBFRAME: usize = 36;

    pub const SIZE: usize = 40;
}

// The payload lengths that a record's type may have.
#[derive(Clone, Copy)]
pub enum Rule {
    // none at all
    Never,
    // this one
    Exact(u64),
    // the multiples of a unit
    Multiple(Unit),
    // any
    Free,
}

// What lengths are multiples of.
#[derive(Clone, Copy)]
pub enum Unit {
    Two,
    Four,
    Sixteen,
}
