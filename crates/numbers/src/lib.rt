// Little-endian 32-bit numbers in bytes, both ways.
#![tactic(auto)]

ghost use Rattle.std.specs.Prelude.{◌≡◌, [], ◌∷◌};
ghost use Rattle.digits.specs.LittleEndian.{from_little, word_at};
ghost use Rattle.digits.specs.Stores.{word_stored};

// The number of four bytes, least significant first.
pub fn join(a: u8, b: u8, c: u8, d: u8) -> u32
    ensures { result ≡ from_little (a ∷ b ∷ c ∷ d ∷ []) }
{
    let upper = c as u32 + 256 * (d as u32);
    let middle = b as u32 + 256 * upper;
    a as u32 + 256 * middle
}

// The 32-bit number at an offset; 0 where fewer than four bytes are there.
pub fn word_at(s: &[u8], at: usize) -> u32
    ensures { result ≡ word_at s.now at }
{
    if s.len() < at {
        return 0;
    }
    if s.len() - at < 4 {
        return 0;
    }
    join(s[at], s[at + 1], s[at + 2], s[at + 3])
}

// Lays a 32-bit number over the buffer at an offset; changes nothing where it does not fit.
pub fn put_word(out: &mut [u8], at: usize, v: u32)
    ensures { out.new ≡ word_stored out.old at v }
{
    if out.len() < at {
        return;
    }
    if out.len() - at < 4 {
        return;
    }
    out[at] = (v % 256) as u8;
    out[at + 1] = (v / 256 % 256) as u8;
    out[at + 2] = (v / 256 / 256 % 256) as u8;
    out[at + 3] = (v / 256 / 256 / 256 % 256) as u8;
}
