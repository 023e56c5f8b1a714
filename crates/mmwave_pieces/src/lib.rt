// A packet judged piece by piece in byte order, which fits any number of bytes (paper 01, "mmWave" and "Judging a place"; paper 02, (i)).
#![tactic(auto)]

ghost use Rattle.std.specs.Prelude.{◌≡◌, Bool, ℕ, ◌^◌, ◌<◌};
ghost use Rattle.form.specs.Form.{judge_at};
ghost use Rattle.form.specs.Numbers.{judgement_of, Judges};
ghost use Rattle.form.specs.Pieces.{always, four, marker};
ghost use Rattle.mmwave.specs.Packet.{magic, counted, packet};
ghost use Rattle.mmwave.specs.Dialects.{profile_of};

use form::{Parsed, Unparsed};
use mmwave::{Header, PacketDialect};
use mmwave_dialects::{objects_ok, subframe_ok};
use mmwave_header::{count_ok, total_ok};
use mmwave_records::walk;

// Reasons (paper 01, "Judging a place"; paper 02, (i)).
pub const NO_MAGIC: u32 = 20;

pub const BAD_TOTAL: u32 = 21;

pub const BAD_COUNT: u32 = 22;

pub const BAD_FIXED: u32 = 26;

// The magic is there, or the bytes go no further than it, or another byte is there.
fn judge_magic(s: &[u8]) -> Result<Parsed, Unparsed>
    ensures { judgement_of result ≡ judge_at (marker 20 magic) 0 s.now }
{
    if s.starts_with(&Header::MAGIC) {
        return Ok(Parsed {
            value: 0,
            end: Header::MAGIC.len(),
        });
    }
    if Header::MAGIC.starts_with(s) {
        return Err(Unparsed::Waiting);
    }
    Err(Unparsed::Bad(NO_MAGIC))
}

// A field of the header whose number has to pass a test, and the reason if it does not.
fn checked_at<F: FnOnce(u32) -> bool>(
    s: &[u8],
    at: usize,
    reason: u32,
    passes: F,
) -> Result<Parsed, Unparsed>
    requires { F.IsAlwaysCallable passes }
    ensures { (test : ℕ → Bool) → ((v : ℕ) (b : Bool) → v < 2 ^ 32 → F.post passes v b → b ≡ test v)
        → judgement_of result ≡ judge_at (four (always reason) test) at s.now }
{
    let field = form::number(s, at)?;
    if passes(field.value) {
        return Ok(field);
    }
    Err(Unparsed::Bad(reason))
}

// What follows the total length: three free fields, the object count, the record count, the subframe, the records.
fn behind_total(s: &[u8], at: usize, l: u32, d: PacketDialect) -> Result<Parsed, Unparsed>
    ensures { judgement_of result ≡ judge_at (counted (profile_of d) l) at s.now }
{
    let i = form::skip_numbers(s, at, 3)?.end;
    let objects = checked_at(s, i, BAD_FIXED, |n| objects_ok(n, d))?;
    let count = checked_at(s, objects.end, BAD_COUNT, |k| count_ok(l, k, d))?;
    let j = checked_at(s, count.end, BAD_FIXED, |v| subframe_ok(v, d))?.end;
    let used = Header::SIZE + 8 * (count.value as usize);
    let room = (l as usize) - used;
    walk(s, j, objects.value, 0, count.value, room as u32, d)
}

// The judgement piece by piece, which fits any number of bytes.
pub fn judge_pieces(bytes: &[u8], d: PacketDialect) -> Result<Parsed, Unparsed>
    ensures { Judges (packet (profile_of d)) 0 bytes.now (judgement_of result) }
{
    let h = judge_magic(bytes)?.end;
    let i = form::skip_numbers(bytes, h, 1)?.end;
    let total = checked_at(bytes, i, BAD_TOTAL, |l| total_ok(l, d))?;
    behind_total(bytes, total.end, total.value, d)
}
