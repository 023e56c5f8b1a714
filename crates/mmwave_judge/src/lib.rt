// The judgement of a packet: its header at once where it is there, else piece by piece (paper 01, "mmWave"; paper 02, (i)).
#![tactic(auto)]

ghost use Rattle.std.specs.Prelude.{◌≡◌, true, false, ◌+◌, ◌-◌, ◌*◌, ◌≤◌, length, take};
ghost use Rattle.digits.specs.LittleEndian.{little_at};
ghost use Rattle.form.specs.Form.{judge as judge_form, judge_at};
ghost use Rattle.form.specs.Numbers.{Judges};
ghost use Rattle.mmwave.specs.Packet.{magic, records, packet};
ghost use Rattle.mmwave.specs.Dialects.{profile_of};

use form::Judgement;
use mmwave::{Header, PacketDialect};
use mmwave_dialects::{objects_ok, subframe_ok};
use mmwave_header::{count_ok, total_ok};
use mmwave_inside::judge_records;
use mmwave_pieces::{BAD_COUNT, BAD_FIXED, BAD_TOTAL, NO_MAGIC, judge_pieces};

// Whether the bytes begin with the magic: compared as one number, in one step.
fn has_magic(s: &[u8]) -> bool
    requires { 8 ≤ length s.now }
    ensures { (result ≡ true → take 8 s.now ≡ magic) × (result ≡ false → take 8 s.now ≡ magic → ⊥) }
{
    let first: &[u8; 8] = s.first_chunk().unwrap();
    u64::from_le_bytes(*first) == u64::from_le_bytes(Header::MAGIC)
}

// The number at an offset of a header that is there.
fn number(s: &[u8], at: usize) -> u32
    requires { at + 4 ≤ length s.now }
    ensures { result ≡ little_at 4 at s.now }
{
    numbers::word_at(s, at)
}

// What follows the header, with a total length and a record count that passed.
fn behind_header(s: &[u8], l: u32, objects: u32, k: u32, d: PacketDialect) -> Judgement
    requires { 40 + 8 * k ≤ l }
    ensures { result ≡ judge_at (records (profile_of d) objects 0 k (l - (40 + 8 * k))) 40 s.now }
{
    let room = (l as usize - (Header::SIZE + 8 * (k as usize))) as u32;
    judge_records(s, objects, k, room, d)
}

// The judgement where the header is there.
fn judge_header(s: &[u8], d: PacketDialect) -> Judgement
    requires { 40 ≤ length s.now }
    ensures { result ≡ judge_form (packet (profile_of d)) 0 s.now }
{
    if has_magic(s) {
        let l = number(s, Header::TOTAL);
        if total_ok(l, d) {
            let objects = number(s, Header::OBJECTS);
            if objects_ok(objects, d) {
                let k = number(s, Header::RECORDS);
                if count_ok(l, k, d) {
                    if subframe_ok(number(s, Header::SUBFRAME), d) {
                        return behind_header(s, l, objects, k, d);
                    }
                    return Judgement::Bad(BAD_FIXED);
                }
                return Judgement::Bad(BAD_COUNT);
            }
            return Judgement::Bad(BAD_FIXED);
        }
        return Judgement::Bad(BAD_TOTAL);
    }
    Judgement::Bad(NO_MAGIC)
}

// The judgement of the bytes as a packet of a dialect from their first on: its kind, 16 or 17, with the length, a reason from 20 to 26,
// or waiting.
pub fn judge(bytes: &[u8], d: PacketDialect) -> Judgement
    ensures { Judges (packet (profile_of d)) 0 bytes.now result }
{
    if bytes.len() < Header::SIZE {
        return Judgement::from(judge_pieces(bytes, d));
    }
    judge_header(bytes, d)
}
