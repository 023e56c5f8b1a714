// The judgement of a packet's records behind its header, and its quick way: where the bytes are all there, no field tests their length
// (paper 01, "mmWave"; paper 02, (i) and (vii)).
#![tactic(auto)]

ghost use Rattle.std.specs.Prelude.{◌≡◌, cond, ◌+◌, ◌*◌, ◌^◌, ◌≤◌, ◌<◌, length};
ghost use Rattle.digits.specs.LittleEndian.{little_at};
ghost use Rattle.form.specs.Numbers.{Judges};
ghost use Rattle.mmwave.specs.Profile.{type_ok};
ghost use Rattle.mmwave.specs.Packet.{records};
ghost use Rattle.mmwave.specs.Dialects.{profile_of};
ghost use Rattle.mmwave.specs.Internal.{Settles};

use form::Judgement;
use mmwave::{Header, PacketDialect};
use mmwave_dialects::kind_of;
use mmwave_lengths::{length_ok, type_ok};
use mmwave_records::{BAD_LENGTH, BAD_REPEATED, BAD_TYPE, walk};
use mmwave_rules::{mark_of, rule_of};

// The number in four bytes that are there.
fn field(s: &[u8], at: usize) -> u32
    requires { at + 4 ≤ length s.now }
    ensures { result ≡ little_at 4 at s.now }
{
    numbers::join(s[at], s[at + 1], s[at + 2], s[at + 3])
}

// The reason of a record whose payload length does not pass: its type's, if no length of it fits.
fn refusal_of(tag: u32, objects: u32, k: u32, room: u32, d: PacketDialect) -> u32
    ensures { result ≡ cond (type_ok (profile_of d) objects k room tag) 24 23 }
{
    if type_ok(rule_of(tag, objects, d), k, room, d) {
        return BAD_LENGTH;
    }
    BAD_TYPE
}

// The `k` records from `at` on, all of them there with their room: the reason of the first check that fails, or 0.
// A number: as a `Result<(), u32>` the recursion is no loop, and chains of 32 records take 35.21 instead of 20.94 instructions a byte.
// A payload length that passes is one that lets its type pass, so the type is asked only where the length fails.
// The slice is lent on as it is lent: a slice that is handed on is stored anew for each record.
fn walk_inside(
    s: &&[u8],
    at: usize,
    objects: u32,
    seen: u32,
    k: u32,
    room: u32,
    d: PacketDialect,
) -> u32
    requires { (at + 8 * k + room ≤ length s.now.now) × (at + 8 * k + room < 2 ^ 64) }
    ensures { Settles (profile_of d) objects seen k room at s.now.now result }
{
    if k == 0 {
        return 0;
    }
    let tag = field(*s, at);
    let mark = mark_of(tag, d);
    if seen & mark != 0 {
        return BAD_REPEATED;
    }
    let rule = rule_of(tag, objects, d);
    let m = field(*s, at + 4);
    if length_ok(rule, k, room, m, d) {
        let next = at + 8 + (m as usize);
        return walk_inside(s, next, objects, seen | mark, k - 1, room - m, d);
    }
    refusal_of(tag, objects, k, room, d)
}

// The judgement of the `k` records behind a header, whose payloads and padding have this room; 23, 24, 25, or waiting.
pub fn judge_records(s: &[u8], objects: u32, k: u32, room: u32, d: PacketDialect) -> Judgement
    ensures { Judges (records (profile_of d) objects 0 k room) 40 s.now result }
{
    let total = Header::SIZE + 8 * (k as usize) + (room as usize);
    if s.len() < total {
        return Judgement::from(walk(s, Header::SIZE, objects, 0, k, room, d));
    }
    let reason = walk_inside(&s, Header::SIZE, objects, 0, k, room, d);
    if reason == 0 {
        return Judgement::Whole(kind_of(d), total);
    }
    Judgement::Bad(reason)
}
