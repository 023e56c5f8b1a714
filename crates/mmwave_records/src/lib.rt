// The records of a packet and its padding, judged piece by piece in byte order (paper 01, "mmWave" and "Judging a place"; paper 02, (i) and
// (vii)).
#![tactic(auto)]

ghost use Rattle.std.specs.Prelude.{◌≡◌};
ghost use Rattle.form.specs.Form.{judge_at};
ghost use Rattle.form.specs.Numbers.{judgement_of, Judges};
ghost use Rattle.mmwave.specs.Packet.{payload, last, records};
ghost use Rattle.mmwave.specs.Dialects.{profile_of};

use form::{Parsed, Unparsed};
use mmwave::{PacketDialect, Rule};
use mmwave_dialects::kind_of;
use mmwave_lengths::{length_ok, type_ok};
use mmwave_rules::{mark_of, rule_of};

// Reasons (paper 01, "Judging a place"; paper 02, (vii)).
pub const BAD_TYPE: u32 = 23;

pub const BAD_LENGTH: u32 = 24;

pub const BAD_REPEATED: u32 = 25;

// A record's payload length, by the rule of its type, and its payload: the length, and the offset behind the record.
fn payload_at(
    s: &[u8],
    at: usize,
    rule: Rule,
    k: u32,
    room: u32,
    d: PacketDialect,
) -> Result<Parsed, Unparsed>
    ensures { judgement_of result ≡ judge_at (payload (profile_of d) rule k room) at s.now }
{
    let length = form::number(s, at)?;
    if length_ok(rule, k, room, length.value, d) {
        let end = form::skip(s, length.end, length.value as usize)?.end;
        return Ok(Parsed {
            value: length.value,
            end: end,
        });
    }
    Err(Unparsed::Bad(BAD_LENGTH))
}

// The padding, and with it the packet's end.
fn padding_at(s: &[u8], at: usize, room: u32, d: PacketDialect) -> Result<Parsed, Unparsed>
    ensures { judgement_of result ≡ judge_at (last (profile_of d) room) at s.now }
{
    let end = form::skip(s, at, room as usize)?.end;
    Ok(Parsed {
        value: kind_of(d),
        end: end,
    })
}

// The `k` records from `at` on, and the padding: the first one, then the remaining ones right behind it, with its type among those seen.
// The slice is lent on as it is lent: a slice that is handed on is stored anew for each record.
fn walk_from(
    s: &&[u8],
    at: usize,
    objects: u32,
    seen: u32,
    k: u32,
    room: u32,
    d: PacketDialect,
) -> Result<Parsed, Unparsed>
    ensures { judgement_of result ≡ judge_at (records (profile_of d) objects seen k room) at s.now.now }
{
    if k == 0 {
        return padding_at(*s, at, room, d);
    }
    let tag = form::number(*s, at)?;
    let mark = mark_of(tag.value, d);
    if seen & mark != 0 {
        return Err(Unparsed::Bad(BAD_REPEATED));
    }
    let rule = rule_of(tag.value, objects, d);
    if type_ok(rule, k, room, d) {
        let payload = payload_at(*s, tag.end, rule, k, room, d)?;
        return walk_from(
            s,
            payload.end,
            objects,
            seen | mark,
            k - 1,
            room - payload.value,
            d,
        );
    }
    Err(Unparsed::Bad(BAD_TYPE))
}

// The `k` records from `at` on, behind records whose types have been seen, and the padding.
pub fn walk(
    s: &[u8],
    at: usize,
    objects: u32,
    seen: u32,
    k: u32,
    room: u32,
    d: PacketDialect,
) -> Result<Parsed, Unparsed>
    ensures { Judges (records (profile_of d) objects seen k room) at s.now (judgement_of result) }
{
    walk_from(&s, at, objects, seen, k, room, d)
}
