// Writers of SiRad's status and error frames into a lent buffer (paper 01, "SiRad" and "Fields").
#![tactic(auto)]

ghost use Rattle.std.specs.Prelude.{◌≡◌, ◌≤◌, length};
ghost use Rattle.refusals.specs.Numbers.{refusal_number};
ghost use Rattle.digits.specs.Stores.{Writes, written_of, stored};
ghost use Rattle.sirad_fields.specs.Fields.{status_refusal, status_bytes, error_refusal, error_bytes};
ghost use Rattle.sirad_fields.specs.Answers.{values_sent};

use refusals::Refusal;
use sirad_fields::StatusValues;

// Whole frames.
const STATUS_SIZE: usize = 26;

const ERROR_SIZE: usize = 8;

// -- Status (kind 5)

// Whether a U frame's values have an encoding: its five numbers always have one.
fn check_status(values: StatusValues) -> Result<(), Refusal>
    ensures { refusal_number result ≡ status_refusal (values_sent values) }
{
    if values.format < 16 && digits::is_character(values.gain) {
        return Ok(());
    }
    Err(Refusal::NoEncoding)
}

fn put_status(out: &mut [u8], values: StatusValues)
    requires { 26 ≤ length out.old }
    ensures { out.new ≡ stored out.old 0 (status_bytes (values_sent values)) }
{
    let digit = digits::glyph_of(values.format as u32);
    stores::put_pair(out, 0, sirad_judge::START_MARKER, b'U');
    stores::put_pair(out, 2, digit, values.gain);
    hex_numbers::put_hex(out, 4, 4, values.accuracy as u32);
    hex_numbers::put_hex(out, 8, 4, values.max_range as u32);
    hex_numbers::put_hex(out, 12, 4, values.ramp_time as u32);
    hex_numbers::put_hex(out, 16, 4, values.bandwidth as u32);
    hex_numbers::put_hex(out, 20, 4, values.time_difference as u32);
    stores::put_pair(out, 24, b'\r', b'\n');
}

// Writes a U frame, 26 bytes; refuses 50 (format or gain), then 51.
pub fn write_status(out: &mut [u8], values: StatusValues) -> Result<usize, Refusal>
    ensures { Writes (status_refusal (values_sent values))
        (status_bytes (values_sent values)) out.old (written_of result) out.new }
{
    stores::with_room(check_status(values), STATUS_SIZE, out.len())?;
    put_status(out, values);
    Ok(STATUS_SIZE)
}

// -- Error flags (kind 6)

fn put_error(out: &mut [u8], flags: u16)
    requires { 8 ≤ length out.old }
    ensures { out.new ≡ stored out.old 0 (error_bytes flags) }
{
    stores::put_pair(out, 0, sirad_judge::START_MARKER, b'E');
    hex_numbers::put_hex(out, 2, 4, flags as u32);
    stores::put_pair(out, 6, b'\r', b'\n');
}

// Writes an E frame, 8 bytes; every u16 has an encoding, so it refuses 51 only.
pub fn write_error(out: &mut [u8], flags: u16) -> Result<usize, Refusal>
    ensures { Writes (error_refusal flags) (error_bytes flags) out.old (written_of result) out.new }
{
    stores::with_room(Ok(()), ERROR_SIZE, out.len())?;
    put_error(out, flags);
    Ok(ERROR_SIZE)
}
