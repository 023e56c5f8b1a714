// The C face of the SiRad frames' writers: those of `sirad_write_data`, `sirad_write` and `sirad_targets` under names for C, each with its
// own promise. A slice is a pointer that is not null and a count; a struct crosses by value.
#![tactic(auto)]

ghost use Rattle.digits.specs.Stores.{Writes};
ghost use Rattle.sirad_fields.specs.Fields.{data_refusal, data_bytes, targets_refusal, targets_bytes};
ghost use Rattle.sirad_fields.specs.Fields.{status_numbers, status_refusal, status_bytes, error_refusal, error_bytes};

use digits::Written;
use sirad_fields::{StatusValues, TargetFrame};

// Writes a frame R, P or C (kinds 1 to 3) with these characters; 53, 52, 50, 51.
#[unsafe(no_mangle)]
pub extern "C" fn vq_write_data(out: &mut [u8], kind: u32, content: &[u8]) -> Written
    ensures { Writes (data_refusal kind content.now)
        (data_bytes kind content.now) out.old result out.new }
{
    Written::from(sirad_write_data::write_data(out, kind, content))
}

// Writes a T frame with the format, gain and targets of `frame`, whose refusal counts for nothing; 50, 51.
#[unsafe(no_mangle)]
pub extern "C" fn vq_write_targets(out: &mut [u8], frame: TargetFrame) -> Written
    ensures { Writes (targets_refusal frame.format frame.gain frame.targets)
        (targets_bytes frame.format frame.gain frame.targets) out.old result out.new }
{
    let targets = frame.targets;
    Written::from(sirad_targets::write_targets(out, frame.format, frame.gain, targets))
}

// Writes a U frame; 50, 51.
#[unsafe(no_mangle)]
pub extern "C" fn vq_write_status(
    out: &mut [u8],
    format: u8,
    gain: u8,
    accuracy: u16,
    range: u16,
    ramp: u16,
    bandwidth: u16,
    time: u16,
) -> Written
    ensures { Writes (status_refusal (status_numbers format gain accuracy range ramp bandwidth time))
        (status_bytes (status_numbers format gain accuracy range ramp bandwidth time)) out.old result out.new }
{
    let values = StatusValues {
        format,
        gain,
        accuracy,
        max_range: range,
        ramp_time: ramp,
        bandwidth,
        time_difference: time,
    };
    Written::from(sirad_write::write_status(out, values))
}

// Writes an E frame; 51.
#[unsafe(no_mangle)]
pub extern "C" fn vq_write_error(out: &mut [u8], flags: u16) -> Written
    ensures { Writes (error_refusal flags) (error_bytes flags) out.old result out.new }
{
    Written::from(sirad_write::write_error(out, flags))
}
