// The C face of the SiRad frames' readers: those of `sirad_read` and `sirad_read_targets` under names for C, each with its own promise.
// A slice is a pointer that is not null and a count; a struct crosses by value.
#![tactic(auto)]

ghost use Rattle.std.specs.Prelude.{◌≡◌};
ghost use Rattle.sirad_fields.specs.Fields.{read_data, read_targets, read_status, read_error};

use sirad_fields::{DataFrame, ErrorFrame, StatusFrame, TargetFrame};

// The data of exactly one whole frame R, P or C: its kind, and the part of the slice that holds its characters; else 5.
#[unsafe(no_mangle)]
pub extern "C" fn vq_read_data(frame: &[u8]) -> DataFrame
    ensures { result ≡ read_data frame.now }
{
    DataFrame::from(sirad_read::read_data(frame))
}

// The sixteen targets of exactly one whole T frame; else 5.
#[unsafe(no_mangle)]
pub extern "C" fn vq_read_targets(frame: &[u8]) -> TargetFrame
    ensures { result ≡ read_targets frame.now }
{
    TargetFrame::from(sirad_read_targets::read_targets(frame))
}

// The status of exactly one whole U frame, its accuracy in millimetres by an edition; else 5, then 32.
#[unsafe(no_mangle)]
pub extern "C" fn vq_read_status(edition: u32, frame: &[u8]) -> StatusFrame
    ensures { result ≡ read_status edition frame.now }
{
    StatusFrame::from(sirad_read::read_status(edition, frame))
}

// The flags of exactly one whole E frame; else 5.
#[unsafe(no_mangle)]
pub extern "C" fn vq_read_error(frame: &[u8]) -> ErrorFrame
    ensures { result ≡ read_error frame.now }
{
    ErrorFrame::from(sirad_read::read_error(frame))
}
