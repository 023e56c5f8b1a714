// The readings' C face, a library apart from the gateway's: with one caller in it the judgement is compiled into the readings' loop.
// A slice is a pointer that is not null and a count; the numbers of each answer are those of paper 01.
#![tactic(auto)]

ghost use Rattle.std.specs.Prelude.{true, false};
ghost use Rattle.capture.specs.Entries.{Reads};

use reading::Answer;

// The open reading: rows of three numbers (offset, length, kind) in the table, up to where further bytes decide.
#[unsafe(no_mangle)]
pub extern "C" fn vq_open_reading(dialect: u32, bytes: &[u8], table: &mut [u32]) -> Answer
    ensures { Reads dialect false bytes.now table.old result table.new }
{
    Answer::from(capture_read::read_capture(dialect, bytes, table, false))
}

// The closed reading: the same for bytes behind which nothing comes.
#[unsafe(no_mangle)]
pub extern "C" fn vq_closed_reading(dialect: u32, bytes: &[u8], table: &mut [u32]) -> Answer
    ensures { Reads dialect true bytes.now table.old result table.new }
{
    Answer::from(capture_read::read_capture(dialect, bytes, table, true))
}
