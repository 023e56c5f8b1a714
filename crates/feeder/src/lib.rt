// The feeder's C face, a library of its own: with one caller in it the judgement is compiled into the feeder's loop.
// A slice is a pointer that is not null and a count; a struct crosses by value.
#![tactic(auto)]

ghost use Rattle.capture.specs.Feeding.{Feeds};

use capture::{Fed, Stream};

// A call of the feeder: rows of three numbers (offset in the stream, length, kind) in the table, the bytes that wait at the carry's start.
#[unsafe(no_mangle)]
pub extern "C" fn vq_feed(
    dialect: u32,
    stream: Stream,
    carry: &mut [u8],
    bytes: &[u8],
    table: &mut [u32],
) -> Fed
    ensures { Feeds dialect stream carry.old bytes.now table.old
        result carry.new table.new }
{
    let answer = capture_feed::feed(dialect, stream, carry, bytes, table);
    capture_feed::fed_of(stream, answer)
}
