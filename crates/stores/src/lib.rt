// Stores into a lent buffer, and the refusal of a writer.
#![tactic(auto)]

ghost use Rattle.std.specs.Prelude.{◌≡◌, [], ◌∷◌, replicate, IfOk, Ok};
ghost use Rattle.refusals.specs.Numbers.{refusal_number};
ghost use Rattle.digits.specs.Stores.{stored_within, writer_refusal};

use refusals::Refusal;

// Lays two bytes over the buffer at an offset; changes nothing where they do not fit.
// `put_pair(out, 6, b'\r', b'\n')` stores a stop marker.
pub fn put_pair(out: &mut [u8], at: usize, a: u8, b: u8)
    ensures { out.new ≡ stored_within out.old at (a ∷ b ∷ []) }
{
    put_bytes(out, at, &[a, b]);
}

// Lays one byte n times over the buffer at an offset; changes nothing where they do not fit.
// `put_run(out, 6, 8, b'0')` stores `00000000`.
pub fn put_run(out: &mut [u8], at: usize, n: usize, b: u8)
    ensures { out.new ≡ stored_within out.old at (replicate n b) }
{
    if at <= out.len() && n <= out.len() - at {
        out[at..at + n].fill(b);
    }
}

// Lays the bytes of a slice over the buffer at an offset; changes nothing where they do not fit.
// `put_bytes(out, 0, b"!E")` stores `!E`. By hand, since `copy_from_slice` needs `memmove`, which the C interface doesn't ask hosts for.
pub fn put_bytes(out: &mut [u8], at: usize, bytes: &[u8])
    ensures { out.new ≡ stored_within out.old at bytes.now }
{
    if out.len() < at {
        return;
    }
    if out.len() - at < bytes.len() {
        return;
    }
    let mut i: usize = 0;
    while i < bytes.len() {
        out[at + i] = bytes[i];
        i = i + 1;
    }
}

// The refusal of a writer of so many bytes: that of its values, if there is one, else 51 where the room is too short.
// `refusal_of(0, 26, 25)` is 51.
pub fn refusal_of(unfit: u32, size: usize, room: usize) -> u32
    ensures { result ≡ writer_refusal unfit size room }
{
    if unfit != 0 {
        return unfit;
    }
    if room < size {
        return Refusal::OutputTooShort.number();
    }
    0
}

// What the check of a writer's values gave, where the output has room for so many bytes: the values' refusal comes first.
// `with_room(Ok(()), 26, 25)` is refused, `with_room(Ok(()), 26, 26)` is not.
pub fn with_room<T: Copy>(
    values: Result<T, Refusal>,
    size: usize,
    room: usize,
) -> Result<T, Refusal>
    ensures refusal { refusal_number result ≡ writer_refusal (refusal_number values) size room }
    ensures value { IfOk result (λ x. values ≡ Ok x) }
{
    let value = values?;
    if size > room {
        return Err(Refusal::OutputTooShort);
    }
    Ok(value)
}
