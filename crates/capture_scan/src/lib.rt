// The next start byte: what a reading may pass without a judgement. Nothing here is a rule of the papers.
#![tactic(auto)]

ghost use Rattle.std.specs.Prelude.{◌≡◌, ◌+◌, ◌≤◌, ◌<◌, length, get_or};
ghost use Rattle.capture.specs.Internal.{Clear, clear_for, next_mark, starts_again};

// Whether none of the next `n` bytes is the mark. No branch in the loop, so that many bytes are compared at once.
fn misses(bytes: &[u8], from: usize, n: usize, mark: u8) -> bool
    requires { from + n ≤ length bytes.now }
    ensures { result ≡ clear_for mark from n bytes.now }
{
    let mut ok = true;
    for i in 0..n {
        let t = bytes[from + i] != mark;
        ok = digits::both(ok, t);
    }
    ok
}

// Where a look at the next `n` bytes ends.
fn end_of(bytes: &[u8], from: usize, n: usize) -> usize
    requires { from ≤ length bytes.now }
    ensures { (from ≤ result) × (result ≤ length bytes.now) × (result < from + n → length bytes.now ≤ result) }
{
    if bytes.len() - from < n {
        return bytes.len();
    }
    from + n
}

// Looks for the mark in the next `n` bytes, one by one.
fn few(bytes: &[u8], from: usize, n: usize, mark: u8) -> usize
    requires { from ≤ length bytes.now }
    ensures lower_bound { (from ≤ result) × (result ≤ length bytes.now) × Clear mark from result bytes.now }
    ensures result_value { result < from + n → result < length bytes.now → get_or bytes.now result 0 ≡ mark }
{
    let end = end_of(bytes, from, n);
    for at in from..end {
        if bytes[at] == mark {
            return at;
        }
    }
    end
}

// Passes runs of 64 bytes without the mark.
fn pass_runs(bytes: &[u8], from: usize, mark: u8) -> usize
    requires { from ≤ length bytes.now }
    ensures { (from ≤ result) × (result ≤ length bytes.now) × Clear mark from result bytes.now }
{
    let mut at = from;
    while 64 <= bytes.len() - at {
        let clear = misses(bytes, at, 64, mark);
        if clear {
            at += 64;
        } else {
            return at;
        }
    }
    at
}

// The offset of the next mark at or behind `from`, or of the end (`from` where it is beyond).
// Marks close to each other are met byte by byte, others 64 and then 32 bytes at a time.
pub fn find(bytes: &[u8], from: usize, mark: u8) -> usize
    ensures { result ≡ next_mark mark from bytes.now }
{
    if bytes.len() < from {
        return from;
    }
    let near = few(bytes, from, 16, mark);
    if near - from < 16 {
        return near;
    }
    let mut at = pass_runs(bytes, near, mark);
    while 32 <= bytes.len() - at {
        let clear = misses(bytes, at, 32, mark);
        if clear {
            at = at + 32;
        } else {
            return few(bytes, at, 32, mark);
        }
    }
    few(bytes, at, 32, mark)
}

// Whether the start byte comes again one or two bytes behind this one, where no frame has it.
pub fn starts_again(bytes: &[u8], at: usize, mark: u8) -> bool
    ensures { result ≡ starts_again mark bytes.now at }
{
    if bytes.len() < at {
        return false;
    }
    let left = bytes.len() - at;
    if left < 3 {
        if left < 2 {
            return false;
        }
        let last = bytes[at + 1];
        return last == mark;
    }
    let second = bytes[at + 1];
    let third = bytes[at + 2];
    if second == mark {
        return true;
    }
    third == mark
}
