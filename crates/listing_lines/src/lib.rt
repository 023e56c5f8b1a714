// A line of a listing: a word and two numbers, measured and put (paper 01, "The listing").
#![tactic(auto)]

ghost use Rattle.std.specs.Prelude.{◌≡◌, [], ◌∷◌, ◌++◌, ◌+◌, ◌≤◌, ◌<◌, length};
ghost use Rattle.listing.specs.Decimal.{decimal, width};
ghost use Rattle.listing.specs.Lines.{field, fields};
ghost use Rattle.listing.specs.Internal.{Lays, Puts};

const TAB: u8 = 9;

const LINE_FEED: u8 = 10;

// Puts one byte into the buffer.
fn put_byte(out: &mut [u8], at: usize, b: u8) -> usize
    requires { at < length out.old }
    ensures { Puts (b ∷ []) out.old at result out.new }
{
    out[at] = b;
    at + 1
}

// Puts bytes into the buffer.
fn put_text(out: &mut [u8], at: usize, text: &[u8]) -> usize
    requires { at + length text.now ≤ length out.old }
    ensures { Puts text.now out.old at result out.new }
{
    stores::put_bytes(out, at, text);
    at + text.len()
}

// How many digits a number takes.
fn width_of(v: u32) -> usize
    ensures { result ≡ width v }
{
    if v < 10 {
        return 1;
    }
    if v < 100 {
        return 2;
    }
    if v < 1000 {
        return 3;
    }
    if v < 10000 {
        return 4;
    }
    if v < 100000 {
        return 5;
    }
    if v < 1000000 {
        return 6;
    }
    if v < 10000000 {
        return 7;
    }
    if v < 100000000 {
        return 8;
    }
    if v < 1000000000 {
        return 9;
    }
    10
}

// How many bytes two numbers take to the end of a line: two tabs, their digits, a line feed.
pub fn fields_size(a: u32, b: u32) -> usize
    ensures { result ≡ length (fields a b) }
{
    3 + width_of(a) + width_of(b)
}

// Puts a number in decimal, its last digit first.
fn put_decimal(out: &mut [u8], at: usize, v: u32) -> usize
    requires { at + length (decimal v) ≤ length out.old }
    ensures { Puts (decimal v) out.old at result out.new }
{
    let n = width_of(v);
    let mut rest = v;
    for left in (0..n).rev() {
        out[at + left] = b'0' + (rest % 10) as u8;
        rest /= 10;
    }
    at + n
}

fn put_field(out: &mut [u8], at: usize, v: u32) -> usize
    requires { at + length (field v) ≤ length out.old }
    ensures { Puts (field v) out.old at result out.new }
{
    let digits = put_byte(out, at, TAB);
    put_decimal(out, digits, v)
}

fn put_fields(out: &mut [u8], at: usize, a: u32, b: u32) -> usize
    requires { at + length (fields a b) ≤ length out.old }
    ensures { Puts (fields a b) out.old at result out.new }
{
    let second = put_field(out, at, a);
    let end = put_field(out, second, b);
    put_byte(out, end, LINE_FEED)
}

// Puts a line where it fits, and answers the offset behind it; else nothing changes, and the answer is the offset itself.
pub fn put_line(out: &mut [u8], at: usize, word: &[u8], a: u32, b: u32) -> usize
    ensures { Lays (word.now ++ fields a b) out.old at result out.new }
{
    if out.len() < at {
        return at;
    }
    let room = out.len() - at;
    if room < word.len() {
        return at;
    }
    if room - word.len() < fields_size(a, b) {
        return at;
    }
    let numbers = put_text(out, at, word);
    put_fields(out, numbers, a, b)
}
