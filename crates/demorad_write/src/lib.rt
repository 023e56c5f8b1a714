// Writes DemoRad commands (paper 01, "DemoRad"; document 001, section 2.1.1).
#![tactic(auto)]

ghost use Rattle.std.specs.Prelude.{◌≡◌, ◌+◌, ◌*◌, ◌<◌, ◌≤◌, length, take};
ghost use Rattle.digits.specs.Stores.{Writes, written_of, stored};
ghost use Rattle.demorad.specs.Rules.{legality, max_payload};
ghost use Rattle.demorad.specs.Image.{header_word, word_bytes, command_bytes};

use refusals::Refusal;

// The header word of a legal command.
#[tactic(auto, unfolding(demorad::specs::Image::header_word))]
fn header_word(rd: bool, code: u32, count: u32) -> u32
    requires { (code < 65536) × (count ≤ max_payload) }
    ensures { result ≡ header_word rd code count }
{
    u32::from(rd) * demorad::RD + (count + 1) * demorad::LENGTH + code
}

// Lays the first `n` words over the buffer behind the header. They are handed on by value, so that a refused command copies none.
fn put_payload(out: &mut [u8], n: usize, words: [u32; 30])
    requires { (n ≤ max_payload) × (4 + 4 * n ≤ length out.old) }
    ensures { out.new ≡ stored out.old 4 (word_bytes (take n words)) }
{
    for (i, word) in words[..n].iter().enumerate() {
        numbers::put_word(out, 4 + 4 * i, *word);
    }
}

// Writes a command to the start of the buffer: code 6005 (hex), one word, 1 and RD give 05 60 02 80 01 00 00 00.
// Words behind the count are ignored.
pub fn write_command(
    out: &mut [u8],
    rd: bool,
    code: u32,
    count: u32,
    words: [u32; 30],
) -> Result<usize, Refusal>
    ensures { Writes (legality code count words) (command_bytes rd code count words) out.old (written_of result) out.new }
{
    demorad::command_refusal(code, count, words)?;
    let n = count as usize;
    let size = 4 * (n + 1);
    if out.len() < size {
        return Err(Refusal::OutputTooShort);
    }
    let header = header_word(rd, code, count);
    numbers::put_word(out, 0, header);
    put_payload(out, n, words);
    Ok(size)
}
