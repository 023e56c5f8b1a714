// Reads DemoRad commands (paper 01, "DemoRad"; document 001, section 2.1.1).
#![tactic(auto)]

ghost use Rattle.std.specs.Prelude.{◌≡◌, ◌+◌, ◌*◌, ◌≤◌, length, drop};
ghost use Rattle.demorad.specs.Rules.{max_payload};
ghost use Rattle.demorad.specs.Reading.{rd_of, rest_of, length_of, code_of, header_of};
ghost use Rattle.demorad.specs.Reading.{framed, words_of, padded, read_command};

use demorad::Command;
use refusals::Refusal;

// The value of the lowest rest bit.
const REST: u32 = 0x20_0000;

// The header word and its fields (document 001, tables 2 to 5).
#[derive(Clone, Copy)]
struct Header(u32);

impl Header {
    // RD, bit 31.
    fn rd(self) -> bool
        ensures { result ≡ rd_of self.0 }
    {
        self.0 / demorad::RD % 2 == 1
    }

    // The rest, bits 30 to 21.
    fn rest(self) -> u32
        ensures { result ≡ rest_of self.0 }
    {
        self.0 / REST % 1024
    }

    // The length in words with the header, bits 20 to 16.
    fn length(self) -> u32
        ensures { result ≡ length_of self.0 }
    {
        self.0 / demorad::LENGTH % 32
    }

    // The code, bits 15 to 0.
    fn code(self) -> u32
        ensures { result ≡ code_of self.0 }
    {
        self.0 % demorad::LENGTH
    }
}

// Refuses bytes that are not framed as a command: under 4, a rest bit set, length 0, not four times the length.
#[tactic(auto, unfolding(demorad::specs::Reading::framed))]
fn check_framing(bytes: &[u8], header: Header) -> Result<(), Refusal>
    requires { header.0 ≡ header_of bytes.now }
    ensures { result ≡ framed bytes.now }
{
    if bytes.len() < 4 {
        return Err(Refusal::CommandTooShort);
    }
    if header.rest() != 0 {
        return Err(Refusal::RestBitSet);
    }
    let length = header.length();
    if length == 0 {
        return Err(Refusal::LengthZero);
    }
    if bytes.len() != 4 * (length as usize) {
        return Err(Refusal::WrongSize);
    }
    Ok(())
}

// The payload words, the unused ones 0.
fn payload(bytes: &[u8], count: usize) -> [u32; 30]
    requires { (count ≤ max_payload) × (4 + 4 * count ≤ length bytes.now) }
    ensures { result ≡ padded (words_of count (drop 4 bytes.now)) }
{
    let mut words = [0u32; 30];
    for i in 0..count {
        words[i] = numbers::word_at(bytes, 4 + 4 * i);
    }
    words
}

// Reads the command that exactly these bytes are: 05 60 02 80 01 00 00 00 gives RD, code 6005 (hex), one word, 1.
pub fn read_command(bytes: &[u8]) -> Result<Command, Refusal>
    ensures { result ≡ read_command bytes.now }
{
    // 0 where fewer than four bytes are there, which are refused before it is looked at.
    let header = Header(numbers::word_at(bytes, 0));
    check_framing(bytes, header)?;
    let code = header.code();
    let count = header.length() - 1;
    let words = payload(bytes, count as usize);
    demorad::command_refusal(code, count, words)?;
    let rd = header.rd();
    Ok(Command {
        rd,
        code,
        count,
        words,
    })
}
