// The C face of DemoRad commands: the reader and the writer under names for C, with RD as a number.
// A slice is a pointer that is not null and a count; a struct crosses by value.
#![tactic(auto)]

ghost use Rattle.std.specs.Prelude.{◌≡◌};
ghost use Rattle.digits.specs.Stores.{Writes, written_of};
ghost use Rattle.demorad.specs.Reading.{read_command};
ghost use Rattle.fields_command.specs.Numbers.{command_numbers, numbers_refusal, numbers_bytes};

use demorad::Command;
use digits::Written;
use refusals::Refusal;

// A command: the refusal number (0: none), RD as 0 or 1, the code, the payload count and thirty words.
// A host may hand over any number as RD, so it is no `bool` here.
#[repr(C)]
#[derive(Clone, Copy)]
pub struct CommandNumbers {
    pub refusal: u32,
    pub rd: u32,
    pub code: u32,
    pub count: u32,
    pub words: [u32; 30],
}

impl From<Result<Command, Refusal>> for CommandNumbers {
    ghost from_gives = { λ answer numbers. numbers ≡ command_numbers answer };

    fn from(answer: Result<Command, Refusal>) -> CommandNumbers {
        match answer {
            Ok(command) => {
                let words = command.words;
                CommandNumbers {
                    refusal: 0,
                    rd: u32::from(command.rd),
                    code: command.code,
                    count: command.count,
                    words,
                }
            }
            Err(refusal) => CommandNumbers {
                refusal: refusal.number(),
                rd: 0,
                code: 0,
                count: 0,
                words: [0; 30],
            },
        }
    }
}

// The command that exactly these bytes are; 40 to 46, rising.
#[unsafe(no_mangle)]
pub extern "C" fn vq_read_command(bytes: &[u8]) -> CommandNumbers
    ensures { result ≡ command_numbers (read_command bytes.now) }
{
    CommandNumbers::from(demorad_read::read_command(bytes))
}

// Writes a command's numbers; an RD over 1 is refused behind the code, the count and the selection.
#[tactic(auto, unfolding(crate::specs::Numbers::numbers_refusal, crate::specs::Numbers::numbers_bytes))]
fn write_numbers(out: &mut [u8], command: CommandNumbers) -> Result<usize, Refusal>
    ensures { Writes (numbers_refusal command) (numbers_bytes command) out.old (written_of result) out.new }
{
    if 1 < command.rd {
        demorad::command_refusal(command.code, command.count, command.words)?;
        return Err(Refusal::NoEncoding);
    }
    let rd = command.rd == 1;
    demorad_write::write_command(out, rd, command.code, command.count, command.words)
}

// Writes a command with RD, code, count and words of `command`, whose refusal counts for nothing; 44, 45, 46, 50 (an RD over 1), 51.
#[unsafe(no_mangle)]
pub extern "C" fn vq_write_command(out: &mut [u8], command: CommandNumbers) -> Written
    ensures { Writes (numbers_refusal command) (numbers_bytes command) out.old result out.new }
{
    Written::from(write_numbers(out, command))
}
