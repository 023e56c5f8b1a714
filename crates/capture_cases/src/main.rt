// Splits each capture of standard input at each of its offsets into two lines, and prints which part is chosen: of the standby line (1) or
// the main line (0), its offset and size, and the length and checksum of the line that is lent. A capture is its dialect, its length (two
// bytes, least significant first) and its bytes. (The host's tests ask the C face for judgements and readings of the same captures.)
#![tactic(auto)]

use capture::Part;
use capture_lines::{choose_line, choose_part};
use std::io;
use std::io::Read;

// The most bytes of input that are read.
const MOST_INPUT: u64 = 65536;

fn mixed(sum: u64, b: u8) -> u64 {
    (sum % 16777213 * 241 + b as u64) % 16777213
}

fn checksum(bytes: &[u8]) -> u64 {
    bytes.iter().fold(0, |sum, b| mixed(sum, *b))
}

fn print_part(rt: &impl Print, p: Part, line: &[u8]) -> io::Result<()> {
    let standby = p.standby as u64;
    let offset = p.offset;
    let size = p.size;
    let lent = line.len();
    let sum = checksum(line);
    print!(rt; " | {standby} {offset} {size} {lent} {sum}\n")
}

fn choose_all(rt: &impl Print, dialect: u32, bytes: &[u8]) -> io::Result<()> {
    for k in 0..=bytes.len() {
        let main = &bytes[..k];
        let standby = &bytes[k..];
        print!(rt; "split {k}")?;
        print_part(
            rt,
            choose_part(dialect, main, standby),
            choose_line(dialect, main, standby),
        )?;
    }
    Ok(())
}

fn case(rt: &impl Print, dialect: u8, bytes: &[u8]) -> io::Result<()> {
    let size = bytes.len();
    print!(rt; "capture {dialect} {size}\n")?;
    choose_all(rt, dialect as u32, bytes)
}

fn cases(rt: &impl Print, input: &[u8]) -> io::Result<()> {
    let mut at: usize = 0;
    while 3 <= input.len() - at {
        let from = at + 3;
        let size = u16::from_le_bytes([input[at + 1], input[at + 2]]) as usize;
        if input.len() - from < size {
            return Ok(());
        }
        let to = from + size;
        case(rt, input[at], &input[from..to])?;
        at = to;
    }
    Ok(())
}

fn main(rt: HostRuntime) -> io::Result<()> {
    let mut input = Vec::new(rt.alloc());
    rt.reader().take(MOST_INPUT).read_to_end(&mut input)?;
    cases(&rt, &input)
}
