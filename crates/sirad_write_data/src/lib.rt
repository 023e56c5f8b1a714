// The writer of SiRad's data frames, kinds 1 to 3, into a lent buffer (paper 01, "SiRad" and "Fields").
#![tactic(auto)]

ghost use Rattle.std.specs.Prelude.{◌≡◌, ◌+◌, ◌≤◌, length, IfOk};
ghost use Rattle.std.specs.List.{list_all};
ghost use Rattle.refusals.specs.Numbers.{refusal_number};
ghost use Rattle.digits.specs.Bytes.{is_character};
ghost use Rattle.digits.specs.Stores.{Writes, written_of, stored};
ghost use Rattle.sirad.specs.Table.{identifier};
ghost use Rattle.sirad_fields.specs.Fields.{data_refusal, data_bytes};
ghost use Rattle.sirad_fields.specs.Answers.{kind_number};

use refusals::Refusal;
use sirad_fields::{DATA_START, DataKind};

const MOST_CHARACTERS: usize = 65535;

// The letter of a kind.
fn identifier_of(kind: DataKind) -> u8
    ensures { result ≡ identifier (kind_number kind) }
{
    match kind {
        DataKind::Range => b'R',
        DataKind::Phase => b'P',
        DataKind::Cfar => b'C',
    }
}

fn all_characters(content: &[u8]) -> bool
    ensures { result ≡ list_all is_character content.now }
{
    content.iter().all(|b| digits::is_character(*b))
}

// The kind of the data, where kind and characters can be written; else 53, 52, 50, in this order.
fn check_data(kind: u32, content: &[u8]) -> Result<DataKind, Refusal>
    ensures refusal { refusal_number result ≡ data_refusal kind content.now }
    ensures kind { IfOk result (λ known. kind_number known ≡ kind) }
{
    let known = DataKind::try_from(kind)?;
    if content.len() > MOST_CHARACTERS {
        return Err(Refusal::TooManyCharacters);
    }
    if all_characters(content) {
        return Ok(known);
    }
    Err(Refusal::NoEncoding)
}

fn put_data(out: &mut [u8], kind: DataKind, content: &[u8])
    requires { (length content.now ≤ 65535) × (16 + length content.now ≤ length out.old) }
    ensures { out.new ≡ stored out.old 0 (data_bytes (kind_number kind) content.now) }
{
    let n = content.len();
    let id = identifier_of(kind);
    stores::put_pair(out, 0, sirad_judge::START_MARKER, id);
    hex_numbers::put_hex(out, 2, 4, n as u32);
    stores::put_run(out, 6, 8, b'0');
    stores::put_bytes(out, DATA_START, content);
    stores::put_pair(out, DATA_START + n, b'\r', b'\n');
}

// Writes a frame R, P or C (kinds 1 to 3) with these characters; refuses 53, 52, 50, 51, in this order.
// `write_data(out, 1, b"Z")` writes the 17 bytes `!R000100000000Z` CR LF.
pub fn write_data(out: &mut [u8], kind: u32, content: &[u8]) -> Result<usize, Refusal>
    ensures { Writes (data_refusal kind content.now)
        (data_bytes kind content.now) out.old (written_of result) out.new }
{
    let size = 16 + content.len();
    let known = stores::with_room(check_data(kind, content), size, out.len())?;
    put_data(out, known, content);
    Ok(size)
}
