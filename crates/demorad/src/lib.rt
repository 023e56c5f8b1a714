// DemoRad commands (paper 01, "DemoRad"; document 001): what a command is, and which are legal.
// `demorad_read` reads them, `demorad_write` writes them.
#![tactic(auto)]

ghost use Rattle.std.specs.Prelude.{◌≡◌, length};
ghost use Rattle.demorad.specs.Rules.{counts, selects, rule_of, checked, max_payload};

use refusals::Refusal;

// The command codes (document 001, table 6). A command may carry any number as its code, so these are constants and no enum.
const DSP_EN_TST_DAT: u32 = 0x6005;

const DSP_SET_ADI_CFG: u32 = 0x6006;

const DSP_WR_CAL_DAT: u32 = 0x6007;

const DSP_GET_STS: u32 = 0x6008;

const DSP_GET_CHIRP: u32 = 0x7003;

const GET_VERS_INF: u32 = 0x900E;

const DSP_SET_SPI: u32 = 0x9017;

// The most payload words: five bits hold a length of 31, the header counted.
const MAX_PAYLOAD: u32 = 30;

// The values of the header's lowest bit of each field; the code is what is below the length.
pub const RD: u32 = 0x8000_0000;

pub const LENGTH: u32 = 0x1_0000;

// A command: RD, the code, the payload count and thirty words, of which the counted ones are its payload.
#[derive(Clone, Copy)]
pub struct Command {
    pub rd: bool,
    pub code: u32,
    pub count: u32,
    pub words: [u32; 30],
}

// A payload word that selects: the one at `index`, counted from 0, is at most `top`.
#[derive(Clone, Copy)]
pub struct Selection {
    pub index: usize,
    pub top: u32,
}

// What a code allows: its fewest and most payload words, and which of them selects, if one does.
#[derive(Clone, Copy)]
pub struct Rule {
    pub least: u32,
    pub most: u32,
    pub selection: Option<Selection>,
}

// -- Legality

// The rule of a code whose words may have any value.
fn counted(least: u32, most: u32) -> Rule
    ensures { result ≡ counts least most }
{
    Rule {
        least,
        most,
        selection: None,
    }
}

// The rule of a code with a selection.
fn selecting(least: u32, most: u32, index: usize, top: u32) -> Rule
    ensures { result ≡ selects least most index top }
{
    Rule {
        least,
        most,
        selection: Some(Selection { index, top }),
    }
}

// The rule of a code, if document 001 lists it.
#[tactic(auto, unfolding(crate::specs::Rules::rule_of))]
fn rule_of(code: u32) -> Option<Rule>
    ensures { result ≡ rule_of code }
{
    match code {
        DSP_EN_TST_DAT => Some(counted(1, 1)),
        DSP_SET_ADI_CFG => Some(selecting(1, 1, 0, 4)),
        DSP_WR_CAL_DAT => Some(selecting(1, MAX_PAYLOAD, 0, 3)),
        DSP_GET_STS => Some(counted(0, MAX_PAYLOAD)),
        DSP_GET_CHIRP => Some(counted(2, 2)),
        GET_VERS_INF => Some(counted(0, MAX_PAYLOAD)),
        DSP_SET_SPI => Some(selecting(2, MAX_PAYLOAD, 1, 3)),
        _ => None,
    }
}

// The refusal of a command's values, if there is one: 44, 45, 46, in this order. Code 6006 (hex) with one word, 5, is 46.
// The array's length is promised for callers that only pass it on.
#[tactic(auto, unfolding(crate::specs::Rules::checked))]
pub fn command_refusal(code: u32, count: u32, words: [u32; 30]) -> Result<(), Refusal>
    ensures value { result ≡ checked code count words }
    ensures thirty { length words ≡ max_payload }
{
    let Some(rule) = rule_of(code) else {
        return Err(Refusal::UnknownCode);
    };
    if count < rule.least || rule.most < count {
        return Err(Refusal::WrongCount);
    }
    let Some(selection) = rule.selection else {
        return Ok(());
    };
    if selection.top < words[selection.index] {
        return Err(Refusal::WrongSelection);
    }
    Ok(())
}
