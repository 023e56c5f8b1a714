// The input of the programs that run cases: slices one after another, each behind its length in four bytes, least significant first.
#![tactic(auto)]

ghost use Rattle.std.specs.Prelude.{◌≡◌};
ghost use Rattle.case_input.specs.Cases.{case_end, case_at};

// Where the case at an offset ends; 0 where no whole case is there.
// `case_end(b"\x02\0\0\0!R", 0)` is 6.
pub fn case_end(input: &[u8], at: usize) -> usize
    ensures { result ≡ case_end input.now at }
{
    if input.len() < at {
        return 0;
    }
    let rest = input.len() - at;
    if rest < 4 {
        return 0;
    }
    let size = numbers::word_at(input, at) as usize;
    if rest - 4 < size {
        return 0;
    }
    at + 4 + size
}

// The slice of the case at an offset; empty where no whole case is there.
pub fn case_at<'a>(input: &'a [u8], at: usize) -> &'a [u8]
    ensures { result.now ≡ case_at input.now at }
{
    let end = case_end(input, at);
    if end <= at {
        return &input[..0];
    }
    let from = at + 4;
    &input[from..end]
}
