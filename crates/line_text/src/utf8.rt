//! Whether a text is UTF-8.
ghost use Rattle.std.specs.Prelude.{◌≡◌, true, false, length, IfErr, OnOk};
ghost use Rattle.std.specs.Str.{is_utf8};
ghost use Rattle.line_text.specs.Lines.{lines, line_of_fault};

use crate::lines::Lines;

/// How many lines a text has.
fn count_lines(text: &[u8]) -> u64
    ensures { result ≡ length (lines text.now) }
{
    let mut lines = Lines::new(text);
    'counting: while lines.next().is_some() {}
    lines.number()
}

/// Refuses bytes that are not UTF-8 with the number of the line where their longest front that is
/// ends.
#[tactic(auto, unfolding(crate::specs::Lines::line_of_fault))]
pub fn check_utf8(bytes: &[u8]) -> Result<(), u64>
    ensures text { OnOk result (is_utf8 bytes.now ≡ true) }
    ensures fault { IfErr result (λ line. is_utf8 bytes.now ≡ false) }
    ensures at { IfErr result (λ line. line ≡ line_of_fault bytes.now) }
{
    match str::from_utf8(bytes) {
        Ok(_) => Ok(()),
        Err(fault) => Err(count_lines(&bytes[..fault.valid_up_to()])),
    }
}
