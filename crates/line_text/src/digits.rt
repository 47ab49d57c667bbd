//! Numbers.
ghost use Rattle.std.specs.Prelude.{◌≡◌, ◌-◌, ◌^◌, ◌≤◌, ◌<◌, min, IfOk};
ghost use Rattle.std.specs.List.{list_all};
ghost use Rattle.lock_model.specs.Limits.{Within, is_between};
ghost use Rattle.line_text.specs.Numbers.{is_digit, value, number};

use crate::steps::check;

/// Whether each byte is a digit.
fn are_digits(word: &[u8]) -> bool
    ensures { result ≡ list_all is_digit word.now }
{
    word.iter().all(|byte| matches!(*byte, b'0'..=b'9'))
}

/// The number that digits write, or the greatest of the type where it is greater.
fn value_of(digits: &[u8]) -> u32
    ensures { result ≡ min (value digits.now) (2 ^ 32 - 1) }
{
    let mut value: u32 = 0;
    for digit in digits {
        let digit = u32::from(digit.saturating_sub(b'0'));
        value = value.saturating_mul(10).saturating_add(digit);
    }
    value
}

/// Whether a number is from low to high.
fn is_between(low: u32, high: u32, n: u32) -> bool
    ensures { result ≡ is_between low high n }
{
    low <= n && n <= high
}

/// A number from low to high. Refuses with the first fault a word that is not all digits, and with
/// the second a number outside the limits.
#[tactic(auto, unfolding(crate::specs::Numbers::number))]
pub fn number<E: Drop>(
    word: &[u8],
    low: u32,
    high: u32,
    not_digits: E,
    out_of_range: E,
) -> Result<u32, E>
    requires { high < 4294967295 }
    ensures value { result ≡ number not_digits out_of_range low high word.now }
    ensures within { IfOk result (Within low high) }
{
    check(are_digits(word), not_digits)?;
    let value = value_of(word);
    check(is_between(low, high, value), out_of_range)?;
    Ok(value)
}
