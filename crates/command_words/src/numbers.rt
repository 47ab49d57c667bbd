//! The numbers of the options.
ghost use Rattle.std.specs.Prelude.{◌≡◌, ◌<◌, ◌≤◌, ℕ, true, false, IfSome, option_map};
ghost use Rattle.std.specs.Str.Parse.{digits_value};
ghost use Rattle.command_words.specs.Names.{is_flag};
ghost use Rattle.command_words.specs.Given.{Given};
ghost use Rattle.command_words.specs.Numbers.{is_number, number_written, lowest, highest, default_of, IsNumberOf};
ghost use Rattle.command_words.specs.Parser.{Finds};

use crate::arguments::Argument;
use crate::parser::text_of;
use crate::texts::is_number;
use clap::ArgMatches;
use lock_model::{CHAMBERS, SHIPS, WORKERS};

// The numbers that an option takes, and the one that it has where it isn't given.
#[derive(Clone, Copy)]
struct NumberRange {
    lowest: u32,
    highest: u32,
    default: u32,
}

fn range(lowest: u32, highest: u32, default: u32) -> NumberRange
    ensures { result ≡ record { lowest = lowest; highest = highest; default = default } }
{
    NumberRange {
        lowest,
        highest,
        default,
    }
}

fn range_of(option: Argument) -> NumberRange
    ensures lowest { result.lowest ≡ lowest option }
    ensures highest { result.highest ≡ highest option }
    ensures default { result.default ≡ default_of option }
{
    match option {
        Argument::Nodes => range(1, 1_000_000, 100_000),
        Argument::Turns => range(1, 200_000, 20_000),
        Argument::Workers => range(1, WORKERS as u32, 2),
        Argument::Number => range(0, 4_294_967_295, 1),
        Argument::Ships => range(1, SHIPS as u32, 12),
        Argument::Chambers => range(1, CHAMBERS as u32, 2),
        Argument::From | Argument::Now => range(0, 1_000_000, 0),
        Argument::Command | Argument::Dossier | Argument::Keep => range(0, 0, 0),
    }
}

// The number that the digits write.
fn digits_value(text: &str) -> u64
    requires { is_number text.now ≡ true }
    ensures { result ≡ digits_value 10 text.now }
{
    match text.parse::<u64>() {
        Ok(number) => number,
        Err(_) => 0,
    }
}

// The number that a text writes, or the default where there is no text.
fn number_written(text: Option<&str>, default: u32) -> Option<u64>
    ensures { result ≡ number_written default (option_map (λ t. t.now) text.entry) }
{
    match text {
        Some(text) if is_number(text.as_bytes()) => Some(digits_value(text)),
        Some(_) => None,
        None => Some(u64::from(default)),
    }
}

fn in_range(number: u64, range: &NumberRange) -> Option<u32>
    ensures same { IfSome result (λ n. n ≡ number) }
    ensures low { IfSome result (λ n. range.now.lowest ≤ n) }
    ensures high { IfSome result (λ n. n ≤ range.now.highest) }
    ensures each { range.now.lowest ≤ number → number ≤ range.now.highest → result ≡ Some number }
{
    let highest = range.highest;
    if u64::from(range.lowest) <= number && number <= u64::from(highest) {
        Some(number as u32)
    } else {
        None
    }
}

/// The number of an option, given or by default, if it is in its range.
pub fn number_of(matches: &ArgMatches<'_>, option: Argument) -> Option<u32>
    requires { is_flag option ≡ false }
    ensures some { (given : Given) → Finds matches.now given → IfSome result (λ n. IsNumberOf option given n) }
    ensures each { (given : Given) (n : ℕ) → Finds matches.now given → IsNumberOf option given n
        → result ≡ Some n }
    ensures high { IfSome result (λ n. n ≤ highest option) }
{
    let range = range_of(option);
    let number = number_written(text_of(matches, option), range.default)?;
    in_range(number, &range)
}

/// The same of an option whose numbers are small.
pub fn small_number_of(matches: &ArgMatches<'_>, option: Argument) -> Option<u8>
    requires plain { is_flag option ≡ false }
    requires small { highest option < 256 }
    ensures some { (given : Given) → Finds matches.now given → IfSome result (λ n. IsNumberOf option given n) }
    ensures each { (given : Given) (n : ℕ) → Finds matches.now given → IsNumberOf option given n
        → result ≡ Some n }
{
    let number = number_of(matches, option)?;
    Some(number as u8)
}
