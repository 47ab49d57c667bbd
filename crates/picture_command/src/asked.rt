//! What the words after the program's name ask for.
ghost use Rattle.std.specs.Prelude.{◌≡◌, ◌<◌, IsTrue, length, map, string_bytes};
ghost use Rattle.std.specs.Str.{bytes_eq};
ghost use Rattle.picture_command.specs.Asked.{is_digit, two_digits, clock_of, is_time, time_in, minute_in};
ghost use Rattle.picture_command.specs.Asked.{dial_with, dial_at, one_in, are_words, two_in, second_in, options_in, dial_in, asked_in};

use line_text::number;
use picture_page::{Clock, Dial};

/// The last minute that it may be.
const LATEST: u32 = 1_000_000;

/// Whether a byte is a digit.
fn is_digit(byte: u8) -> bool
    ensures { result ≡ is_digit byte }
{
    48 <= byte && byte <= 57
}

/// Two digits as a number.
fn two_digits(tens: u8, ones: u8) -> u16
    ensures value { result ≡ two_digits tens ones }
    ensures small { result < 4000 }
{
    tens.saturating_sub(48) as u16 * 10 + ones.saturating_sub(48) as u16
}

/// The clock at these hours and minutes of a day.
fn clock_of(hours: u16, minutes: u16) -> Option<Clock>
    ensures { result ≡ clock_of hours minutes }
{
    if hours < 24 && minutes < 60 {
        Some(Clock::Day(hours * 60 + minutes))
    } else {
        None
    }
}

/// Whether a word has the form `HH:MM`.
fn is_time(word: &[u8]) -> bool
    ensures value { result ≡ is_time word.now }
    ensures long { IsTrue result → length word.now ≡ 5 }
{
    word.len() == 5
        && word[2] == b':'
        && is_digit(word[0])
        && is_digit(word[1])
        && is_digit(word[3])
        && is_digit(word[4])
}

/// The clock that a time of day says, as `HH:MM`.
fn time_in(word: &[u8]) -> Option<Clock>
    ensures { result ≡ time_in word.now }
{
    if is_time(word) {
        clock_of(two_digits(word[0], word[1]), two_digits(word[3], word[4]))
    } else {
        None
    }
}

/// Whether two words are the same.
fn is_word(word: &String, text: &[u8]) -> bool
    ensures { result ≡ bytes_eq (string_bytes word.now) text.now }
{
    word.as_bytes() == text
}

/// The minute that one to ten digits say.
fn minute_in(word: &[u8]) -> Option<u32>
    ensures { result ≡ minute_in word.now }
{
    if 0 < word.len() && word.len() <= 10 {
        number(word, 0, LATEST, (), ()).ok()
    } else {
        None
    }
}

/// The dial of a clock, where there is one.
fn dial_with(clock: Option<Clock>, present: Option<u32>) -> Option<Dial>
    ensures { result ≡ dial_with clock present }
{
    match clock {
        None => None,
        Some(clock) => Some(Dial { clock, present }),
    }
}

/// The dial of a clock and the minute that it is, where there are both.
fn dial_at(clock: Option<Clock>, minute: Option<u32>) -> Option<Dial>
    ensures { result ≡ dial_at clock minute }
{
    match minute {
        None => None,
        Some(minute) => dial_with(clock, Some(minute)),
    }
}

/// The dial that one option and its text ask for.
fn one_in(option: &String, text: &String) -> Option<Dial>
    ensures { result ≡ one_in (string_bytes option.now) (string_bytes text.now) }
{
    if is_word(option, b"--clock") {
        dial_with(time_in(text.as_bytes()), None)
    } else if is_word(option, b"--now") {
        dial_at(Some(Clock::Minutes), minute_in(text.as_bytes()))
    } else {
        None
    }
}

/// Whether two options are these, in this order.
fn are_words(first: &String, second: &String, before: &[u8], behind: &[u8]) -> bool
    ensures { result ≡ are_words (string_bytes first.now) (string_bytes second.now) before.now behind.now }
{
    is_word(first, before) && is_word(second, behind)
}

/// The dial that two options and their texts ask for.
fn two_in(first: &String, text: &String, second: &String, other: &String) -> Option<Dial>
    ensures { result ≡ two_in (string_bytes first.now) (string_bytes text.now) (string_bytes second.now) (string_bytes other.now) }
{
    if are_words(first, second, b"--clock", b"--now") {
        dial_at(time_in(text.as_bytes()), minute_in(other.as_bytes()))
    } else if are_words(first, second, b"--now", b"--clock") {
        dial_at(time_in(other.as_bytes()), minute_in(text.as_bytes()))
    } else {
        None
    }
}

/// The dial that an option and its text, a second option and the words behind it ask for.
fn second_in(first: &String, text: &String, second: &String, rest: &[String]) -> Option<Dial>
    ensures { result ≡ second_in (string_bytes first.now) (string_bytes text.now) (string_bytes second.now) (map string_bytes rest.now) }
{
    match rest {
        [] => None,
        [other, last @ ..] => match last {
            [] => two_in(first, text, second, other),
            [_, ..] => None,
        },
    }
}

/// The dial that an option, its text and the words behind them ask for.
fn options_in(option: &String, text: &String, rest: &[String]) -> Option<Dial>
    ensures { result ≡ options_in (string_bytes option.now) (string_bytes text.now) (map string_bytes rest.now) }
{
    match rest {
        [] => one_in(option, text),
        [second, more @ ..] => second_in(option, text, second, more),
    }
}

/// The dial that the last words ask for.
fn dial_in(words: &[String]) -> Option<Dial>
    ensures { result ≡ dial_in (map string_bytes words.now) }
{
    match words {
        [] => dial_with(Some(Clock::Minutes), None),
        [option, rest @ ..] => match rest {
            [] => None,
            [text, more @ ..] => options_in(option, text, more),
        },
    }
}

/// The dial of the picture that the words ask for, or `None` where they are bad.
pub(crate) fn asked_in(words: &[String]) -> Option<Dial>
    ensures { result ≡ asked_in (map string_bytes words.now) }
{
    match words {
        [] => None,
        [command, rest @ ..] => {
            if is_word(command, b"picture") {
                dial_in(rest)
            } else {
                None
            }
        }
    }
}
