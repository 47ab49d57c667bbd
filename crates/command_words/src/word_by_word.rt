//! The step from one word to the next.
ghost use Rattle.std.specs.Prelude.{◌≡◌, None, false, Some, option_and_then};
ghost use Rattle.command_words.specs.Names.{is_command, option_named};
ghost use Rattle.command_words.specs.WordByWord.{PartialLine as AnyLine, named, option_word, open_word, plain_or_hyphen, one_hyphen, two_hyphens, behind, read_word};
ghost use Rattle.command_words.specs.Stands.{Stands, StepsTo};

use crate::arguments::{Argument, option_named};
use crate::partial_line::{PartialLine, closed, filled, waiting, with_command, with_text};
use crate::texts::{behind_hyphen, equals_at};

// The name of an option, with a text behind `=`.
#[tactic(auto, unfolding(crate::specs::WordByWord::named))]
fn joined(line: &PartialLine, option: Argument, text: &[u8]) -> Option<PartialLine>
    ensures { (l : AnyLine) → Stands line.now l → is_command option ≡ false
        → StepsTo result (named option (Some text.now) l) }
{
    if option.is_flag() {
        None
    } else {
        with_text(line, option, text)
    }
}

// The name of an option alone.
#[tactic(auto, unfolding(crate::specs::WordByWord::named))]
fn alone(line: &PartialLine, option: Argument) -> Option<PartialLine>
    ensures { (l : AnyLine) → Stands line.now l → is_command option ≡ false
        → StepsTo result (named option None l) }
{
    if option.is_flag() {
        filled(line, option)
    } else {
        Some(waiting(line, option))
    }
}

fn joined_word(line: &PartialLine, name: &[u8], text: &[u8]) -> Option<PartialLine>
    ensures { (l : AnyLine) → Stands line.now l
        → StepsTo result (option_and_then (λ a. named a (Some text.now) l) (option_named name.now)) }
{
    match option_named(name) {
        Some(option) => joined(line, option, text),
        None => None,
    }
}

fn alone_word(line: &PartialLine, name: &[u8]) -> Option<PartialLine>
    ensures { (l : AnyLine) → Stands line.now l
        → StepsTo result (option_and_then (λ a. named a None l) (option_named name.now)) }
{
    match option_named(name) {
        Some(option) => alone(line, option),
        None => None,
    }
}

// A name behind `--`, alone or with its text.
#[tactic(auto, unfolding(crate::specs::WordByWord::option_word))]
fn option_word(line: &PartialLine, text: &[u8]) -> Option<PartialLine>
    ensures { (l : AnyLine) → Stands line.now l → StepsTo result (option_word text.now l) }
{
    match equals_at(text) {
        Some(i) => {
            let name = &text[..i];
            let rest = &text[i + 1..];
            joined_word(line, name, rest)
        }
        None => alone_word(line, text),
    }
}

// What stands behind `--`.
fn two_hyphens(line: &PartialLine, text: &[u8]) -> Option<PartialLine>
    ensures { (l : AnyLine) → Stands line.now l → l.due ≡ None → StepsTo result (two_hyphens text.now l) }
{
    if text.is_empty() {
        Some(closed(line))
    } else {
        option_word(line, text)
    }
}

// What stands behind `-`.
fn one_hyphen(line: &PartialLine, rest: &[u8]) -> Option<PartialLine>
    ensures { (l : AnyLine) → Stands line.now l → l.due ≡ None
        → StepsTo result (one_hyphen (behind 45 rest.now) l) }
{
    match behind_hyphen(rest) {
        Some(text) => two_hyphens(line, text),
        None => None,
    }
}

// A word where no option waits.
fn idle_word(line: &PartialLine, word: &[u8]) -> Option<PartialLine>
    ensures { (l : AnyLine) → Stands line.now l → l.due ≡ None
        → StepsTo result (plain_or_hyphen word.now (behind 45 word.now) l) }
{
    match behind_hyphen(word) {
        Some(rest) => one_hyphen(line, rest),
        None => with_command(line, word),
    }
}

// A word before `--`.
fn open_word(line: &PartialLine, word: &[u8]) -> Option<PartialLine>
    ensures { (l : AnyLine) → Stands line.now l → StepsTo result (open_word l.due word.now l) }
{
    match line.due {
        Some(option) => with_text(line, option, word),
        None => idle_word(line, word),
    }
}

/// One more word, unless it makes the words bad.
#[tactic(auto, unfolding(crate::specs::WordByWord::read_word))]
pub fn read_word(line: &PartialLine, word: &[u8]) -> Option<PartialLine>
    ensures { (l : AnyLine) → Stands line.now l → StepsTo result (read_word word.now l) }
{
    if line.is_open {
        open_word(line, word)
    } else {
        with_command(line, word)
    }
}
