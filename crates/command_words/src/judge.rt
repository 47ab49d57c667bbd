//! Which words are good.
ghost use Rattle.std.specs.Prelude.{◌≡◌, ◌↔◌, IsTrue, true, map, string_bytes, not, ◌||◌};
ghost use Rattle.std.specs.List.{list_all};
ghost use Rattle.clap.specs.Words.{takes};
ghost use Rattle.command_words.specs.Names.{is_for, needs_minute, options};
ghost use Rattle.command_words.specs.Given.{is_given};
ghost use Rattle.command_words.specs.Meaning.{IsGood};
ghost use Rattle.command_words.specs.Parser.{parser};
ghost use Rattle.command_words.specs.WordByWord.{PartialLine as AnyLine, has_minute, is_good, is_whole};
ghost use Rattle.command_words.specs.Stands.{Stands};

use crate::arguments::{Argument, OPTIONS};
use crate::command_names::CommandName;
use crate::partial_line::{PartialLine, start};
use crate::word_by_word::read_word;

fn fits(line: &PartialLine, command: CommandName, option: Argument) -> bool
    ensures { (l : AnyLine) → Stands line.now l
        → result ≡ (not (is_given option l.given) || is_for command option) }
{
    !line.seen[option.place()] || command.takes(option)
}

fn all_fit(line: &PartialLine, command: CommandName, options: &[Argument]) -> bool
    ensures { (l : AnyLine) → Stands line.now l
        → result ≡ list_all (λ a. not (is_given a l.given) || is_for command a) options.now }
{
    for option in options {
        if !fits(line, command, *option) {
            return false;
        }
    }
    true
}

fn has_minute(line: &PartialLine) -> bool
    ensures { (l : AnyLine) → Stands line.now l → result ≡ has_minute l.given }
{
    if line.seen[Argument::From.place()] {
        !line.seen[Argument::Now.place()]
    } else {
        line.seen[Argument::Now.place()]
    }
}

fn has_needed(line: &PartialLine, command: CommandName) -> bool
    ensures { (l : AnyLine) → Stands line.now l
        → result ≡ (not (needs_minute command) || has_minute l.given) }
{
    !command.needs_minute() || has_minute(line)
}

#[tactic(auto, unfolding(crate::specs::WordByWord::is_whole))]
fn is_whole(line: &PartialLine) -> bool
    ensures { (l : AnyLine) → Stands line.now l → result ≡ is_whole l }
{
    if line.due.is_some() {
        return false;
    }
    match line.command {
        Some(command) => all_fit(line, command, &OPTIONS) && has_needed(line, command),
        None => false,
    }
}

/// The words are good when they are read one after the other.
pub fn are_good(words: &[String]) -> bool
    ensures { result ≡ is_good (map string_bytes words.now) }
{
    let mut line = start();
    for word in words {
        match read_word(&line, word.as_bytes()) {
            Some(next) => line = next,
            None => return false,
        }
    }
    is_whole(&line)
}

/// Whether the words are good, but for the ranges of their numbers.
///
/// `words` are those after the program's name. Good words write each argument at most once, the
/// options before or after the command and before a word `--`, and each text is one to ten digits.
/// They are what `IsGood` of `specs/Meaning.antt` says. The program's simple command of `clap`
/// takes all of them. No memory is used.
pub fn good_words(words: &[String]) -> bool
    ensures good { IsTrue result ↔ IsGood (map string_bytes words.now) }
    ensures taken { IsTrue result → takes parser (map string_bytes words.now) ≡ true }
{
    are_good(words)
}
