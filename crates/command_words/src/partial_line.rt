//! What the words so far gave.
ghost use Rattle.std.specs.Prelude.{◌≡◌, ℕ, List, None, false};
ghost use Rattle.command_words.specs.Names.{is_command};
ghost use Rattle.command_words.specs.WordByWord.{PartialLine as AnyLine, start, filled, with_text};
ghost use Rattle.command_words.specs.Stands.{Stands, StepsTo};
ghost use Rattle.command_words.specs.declared.arguments.Argument.TheVariants.{Command as Command_argument};

use crate::arguments::Argument;
use crate::command_names::{CommandName, command_named};
use crate::texts::is_number;

/// The arguments that were seen, the command if its word is one, the option that waits for its
/// text, and whether no `--` has come.
#[derive(Clone, Copy)]
pub struct PartialLine {
    pub seen: [bool; 11],
    pub command: Option<CommandName>,
    pub due: Option<Argument>,
    pub is_open: bool,
}

/// Nothing was read yet.
pub fn start() -> PartialLine
    ensures { Stands result start }
{
    PartialLine {
        seen: [false; 11],
        command: None,
        due: None,
        is_open: true,
    }
}

/// The argument gets a text, unless it has one.
pub fn filled(line: &PartialLine, argument: Argument) -> Option<PartialLine>
    ensures { (l : AnyLine) (t : List ℕ) → Stands line.now l → is_command argument ≡ false
        → StepsTo result (filled argument t l) }
{
    let place = argument.place();
    if line.seen[place] {
        return None;
    }
    let mut seen = line.seen;
    seen[place] = true;
    Some(PartialLine {
        seen,
        command: line.command,
        due: None,
        is_open: line.is_open,
    })
}

/// A plain word is the command, unless one has come.
pub fn with_command(line: &PartialLine, word: &[u8]) -> Option<PartialLine>
    ensures { (l : AnyLine) → Stands line.now l → StepsTo result (filled Command_argument word.now l) }
{
    let first = Argument::Command.place();
    if line.seen[first] {
        return None;
    }
    let mut seen = line.seen;
    seen[first] = true;
    Some(PartialLine {
        seen,
        command: command_named(word),
        due: None,
        is_open: line.is_open,
    })
}

/// An option gets its text, which is one to ten digits.
#[tactic(auto, unfolding(crate::specs::WordByWord::with_text))]
pub fn with_text(line: &PartialLine, option: Argument, text: &[u8]) -> Option<PartialLine>
    ensures { (l : AnyLine) → Stands line.now l → is_command option ≡ false
        → StepsTo result (with_text option text.now l) }
{
    if is_number(text) {
        filled(line, option)
    } else {
        None
    }
}

/// An option waits for its text.
pub fn waiting(line: &PartialLine, option: Argument) -> PartialLine
    ensures { (l : AnyLine) → Stands line.now l → is_command option ≡ false
        → Stands result (record l { due = Some option }) }
{
    PartialLine {
        seen: line.seen,
        command: line.command,
        due: Some(option),
        is_open: line.is_open,
    }
}

/// No option follows.
pub fn closed(line: &PartialLine) -> PartialLine
    ensures { (l : AnyLine) → Stands line.now l → l.due ≡ None
        → Stands result (record l { is_open = false }) }
{
    PartialLine {
        seen: line.seen,
        command: line.command,
        due: None,
        is_open: false,
    }
}
