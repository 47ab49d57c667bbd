//! From words to a command.
ghost use Rattle.std.specs.Prelude.{◌≡◌, ◌⊎◌, IfOk, IfSome, IsErrOf, map, string_bytes};
ghost use Rattle.command_words.specs.Given.{Given};
ghost use Rattle.command_words.specs.Meaning.{IsGood, MeanCommand, AreBad, Gives, GivesOptions, name_of_command};
ghost use Rattle.command_words.specs.Parser.{Finds};
ghost use Rattle.command_words.specs.declared.commands.Command.{Command as AnyCommand};

use crate::arguments::Argument;
use crate::command_names::{CommandName, command_named};
use crate::commands::Command;
use crate::errors::WordsError;
use crate::judge::are_good;
use crate::options::{lot_options, replan_options, solve_options, trial_options};
use crate::parser::{matches_of_words, text_of};
use clap::ArgMatches;
use std::alloc::Global;

// The command of this name with its options, if their numbers are in their ranges.
fn with_options(matches: &ArgMatches<'_>, name: CommandName) -> Option<Command>
    ensures name { IfSome result (λ c. name_of_command c ≡ name) }
    ensures some { (given : Given) → Finds matches.now given → IfSome result (λ c. GivesOptions c given) }
    ensures each { (given : Given) (c : AnyCommand) → Finds matches.now given → name_of_command c ≡ name
        → GivesOptions c given → result ≡ Some c }
{
    match name {
        CommandName::Solve => Some(Command::Solve(solve_options(matches)?)),
        CommandName::Check => Some(Command::Check),
        CommandName::Lot => Some(Command::Lot(lot_options(matches)?)),
        CommandName::Trial => Some(Command::Trial(trial_options(matches)?)),
        CommandName::Judge => Some(Command::Judge),
        CommandName::Play => Some(Command::Play),
        CommandName::Replan => Some(Command::Replan(replan_options(matches)?)),
        CommandName::Lower => Some(Command::Lower),
        CommandName::Resume => Some(Command::Resume(solve_options(matches)?)),
    }
}

// The command that the texts give, if its numbers are in their ranges.
fn command_of(matches: &ArgMatches<'_>) -> Option<Command>
    ensures some { (given : Given) → Finds matches.now given → IfSome result (λ c. Gives given c) }
    ensures each { (given : Given) (c : AnyCommand) → Finds matches.now given → Gives given c → result ≡ Some c }
{
    let word = text_of(matches, Argument::Command)?;
    let name = command_named(word.as_bytes())?;
    with_options(matches, name)
}

/// The command that the words mean, with its options and their defaults.
///
/// `words` are those after the program's name. `Ok` gives the one command that the words mean, as
/// `MeanCommand` of `specs/Meaning.antt` says. `Bad` comes exactly where they mean none, want of memory
/// aside: they aren't good, or a number is out of its range. Words that aren't good are `Bad` at
/// once and use no memory. Inlined, what reading them needs would be on the stack of the whole run.
#[inline(never)]
pub fn read_words(alloc: Global, words: &[String]) -> Result<Command, WordsError>
    ensures ok { IfOk result (λ c. MeanCommand (map string_bytes words.now) c) }
    ensures bad { IsErrOf result WordsError.Bad → AreBad (map string_bytes words.now) }
    ensures each { (c : AnyCommand) → MeanCommand (map string_bytes words.now) c
        → (result ≡ Ok c) ⊎ IsErrOf result WordsError.NoMemory }
    ensures early { ¬ IsGood (map string_bytes words.now) → IsErrOf result WordsError.Bad }
{
    if !are_good(words) {
        return Err(WordsError::Bad);
    }
    match matches_of_words(alloc, words) {
        Ok(matches) => command_of(&matches).ok_or(WordsError::Bad),
        Err(_) => Err(WordsError::NoMemory),
    }
}
