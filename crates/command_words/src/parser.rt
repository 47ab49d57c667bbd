//! Reading the words with `clap`.
ghost use Rattle.std.specs.Prelude.{◌≡◌, IfOk, IfErr, true, false, map, string_bytes, option_map};
ghost use Rattle.clap.specs.Words.{app_of, kind_of};
ghost use Rattle.clap.specs.Simple.{with_rule};
ghost use Rattle.clap.specs.declared.error.kind.ErrorKind.TheVariants.{OutOfMemory};
ghost use Rattle.command_words.specs.Names.{is_flag};
ghost use Rattle.command_words.specs.Given.{Given, text_in, is_given};
ghost use Rattle.command_words.specs.WordByWord.{is_good, given_of};
ghost use Rattle.command_words.specs.Parser.{parser, bare_parser, command_rule, option_rule, flag_rule, named_rule, with_all, Finds};

use crate::arguments::{Argument, OPTIONS};
use clap::{Arg, ArgAction, ArgMatches, Command, Error};
use std::alloc::{AllocError, Global};

fn with_command<'a>(
    parser: Command<'a>,
    alloc: Global,
    name: &'a str,
) -> Result<Command<'a>, AllocError>
    ensures { IfOk result (λ p. app_of p ≡ with_rule (app_of parser.entry) (command_rule name.entry.now)) }
{
    parser.arg(Arg::new(alloc, name).required(true))
}

fn with_option<'a>(
    parser: Command<'a>,
    alloc: Global,
    name: &'a str,
) -> Result<Command<'a>, AllocError>
    ensures { IfOk result (λ p. app_of p ≡ with_rule (app_of parser.entry) (option_rule name.entry.now)) }
{
    parser.arg(Arg::new(alloc, name).long(name))
}

fn with_flag<'a>(
    parser: Command<'a>,
    alloc: Global,
    name: &'a str,
) -> Result<Command<'a>, AllocError>
    ensures { IfOk result (λ p. app_of p ≡ with_rule (app_of parser.entry) (flag_rule name.entry.now)) }
{
    let flag = Arg::new(alloc, name).long(name).action(ArgAction::SetTrue);
    parser.arg(flag)
}

fn bare<'a>(alloc: Global) -> Command<'a>
    ensures { app_of result ≡ bare_parser }
{
    Command::new(alloc, "command")
        .no_binary_name(true)
        .disable_help_flag(true)
}

// Adds an option, which may be a flag.
fn with_named<'a>(
    parser: Command<'a>,
    alloc: Global,
    option: Argument,
) -> Result<Command<'a>, AllocError>
    ensures { IfOk result (λ p. app_of p ≡ with_rule (app_of parser.entry) (named_rule option)) }
{
    if option.is_flag() {
        with_flag(parser, alloc, option.name())
    } else {
        with_option(parser, alloc, option.name())
    }
}

// Adds options in their order.
fn with_all<'a>(
    mut parser: Command<'a>,
    alloc: Global,
    options: &[Argument],
) -> Result<Command<'a>, AllocError>
    ensures { IfOk result (λ p. app_of p ≡ with_all (app_of parser.entry) options.now) }
{
    for option in options {
        parser = with_named(parser, alloc, *option)?;
    }
    Ok(parser)
}

// The simple command that takes the words.
#[tactic(auto, unfolding(crate::specs::Parser::parser))]
fn clap_command<'a>(alloc: Global) -> Result<Command<'a>, AllocError>
    ensures { IfOk result (λ p. app_of p ≡ parser) }
{
    let command = with_command(bare(alloc), alloc, Argument::Command.name())?;
    with_all(command, alloc, &OPTIONS)
}

/// What `clap` finds in good words. An error is want of memory.
pub fn matches_of_words<'a>(alloc: Global, words: &'a [String]) -> Result<ArgMatches<'a>, Error>
    requires { is_good (map string_bytes words.now) ≡ true }
    ensures rows { IfOk result (λ m. Finds m (given_of (map string_bytes words.entry.now))) }
    ensures memory { IfErr result (λ e. kind_of e ≡ OutOfMemory) }
{
    let command = clap_command(alloc)?;
    command.try_get_matches_from(words)
}

/// The text that the command word or an option has.
pub fn text_of<'a>(matches: &ArgMatches<'a>, argument: Argument) -> Option<&'a str>
    ensures { (given : Given) → Finds matches.now given → is_flag argument ≡ false
        → option_map (λ t. t.now) result ≡ text_in argument given }
{
    matches.get_str(argument.name())
}

/// Whether a flag was given.
pub fn has_flag(matches: &ArgMatches<'_>, flag: Argument) -> bool
    ensures { (given : Given) → Finds matches.now given → is_flag flag ≡ true
        → result ≡ is_given flag given }
{
    matches.get_flag(flag.name())
}
