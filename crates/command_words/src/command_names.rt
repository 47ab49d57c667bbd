//! The words that name the commands, and which options are for which command.
ghost use Rattle.std.specs.Prelude.{◌≡◌, find};
ghost use Rattle.std.specs.Str.{bytes_eq};
ghost use Rattle.command_words.specs.Names.{word_of, command_named, is_for, needs_minute};

use crate::arguments::Argument;

/// A command without its options.
#[derive(Clone, Copy)]
pub enum CommandName {
    Solve,
    Check,
    Lot,
    Trial,
    Judge,
    Play,
    Replan,
    Lower,
    Resume,
}

impl CommandName {
    /// The word of the command.
    #[tactic(auto, unfolding(crate::specs::Names::word_of))]
    pub fn word(self) -> &'static str
        ensures { result.now ≡ word_of self }
    {
        match self {
            CommandName::Solve => "solve",
            CommandName::Check => "check",
            CommandName::Lot => "lot",
            CommandName::Trial => "trial",
            CommandName::Judge => "judge",
            CommandName::Play => "play",
            CommandName::Replan => "replan",
            CommandName::Lower => "lower",
            CommandName::Resume => "resume",
        }
    }

    /// The argument is for the command.
    pub fn takes(self, argument: Argument) -> bool
        ensures { result ≡ is_for self argument }
    {
        match argument {
            Argument::Command => true,
            Argument::Nodes | Argument::Turns => {
                matches!(
                    self,
                    CommandName::Solve
                        | CommandName::Trial
                        | CommandName::Replan
                        | CommandName::Resume
                )
            }
            Argument::Workers | Argument::Dossier => {
                matches!(
                    self,
                    CommandName::Solve | CommandName::Replan | CommandName::Resume
                )
            }
            Argument::Keep => matches!(self, CommandName::Solve | CommandName::Resume),
            Argument::Number | Argument::Ships | Argument::Chambers => {
                matches!(self, CommandName::Lot | CommandName::Trial)
            }
            Argument::From | Argument::Now => matches!(self, CommandName::Replan),
        }
    }

    /// The command needs a minute, which `--from` gives or `--now`.
    pub fn needs_minute(self) -> bool
        ensures { result ≡ needs_minute self }
    {
        matches!(self, CommandName::Replan)
    }
}

fn is_word(command: CommandName, text: &[u8]) -> bool
    ensures { result ≡ bytes_eq (word_of command) text.now }
{
    command.word().as_bytes() == text
}

const COMMAND_NAMES: [CommandName; 9] = [
    CommandName::Solve,
    CommandName::Check,
    CommandName::Lot,
    CommandName::Trial,
    CommandName::Judge,
    CommandName::Play,
    CommandName::Replan,
    CommandName::Lower,
    CommandName::Resume,
];

fn named_in(commands: &[CommandName], text: &[u8]) -> Option<CommandName>
    ensures { result ≡ find (λ c. bytes_eq (word_of c) text.now) commands.now }
{
    for command in commands {
        if is_word(*command, text) {
            return Some(*command);
        }
    }
    None
}

/// The command with this word.
#[tactic(auto, unfolding(crate::specs::Names::command_named))]
pub fn command_named(text: &[u8]) -> Option<CommandName>
    ensures { result ≡ command_named text.now }
{
    named_in(&COMMAND_NAMES, text)
}
