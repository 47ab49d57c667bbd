//! The arguments of the command line: the command word, the options and the flags.
ghost use Rattle.std.specs.Prelude.{◌≡◌, ◌<◌, find};
ghost use Rattle.std.specs.Str.{bytes_eq};
ghost use Rattle.command_words.specs.Names.{name_of, option_named, is_flag};
ghost use Rattle.command_words.specs.Stands.{place_of};

/// One argument.
#[derive(Clone, Copy)]
pub enum Argument {
    Command,
    Nodes,
    Turns,
    Workers,
    Dossier,
    Keep,
    Number,
    Ships,
    Chambers,
    From,
    Now,
}

impl Argument {
    /// The option's name without its hyphens, and the argument's name in the parser.
    #[tactic(auto, unfolding(crate::specs::Names::name_of))]
    pub fn name(self) -> &'static str
        ensures { result.now ≡ name_of self }
    {
        match self {
            Argument::Command => "command",
            Argument::Nodes => "nodes",
            Argument::Turns => "turns",
            Argument::Workers => "workers",
            Argument::Dossier => "dossier",
            Argument::Keep => "keep",
            Argument::Number => "number",
            Argument::Ships => "ships",
            Argument::Chambers => "chambers",
            Argument::From => "from",
            Argument::Now => "now",
        }
    }

    /// The argument's place in the list of those that were seen.
    pub fn place(self) -> usize
        ensures place { result ≡ place_of self }
        ensures within { result < 11 }
    {
        match self {
            Argument::Command => 0,
            Argument::Nodes => 1,
            Argument::Turns => 2,
            Argument::Workers => 3,
            Argument::Dossier => 4,
            Argument::Keep => 5,
            Argument::Number => 6,
            Argument::Ships => 7,
            Argument::Chambers => 8,
            Argument::From => 9,
            Argument::Now => 10,
        }
    }

    /// The option takes no text.
    pub fn is_flag(self) -> bool
        ensures { result ≡ is_flag self }
    {
        matches!(self, Argument::Dossier | Argument::Keep)
    }
}

fn is_name(argument: Argument, text: &[u8]) -> bool
    ensures { result ≡ bytes_eq (name_of argument) text.now }
{
    argument.name().as_bytes() == text
}

/// The options, the flags among them.
pub const OPTIONS: [Argument; 10] = [
    Argument::Nodes,
    Argument::Turns,
    Argument::Workers,
    Argument::Dossier,
    Argument::Keep,
    Argument::Number,
    Argument::Ships,
    Argument::Chambers,
    Argument::From,
    Argument::Now,
];

fn named_in(options: &[Argument], text: &[u8]) -> Option<Argument>
    ensures { result ≡ find (λ a. bytes_eq (name_of a) text.now) options.now }
{
    for option in options {
        if is_name(*option, text) {
            return Some(*option);
        }
    }
    None
}

/// The option with this name.
#[tactic(auto, unfolding(crate::specs::Names::option_named))]
pub fn option_named(text: &[u8]) -> Option<Argument>
    ensures { result ≡ option_named text.now }
{
    named_in(&OPTIONS, text)
}
