//! Berth cases as lists of options.
ghost use Rattle.std.specs.Prelude.{◌≡◌, ◌≤◌, [], ◌∷◌, ◌++◌, length, take, OnErr, OnOk};

use deck_cases::Choice;
use no_memory::NoMemory;
use std::alloc::Global;
use std::marker::Model;

/// A berth case that grows by options and shrinks again.
#[derive(Drop)]
pub struct BerthCase {
    choices: Vec<Choice>,
}

impl Model for BerthCase {
    ghost use Rattle.std.specs.Prelude.{List};
    ghost use Rattle.refute_rules.specs.declared.choices.Choice.{Choice};

    ghost Value = { List Choice };

    ghost view = { λ a. a.choices.items };
}

impl BerthCase {
    /// The case that decides nothing.
    pub fn new(alloc: Global) -> BerthCase
        ensures { result ≡ [] }
    {
        BerthCase {
            choices: Vec::new(alloc),
        }
    }

    /// How many options there are.
    pub fn len(&self) -> usize
        ensures { result ≡ length self.now }
    {
        self.choices.len()
    }

    /// The options in order.
    pub fn choices(&self) -> &[Choice]
        ensures { result.now ≡ self.now }
    {
        self.choices.as_slice()
    }

    /// Takes an option. After want of memory the case is as before.
    pub fn push(&mut self, choice: Choice) -> Result<(), NoMemory>
        ensures ok { OnOk result (self.new ≡ self.old ++ choice ∷ []) }
        ensures err { OnErr result (self.new ≡ self.old) }
    {
        match self.choices.push(choice) {
            Ok(()) => Ok(()),
            Err(_) => Err(NoMemory),
        }
    }

    /// Goes back to the first options.
    pub fn truncate(&mut self, count: usize)
        requires { count ≤ length self.old }
        ensures { self.new ≡ take count self.old }
    {
        self.choices.truncate(count);
    }
}
