//! Tokens that a worker keeps.
ghost use Rattle.std.specs.Prelude.{◌≡◌, ◌++◌, ◌∷◌, [], OnOk, OnErr};

use crate::entry::Token;
use no_memory::NoMemory;
use std::alloc::Global;
use std::marker::Model;

/// A list of tokens, in the order in which they were added.
#[derive(Drop)]
pub struct Tokens {
    items: Vec<Token>,
}

impl Model for Tokens {
    ghost use Rattle.std.specs.Prelude.{List};
    ghost use Rattle.boxcar.specs.Table.{Where};
    ghost use Rattle.cut_pool.specs.declared.entry.Entry.{Entry};

    ghost Value = { List (Where Entry) };

    ghost view = { λ t. t.items.items };
}

impl Tokens {
    /// No tokens. Takes no memory.
    pub fn new(alloc: Global) -> Tokens
        ensures { result ≡ [] }
    {
        Tokens {
            items: Vec::new(alloc),
        }
    }

    /// Appends a token. After want of memory, the one refusal, the list is as before, and the token is
    /// dropped.
    pub fn add(&mut self, token: Token) -> Result<(), NoMemory>
        ensures ok { OnOk result (self.new ≡ self.old ++ token ∷ []) }
        ensures err { OnErr result (self.new ≡ self.old) }
    {
        match self.items.push(token) {
            Ok(()) => Ok(()),
            Err(_) => Err(NoMemory),
        }
    }

    /// The tokens as a slice.
    pub(crate) fn as_slice(&self) -> &[Token]
        ensures { result.now ≡ self.now }
    {
        self.items.as_slice()
    }
}
