//! Names of chambers and ships.
ghost use Rattle.std.specs.Prelude.{◌≡◌, ◌<◌, ◌≤◌, [], ◌∷◌, ◌++◌, length};

use arrayvec::ArrayVec;
use std::marker::Model;

/// Up to twelve bytes. That a name has at least one and that each is a letter, a digit, `-` or
/// `_` is a limit that the instance keeps.
#[derive(PartialEq, Eq, Drop)]
pub struct Name {
    bytes: ArrayVec<u8, 12>,
}

impl Model for Name {
    ghost use Rattle.std.specs.Prelude.{ℕ, List};

    ghost Value = { List ℕ };

    ghost view = { λ a. a.bytes.items };

    ghost inverse = { λ xs. record { bytes = record { items = xs } } };
}

impl Name {
    /// No bytes yet.
    pub fn new() -> Name
        ensures { result ≡ [] }
    {
        Name {
            bytes: ArrayVec::new(),
        }
    }

    /// The bytes.
    pub fn as_slice(&self) -> &[u8]
        ensures value { result.now ≡ self.now }
        ensures fits { length result.now ≤ 12 }
    {
        self.bytes.as_slice()
    }

    /// Appends a byte.
    pub fn push(&mut self, byte: u8)
        requires { length self.old < 12 }
        ensures { self.new ≡ self.old ++ byte ∷ [] }
    {
        self.bytes.push(byte);
    }

    /// The same name.
    pub fn copy(&self) -> Name
        ensures { result ≡ self.now }
    {
        let mut bytes = ArrayVec::new();
        for &byte in self.bytes.as_slice() {
            bytes.push(byte);
        }
        Name { bytes }
    }
}

impl Default for Name {
    fn default() -> Name
        ensures { result ≡ [] }
    {
        Name::new()
    }
}
