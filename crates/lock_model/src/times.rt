//! Starts and ends of the groups of a line.
ghost use Rattle.std.specs.Prelude.{◌≡◌, ◌<◌, ◌≤◌, [], ◌∷◌, ◌++◌, length};

use crate::limits::SHIPS;
use arrayvec::ArrayVec;
use std::marker::Model;

/// Up to `SHIPS` pairs of a start and an end, in minutes.
#[derive(Drop)]
pub struct Times {
    items: ArrayVec<(u64, u64), SHIPS>,
}

impl Model for Times {
    ghost use Rattle.std.specs.Prelude.{ℕ, List};

    ghost Value = { List (ℕ × ℕ) };

    ghost view = { λ a. a.items.items };

    ghost inverse = { λ xs. record { items = record { items = xs } } };
}

impl Times {
    /// No times.
    pub fn new() -> Times
        ensures { result ≡ [] }
    {
        Times {
            items: ArrayVec::new(),
        }
    }

    /// The starts and ends in order.
    pub fn as_slice(&self) -> &[(u64, u64)]
        ensures value { result.now ≡ self.now }
        ensures fits { length result.now ≤ SHIPS }
    {
        self.items.as_slice()
    }

    /// Appends a start and an end.
    pub fn push(&mut self, start: u64, end: u64)
        requires { length self.old < SHIPS }
        ensures { self.new ≡ self.old ++ (start, end) ∷ [] }
    {
        self.items.push((start, end));
    }
}
