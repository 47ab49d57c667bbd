//! Ship numbers of an instance.
ghost use Rattle.std.specs.Prelude.{◌≡◌, ◌<◌, ◌≤◌, [], ◌∷◌, ◌++◌, length};

use arrayvec::ArrayVec;
use lock_model::SHIPS;
use std::marker::Model;

/// Up to `SHIPS` ship numbers.
#[derive(Drop)]
pub struct ShipNumbers {
    items: ArrayVec<u8, SHIPS>,
}

impl Model for ShipNumbers {
    ghost use Rattle.std.specs.Prelude.{ℕ, List};

    ghost Value = { List ℕ };

    ghost view = { λ a. a.items.items };

    ghost inverse = { λ xs. record { items = record { items = xs } } };
}

impl ShipNumbers {
    /// No ships.
    pub fn new() -> ShipNumbers
        ensures { result ≡ [] }
    {
        ShipNumbers {
            items: ArrayVec::new(),
        }
    }

    /// The ships in order.
    pub fn as_slice(&self) -> &[u8]
        ensures value { result.now ≡ self.now }
        ensures fits { length result.now ≤ SHIPS }
    {
        self.items.as_slice()
    }

    /// Appends a ship.
    pub fn push(&mut self, ship: u8)
        requires { length self.old < SHIPS }
        ensures { self.new ≡ self.old ++ ship ∷ [] }
    {
        self.items.push(ship);
    }
}
