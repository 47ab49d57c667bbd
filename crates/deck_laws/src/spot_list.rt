//! Rising lists of places along a chamber.
ghost use Rattle.std.specs.Prelude.{◌≡◌};
ghost use Rattle.std.specs.List.Sorted.{IsStrictlyIncreasing};

use std::marker::Model;

/// Places along a chamber in decimetres, rising, each once.
#[derive(Drop)]
pub struct SpotList {
    pub(crate) items: Vec<u32>,
}

impl Model for SpotList {
    ghost use Rattle.std.specs.Prelude.{ℕ, List};
    ghost use Rattle.std.specs.List.Sorted.{IsStrictlyIncreasing};

    ghost Value = { List ℕ };

    ghost view = { λ a. a.items.items };

    ghost invariant = { λ a. IsStrictlyIncreasing a.items.items };
}

impl SpotList {
    /// The places in rising order.
    pub fn as_slice(&self) -> &[u32]
        ensures value { result.now ≡ self.now }
        ensures rising { IsStrictlyIncreasing result.now }
    {
        self.items.as_slice()
    }
}
