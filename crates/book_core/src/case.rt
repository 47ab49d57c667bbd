//! What a book is about.
ghost use Rattle.std.specs.Prelude.{◌≡◌};
ghost use Rattle.lock_model.specs.Limits.{Within};
ghost use Rattle.lock_rules.specs.Unfit.{HasNoUnfit};

use lock_model::Instance;
use std::marker::Model;

/// An instance of which each ship fits some chamber alone, a budget of 1 to 1,000,000 nodes, and 1
/// to 200,000 turns for the placers of a deck.
#[derive(Drop)]
pub struct Case {
    pub instance: Instance,
    pub nodes: u32,
    pub turns: u32,
}

impl Model for Case {
    ghost use Rattle.book_rules.specs.Book.{Case as Told};
    ghost use Rattle.book_core.specs.Case.{IsCase};

    ghost Value = { Told };

    ghost view = { λ a. record { instance = a.instance; nodes = a.nodes; turns = a.turns } };

    ghost invariant = { λ a. IsCase (record { instance = a.instance; nodes = a.nodes; turns = a.turns }) };

    ghost inverse = { λ c. record { instance = c.instance; nodes = c.nodes; turns = c.turns } };
}

impl Case {
    /// The case of an instance without an unfit ship, a budget and turns within their limits.
    pub fn new(instance: Instance, nodes: u32, turns: u32) -> Case
        requires fit { HasNoUnfit instance }
        requires nodes { Within 1 1000000 nodes }
        requires turns { Within 1 200000 turns }
        ensures { result ≡ record { instance = instance; nodes = nodes; turns = turns } }
    {
        Case {
            instance,
            nodes,
            turns,
        }
    }

    /// The same case.
    pub fn copy(&self) -> Case
        ensures { result ≡ self.now }
    {
        Case {
            instance: self.instance.copy(),
            nodes: self.nodes,
            turns: self.turns,
        }
    }
}
