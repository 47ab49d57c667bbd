//! The decisions of a deck in order.
ghost use Rattle.std.specs.Prelude.{◌≡◌, ◌<◌, ◌≤◌, ◌+◌, [], ◌∷◌, ◌++◌, length, slice_index_or};
ghost use Rattle.refute_rules.specs.declared.choices.Decision.TheVariants.{BerthOf};
ghost use Rattle.refute_rules.specs.Choices.{decisions, spot_decisions};

use arrayvec::ArrayVec;
use lock_model::{DECISIONS, MOST};
use refute_rules::Decision;
use std::marker::Model;

/// The decisions of a deck in order.
#[derive(Drop)]
pub struct Decisions {
    items: ArrayVec<Decision, DECISIONS>,
}

impl Model for Decisions {
    ghost use Rattle.std.specs.Prelude.{List};
    ghost use Rattle.refute_rules.specs.declared.choices.Decision.{Decision};

    ghost Value = { List Decision };

    ghost view = { λ a. a.items.items };
}

impl Decisions {
    /// No decisions.
    fn new() -> Decisions
        ensures { result ≡ [] }
    {
        Decisions {
            items: ArrayVec::new(),
        }
    }

    /// How many decisions there are.
    pub fn len(&self) -> usize
        ensures value { result ≡ length self.now }
        ensures few { result ≤ DECISIONS }
    {
        self.items.len()
    }

    /// A decision by its number.
    pub fn at(&self, number: usize) -> Decision
        requires { number < length self.now }
        ensures { result ≡ slice_index_or self.now number (BerthOf 0) }
    {
        self.items.as_slice()[number]
    }

    /// Appends a decision.
    fn push(&mut self, decision: Decision)
        requires { length self.old < DECISIONS }
        ensures { self.new ≡ self.old ++ decision ∷ [] }
    {
        self.items.push(decision);
    }
}

// Appends a ship's berth and its pairs with the lower ships.
#[tactic(auto, using(crate::proofs::DecisionLemmas::of_decisions))]
fn push_ship(list: &mut Decisions, ship: u8)
    requires ship { ship < MOST }
    requires begun { list.old ≡ decisions ship }
    ensures { list.new ≡ decisions (ship + 1) }
{
    list.push(Decision::BerthOf(ship));
    for other in 0..ship {
        list.push(Decision::PairOf(other, ship));
    }
}

/// The decisions about so many ships: each ship's berth, then its pairs with the lower ships.
pub fn case_decisions(ships: u8) -> Decisions
    requires { ships ≤ MOST }
    ensures { result ≡ decisions ships }
{
    let mut list = Decisions::new();
    for ship in 0..ships {
        push_ship(&mut list, ship);
    }
    list
}

/// The decisions about so many ships at spot values: each ship's berth, then its x.
#[tactic(auto, using(crate::proofs::DecisionLemmas::spots_more, crate::proofs::DecisionLemmas::spots_room))]
pub fn spot_decisions(ships: u8) -> Decisions
    requires { ships ≤ MOST }
    ensures { result ≡ spot_decisions ships }
{
    let mut list = Decisions::new();
    for ship in 0..ships {
        list.push(Decision::BerthOf(ship));
        list.push(Decision::XOf(ship));
    }
    list
}
