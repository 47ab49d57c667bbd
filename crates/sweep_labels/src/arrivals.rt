//! The ships that chambers wait for.
ghost use Rattle.std.specs.Prelude.{◌≡◌, ◌<◌, false, true, length, MatchOption};
ghost use Rattle.sweep_labels.specs.Ships.{is_in};
ghost use Rattle.sweep_labels.specs.Coming.{AreServed, ComesAt, IsRaised};

use crate::ready_times::NEVER;
use crate::ship_set::ShipSet;
use lock_model::{SHIPS, Way};

/// A ship, and the minute at which it arrives.
#[derive(Clone, Copy)]
pub struct Coming {
    pub ship: u8,
    pub arrival: u32,
}

/// The ships of a way that may lie in a chamber, by rising arrival.
#[derive(Drop)]
pub struct ComingShips {
    pub items: Vec<Coming>,
}

/// Those of both ways of a chamber.
#[derive(Drop)]
pub struct Arrivals {
    pub up: ComingShips,
    pub down: ComingShips,
}

// Whether a ship is missing; none from `SHIPS` on is.
fn is_missing(served: &ShipSet, ship: u8) -> bool
    ensures { ship < SHIPS → result ≡ false → is_in served.now.bits ship ≡ true }
{
    (ship as usize) < SHIPS && !served.has(ship)
}

impl ComingShips {
    /// The first arrival of those that aren't served.
    #[tactic(auto, using(crate::proofs::ComingLemmas::served_first, crate::proofs::ComingLemmas::served_more))]
    pub fn first_arrival(&self, served: &ShipSet) -> Option<u32>
        ensures { MatchOption result (AreServed self.now.items.items served.now.bits (length self.now.items.items)) (ComesAt self.now.items.items served.now.bits) }
    {
        for one in &self.items {
            if is_missing(served, one.ship) {
                return Some(one.arrival);
            }
        }
        None
    }

    /// A minute, or the first arrival of those that aren't served where that is later.
    #[tactic(auto, using(crate::proofs::ComingLemmas::raised_never, crate::proofs::ComingLemmas::raised_first))]
    pub fn raised(&self, served: &ShipSet, low: u32) -> u32
        ensures { IsRaised self.now.items.items served.now.bits low result }
    {
        match self.first_arrival(served) {
            None => NEVER,
            Some(arrival) => low.max(arrival),
        }
    }
}
