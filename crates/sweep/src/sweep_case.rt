//! What stays the same during a sweep.
ghost use Rattle.std.specs.Prelude.{ℕ, ◌≡◌, ◌<◌, not, false, length, IfSome};
ghost use Rattle.sweep_labels.specs.Ships.{is_in};

use lock_model::Instance;
use price_terms::{ChamberCut, Prices};
use sweep_labels::{Arrivals, ShipSet};

/// An instance, cuts and prices, and the ships that the chambers wait for.
#[derive(Clone, Copy)]
pub(crate) struct SweepCase<'a> {
    pub(crate) instance: &'a Instance,
    pub(crate) cuts: &'a [ChamberCut],
    pub(crate) prices: &'a Prices,
    pub(crate) arrivals: &'a [Arrivals],
    pub(crate) ghost level: { length arrivals.now ≡ length instance.now.chambers },
}

impl SweepCase<'_> {
    // All ships but these.
    pub(crate) fn all_but(&self, late: &ShipSet) -> ShipSet
        ensures { (s : ℕ) → s < length self.now.instance.now.ships → is_in result.bits s ≡ not (is_in late.now.bits s) }
    {
        let count = self.instance.ships.as_slice().len() as u8;
        let mut others = ShipSet::new();
        for ship in 0..count {
            if !late.has(ship) {
                others = others.with(ship);
            }
        }
        others
    }

    // The first ship that isn't served.
    pub(crate) fn first_missing(&self, served: &ShipSet) -> Option<u8>
        ensures { IfSome result (λ s. (s < length self.now.instance.now.ships) × (is_in served.now.bits s ≡ false)) }
    {
        let count = self.instance.ships.as_slice().len() as u8;
        for ship in 0..count {
            if !served.has(ship) {
                return Some(ship);
            }
        }
        None
    }
}
