//! The root of the narrow lock, which the cut of its two ships and their prices, or a sweep, close.
ghost use Rattle.master_branch.specs.Node.{IsNodeOf};

use crate::worked::{pair, two_ships};
use lock_model::Instance;
use master_branch::{Node, root};
use price_bound::{KeptLines, PricedNode, show};
use price_terms::{ChamberCut, Limits, Prices, Shown, Swept};
use std::alloc::Global;
use sweep::{SweepAsked, SweepEnd, SweepLimits, SweepOutcome, sweep};

/// The width of a chamber in which two ships don't lie side by side.
pub(crate) const NARROW: u32 = 232;

const LIMITS: Limits = Limits {
    groups: 100,
    turns: 10_000,
};

const SWEEP_LIMITS: SweepLimits = SweepLimits {
    labels: 1_000,
    all: 1_000,
    groups: 100,
    turns: 10_000,
};

// The cost that a sweep shows, where it found no cheaper plan.
fn swept_of(end: SweepEnd<'_>) -> Option<Swept<'_>> {
    match end {
        SweepEnd::Swept(swept) => Some(swept),
        SweepEnd::Cheaper {
            plan: _plan,
            swept: _swept,
        } => None,
    }
}

/// So much for each of both ships.
pub(crate) fn both_prices(price: u32) -> Option<Prices> {
    Prices::new(&[price, price])
}

/// The root, 8,500 for each ship, and the cut of both.
#[derive(Drop)]
pub(crate) struct PricedRoot {
    instance: Instance,
    node: Node,
    prices: Prices,
    cuts: [ChamberCut; 1],
    ghost is: { IsNodeOf instance node },
}

impl PricedRoot {
    pub(crate) fn new() -> Option<PricedRoot> {
        let prices = both_prices(8500)?;
        let instance = two_ships(NARROW)?;
        let node = root(&instance);
        let both = ChamberCut {
            chamber: 0,
            ships: pair(0, 1),
        };
        Some(PricedRoot {
            instance,
            node,
            prices,
            cuts: [both],
        })
    }

    /// That it reaches this cost.
    pub(crate) fn shown(&self, alloc: Global, cost: u64) -> Option<Shown<'_>> {
        let asked = PricedNode {
            instance: &self.instance,
            node: &self.node,
            prices: &self.prices,
            cuts: &self.cuts,
        };
        match show(&mut KeptLines::new(alloc), &asked, cost, LIMITS) {
            Ok(shown) => shown,
            Err(_) => None,
        }
    }

    /// That its cut leaves no uncut plan below this cost.
    pub(crate) fn swept(&self, alloc: Global, cost: u64) -> Option<Swept<'_>> {
        let asked = SweepAsked {
            instance: &self.instance,
            cuts: &self.cuts,
            prices: &self.prices,
            low: cost,
            first: cost,
            goal: cost,
        };
        match sweep(alloc, &asked, SWEEP_LIMITS) {
            Ok(SweepOutcome { end, .. }) => swept_of(end?),
            Err(_) => None,
        }
    }
}
