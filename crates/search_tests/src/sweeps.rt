//! What a sweep makes of a triple. Which costs are swept stands with the rows of dossiers.
use crate::locks::three;
use price_rules::Triple;
use price_terms::Prices;
use std::alloc::Global;
use sweep::{SweepAsked, SweepEnd, SweepLimits, sweep};

// Enough for all rows.
const ENOUGH: SweepLimits = SweepLimits {
    labels: 1_000,
    all: 1_000,
    groups: 100,
    turns: 1_000_000,
};

const TRIPLE: Triple = Triple {
    first: 0,
    second: 1,
    third: 2,
    price: 4_000,
};

// 140 minutes for each of three ships, and 40 for their triple where it has a price.
fn prices(has_triple: bool) -> Option<Prices> {
    let ships = Prices::new(&[14_000; 3])?;
    if has_triple {
        ships.with_triples(&[TRIPLE])
    } else {
        Some(ships)
    }
}

// The cost of an uncut plan that is found and swept; None where the goal is swept, and 0 where neither is.
fn cost_of(end: &Option<SweepEnd>) -> Option<u64> {
    match end {
        Some(SweepEnd::Cheaper { plan, swept }) => Some(plan.cost.max(swept.cost())),
        Some(SweepEnd::Swept(_)) => None,
        None => Some(0),
    }
}

// The cost that a sweep of three ships in pairs finds, and whether it makes one label alone.
fn swept(alloc: Global, has_triple: bool, goal: u64) -> Option<(Option<u64>, bool)> {
    let instance = three()?;
    let prices = prices(has_triple)?;
    let asked = SweepAsked {
        instance: &instance,
        cuts: &[],
        prices: &prices,
        low: goal,
        first: goal,
        goal,
    };
    let outcome = sweep(alloc, &asked, ENOUGH).ok()?;
    Some((cost_of(&outcome.end), outcome.labels == 1))
}

// Two ships end at minute 40 and the third at 90: 170. Without the triple two pairs pay for one ship too
// much, and the bound of the first label is 130; charged for the triple twice they make it 170.
const GOALS: &[(bool, u64, Option<u64>, bool)] = &[
    (false, 130, None, true),
    (false, 131, None, false),
    (false, 170, None, false),
    (false, 171, Some(170), false),
    (true, 130, None, true),
    (true, 131, None, true),
    (true, 170, None, true),
    (true, 171, Some(170), false),
];

#[test]
fn a_triple_drops_the_first_label(rt: HostRuntime) {
    for &(has_triple, goal, found, is_dropped) in GOALS {
        assert!(rt; swept(rt.alloc(), has_triple, goal) == Some((found, is_dropped)));
    }
}
