//! Limits of the bound by prices. What nodes reach stands with the rows of dossiers.
use crate::worked::two_ships;
use master_branch::root;
use price_bound::{KeptLines, PricedNode, price_sum};
use price_terms::{Limits, PriceError, Prices};
use std::alloc::Global;

// What two ships that fit side by side reach together at the root, within limits.
fn sum_within(alloc: Global, limits: Limits) -> Option<Result<Option<i64>, PriceError>> {
    let instance = two_ships(240)?;
    let prices = Prices::new(&[4000, 4000])?;
    let asked = PricedNode {
        instance: &instance,
        node: &root(&instance),
        prices: &prices,
        cuts: &[],
    };
    Some(price_sum(&mut KeptLines::new(alloc), &asked, limits))
}

// Groups and turns that are allowed, and what comes of them.
const LIMITS: &[(usize, u64, Result<Option<i64>, PriceError>)] = &[
    (3, 1000, Ok(Some(7500))),
    (2, 1000, Err(PriceError::TooMany)),
    (3, 0, Err(PriceError::TooMany)),
];

#[test]
fn more_groups_or_turns_than_allowed_are_refused(rt: HostRuntime) {
    for &(groups, turns, sum) in LIMITS {
        assert!(rt; sum_within(rt.alloc(), Limits { groups, turns }) == Some(sum));
    }
}
