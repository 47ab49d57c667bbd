//! Decks placed and refuted by spots.
use super::fixture::{NARROW, SHORT, TWINS, lie};
use crate::worked::{BASE, deck_of};
use lock_model::Measures;
use spot_place::{SpotPlaced, place_by_spots};
use std::alloc::Global;

/// Ships by length and width, the turns, the spot tree where they are enough for one, and the answer.
type Tried = (
    Measures,
    &'static [(u32, u32)],
    u32,
    &'static [u32],
    &'static str,
);

// Ship 0 at each quay and then at ship 1, with the four berths of ship 1 for each.
const NARROW_TREE: &[u32] = &[
    0, 0, 0, 0, 5, 1, 0, 0, 5, 1, 0, 3, 1, 1, 1, 0, 0, 0, 5, 1, 0, 0, 5, 1, 0, 1, 1, 3, 1, 0, 0, 3,
    0, 1, 0, 2, 0, 1, 0, 0, 0, 1, 0, 3, 0, 1, 0, 2, 0,
];

const PLACED: &[Tried] = &[
    (NARROW, TWINS, 29, NARROW_TREE, "refuted"),
    (NARROW, TWINS, 28, &[], "spent"),
    (SHORT, &[(90, 50)], 3, &[0, 0, 0], "refuted"),
    (SHORT, &[(90, 50)], 2, &[], "spent"),
    (BASE, TWINS, 1, &[], "spent"),
    (BASE, TWINS, 6, &[], "spent"),
    (BASE, TWINS, 7, &[], "side by side"),
    (BASE, TWINS, 20_000, &[], "side by side"),
];

// What is answered, where the turns are these and the tree is this one.
fn told(placed: &SpotPlaced, turns: u32, tree: &[u32]) -> &'static str {
    match placed {
        SpotPlaced::Fits(spots) => lie(spots),
        SpotPlaced::Refuted(marks) if marks.as_slice() == tree => "refuted",
        SpotPlaced::Spent(hard) if hard.turns == turns => "spent",
        _ => "wrong",
    }
}

fn answer(alloc: Global, tried: &Tried) -> Option<&'static str> {
    let deck = deck_of(tried.0, tried.1)?;
    let turns = tried.2.max(1);
    let placed = place_by_spots(alloc, &deck, turns).ok()?;
    Some(told(&placed, turns, tried.3))
}

#[test]
fn a_deck_is_placed_or_refuted_or_its_turns_are_spent(rt: HostRuntime) {
    for tried in PLACED {
        assert!(rt; answer(rt.alloc(), tried) == Some(tried.4));
    }
}
