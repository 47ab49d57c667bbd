//! Decks placed and refuted by cases. What is left out of a cut its contract says, and rows of dossiers show.
use super::fixture::{TWINS, lie};
use crate::worked::{BASE, deck_of};
use chamber_place::{Placed, place};
use lock_model::Measures;
use refute_rules::Refutation;
use std::alloc::Global;

/// No ship is as long or as wide as this chamber, and none has a gap to keep.
const SQUARE: Measures = Measures {
    length: 100,
    width: 100,
    end: 0,
    gap: 0,
    side: 0,
};

const FOUR: &[(u32, u32)] = &[(27, 59), (59, 30), (49, 47), (49, 49)];

// What is answered: where ships lie, how many turns were spent, or how many marks a case tree has.
fn told(placed: &Placed) -> (&'static str, usize) {
    match placed {
        Placed::Fits(spots) => (lie(spots), 0),
        Placed::Spent(hard) => ("spent", hard.turns as usize),
        Placed::Refuted(Refutation::Cases(marks)) => ("refuted", marks.as_slice().len()),
        _ => ("another", 0),
    }
}

/// A deck, the turns, and the answer.
type Tried = (Measures, &'static [(u32, u32)], u32, (&'static str, usize));

// The four have no quick reason.
const PLACED: &[Tried] = &[
    (BASE, TWINS, 4, ("spent", 4)),
    (BASE, TWINS, 5, ("side by side", 0)),
    (SQUARE, FOUR, 20_000, ("refuted", 7444)),
];

fn answer(alloc: Global, tried: &Tried) -> Option<(&'static str, usize)> {
    let deck = deck_of(tried.0, tried.1)?;
    let placed = place(alloc, &deck, tried.2.max(1)).ok()?;
    Some(told(&placed))
}

#[test]
fn decks_are_placed_or_refuted_in_so_many_turns(rt: HostRuntime) {
    for tried in PLACED {
        assert!(rt; answer(rt.alloc(), tried) == Some(tried.3));
    }
}
