//! Decks placed and refuted by berths. Worked berth trees stand with the second checker.
use super::fixture::are_legal;
use crate::worked::deck_of;
use berth_check::check_berth_tree;
use berth_place::{BerthPlaced, place_by_berths};
use lock_model::{Deck, Measures};
use refute_rules::Marks;
use std::alloc::Global;

/// A chamber by length, width and gap along, and ships by length and width.
type Worked = ((u32, u32, u32), &'static [(u32, u32)]);

fn deck((length, width, gap): (u32, u32, u32), ships: &[(u32, u32)]) -> Option<Deck> {
    let measures = Measures {
        length,
        width,
        end: 10,
        gap,
        side: 5,
    };
    deck_of(measures, ships)
}

const TOO_WIDE: Worked = ((100, 50, 5), &[(70, 60)]);

const TWO_LONG: Worked = ((2000, 232, 20), &[(1100, 114), (1100, 114)]);

const WIDER: Worked = ((2000, 233, 20), &[(1100, 114), (1100, 114)]);

const ONE_HOST: Worked = ((140, 40, 5), &[(90, 50), (90, 50), (90, 30)]);

/// A deck, the turns, and the answer.
type Tried = (Worked, u32, &'static str);

const PLACED: &[Tried] = &[
    // a ship that is too wide, at both quays
    (TOO_WIDE, 2, "refuted"),
    (TOO_WIDE, 1, "spent"),
    // two ships that would have to lie side by side, and then in a chamber one decimetre wider
    (TWO_LONG, 100, "refuted"),
    (WIDER, 100, "fits"),
    // two ships too wide for the third, which they would have for a host
    (ONE_HOST, 200, "refuted"),
    // two ships one behind the other, and one beside both
    (
        ((220, 60, 5), &[(90, 30), (90, 20), (180, 20)]),
        500,
        "fits",
    ),
];

// Whether marks are a berth tree.
fn is_tree(alloc: Global, deck: &Deck, marks: &Marks) -> bool {
    match check_berth_tree(alloc, deck, marks.as_slice()) {
        Ok(holds) => holds,
        Err(_) => false,
    }
}

// What is answered, where the judge and the checker say so too.
fn told(alloc: Global, deck: &Deck, placed: &BerthPlaced) -> &'static str {
    match placed {
        BerthPlaced::Fits(spots) if are_legal(deck, spots) => "fits",
        BerthPlaced::Refuted(marks) if is_tree(alloc, deck, marks) => "refuted",
        BerthPlaced::Spent(_) => "spent",
        _ => "wrong",
    }
}

fn answer(alloc: Global, tried: &Tried) -> Option<&'static str> {
    let ((room, ships), turns, _) = *tried;
    let deck = deck(room, ships)?;
    let placed = place_by_berths(alloc, &deck, turns).ok()?;
    Some(told(alloc, &deck, &placed))
}

#[test]
fn worked_decks_fit_are_refuted_or_need_more_turns(rt: HostRuntime) {
    for tried in PLACED {
        assert!(rt; answer(rt.alloc(), tried) == Some(tried.2));
    }
}
