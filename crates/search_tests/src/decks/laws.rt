//! Worked placements under the laws of decks.
//!
//! The laws ask for a legal placement; the judge shows that one written out by hand is.
ghost use Rattle.std.specs.Prelude.{◌≤◌, IfSome};
ghost use Rattle.deck_laws.specs.Widen.{IsRoomier};

use super::fixture::{LEFT, Place, QUAY, RIGHT, SIDE_BY_SIDE, TWINS, are_legal, spots_of};
use crate::worked::{BASE, deck_of};
use deck_laws::{thin_out, widen};
use lock_model::{Deck, Measures, Moor, Spots};

const THREE: &[(u32, u32)] = &[(600, 60), (500, 50), (400, 40)];

const IN_A_ROW: &[Place] = &[
    (10, 0, LEFT, QUAY),
    (20, 65, LEFT, Moor::Ship(0)),
    (30, 120, LEFT, Moor::Ship(1)),
];

// Where the others of three ships in a row lie without this one.
fn without(ship: u8) -> Option<Spots> {
    let deck = deck_of(BASE, THREE)?;
    let spots = spots_of(IN_A_ROW);
    if deck.ships.as_slice().len() == 3 && ship < 3 && are_legal(&deck, &spots) {
        Some(thin_out(&deck, &spots, ship).1)
    } else {
        None
    }
}

// The deck in a chamber of this width, if it is within the limits.
fn deck_in(deck: &Deck, width: u32) -> Option<Deck>
    ensures { IfSome result (λ e. deck.now.width ≤ width → IsRoomier deck.now e) }
{
    let measures = Measures {
        length: deck.length,
        width,
        end: deck.end,
        gap: deck.gap,
        side: deck.side,
    };
    Deck::new(measures, deck.ships.copy())
}

// Where the twins lie that lay side by side, in a chamber of this width.
fn widened(width: u32) -> Option<Spots> {
    let deck = deck_of(BASE, TWINS)?;
    let wider = deck_in(&deck, width)?;
    let mut spots = spots_of(SIDE_BY_SIDE);
    if deck.width <= width && are_legal(&deck, &spots) {
        widen(&deck, &wider, &mut spots);
        Some(spots)
    } else {
        None
    }
}

const LEFT_OUT: &[(u8, &'static [Place])] = &[
    (0, &[(20, 0, LEFT, QUAY), (30, 55, LEFT, Moor::Ship(0))]),
    (1, &[(10, 0, LEFT, QUAY), (30, 65, LEFT, Moor::Ship(0))]),
];

const FURTHER_APART: &[Place] = &[(10, 0, LEFT, QUAY), (10, 136, RIGHT, QUAY)];

#[test]
fn guests_take_the_mooring_that_is_left_and_the_right_rank_follows_its_quay(rt: HostRuntime) {
    for &(ship, places) in LEFT_OUT {
        assert!(rt; without(ship) == Some(spots_of(places)));
    }
    assert!(rt; widened(250) == Some(spots_of(FURTHER_APART)));
}
