//! Measures, decks, and places of ships.
ghost use Rattle.std.specs.Prelude.{IsTrue};
ghost use Rattle.lock_model.specs.Placement.{IsLegalPlacement};

use crate::worked::BASE;
use lock_model::{Deck, Measures, Moor, Rank, Spot, Spots};
use mooring_rules::judge_spots;

/// Two base ships don't lie side by side here.
pub(crate) const NARROW: Measures = Measures { width: 232, ..BASE };

pub(crate) const SHORT: Measures = Measures {
    length: 100,
    width: 50,
    ..BASE
};

/// Two base ships by length and width.
pub(crate) const TWINS: &[(u32, u32)] = &[(1100, 114), (1100, 114)];

/// Where a ship lies: its x and y, its rank, and what it is moored to.
pub(crate) type Place = (u32, u32, Rank, Moor);

pub(crate) const QUAY: Moor = Moor::Quay;

pub(crate) const LEFT: Rank = Rank::Left;

pub(crate) const RIGHT: Rank = Rank::Right;

/// The twins, each at its own quay.
pub(crate) const SIDE_BY_SIDE: &[Place] = &[(10, 0, LEFT, QUAY), (10, 126, RIGHT, QUAY)];

/// The spots of the first eight of these places.
pub(crate) fn spots_of(places: &[Place]) -> Spots {
    let mut spots = Spots::new();
    for &(x, y, rank, moor) in places {
        if spots.as_slice().len() < 8 {
            spots.push(Spot { x, y, rank, moor });
        }
    }
    spots
}

/// Whether ships lie side by side as the twins do.
pub(crate) fn lie(spots: &Spots) -> &'static str {
    if *spots == spots_of(SIDE_BY_SIDE) {
        "side by side"
    } else {
        "elsewhere"
    }
}

/// Whether spots are legal.
pub(crate) fn are_legal(deck: &Deck, spots: &Spots) -> bool
    ensures { IsTrue result → IsLegalPlacement deck.now spots.now }
{
    spots.as_slice().len() == deck.ships.as_slice().len() && judge_spots(deck, spots).is_none()
}
