//! The two lanes of a deck.
ghost use Rattle.std.specs.Prelude.{◌≡◌};
ghost use Rattle.lock_model.specs.Deck.{IsDeck};
ghost use Rattle.ship_shapes.specs.Lanes.{row_lane, column_lane};

use crate::lane::{Lane, Need};
use arrayvec::ArrayVec;
use lock_model::Deck;

/// The ships of a deck one after the other.
pub(crate) fn row_lane(deck: &Deck) -> Lane
    ensures value { result ≡ row_lane deck.now }
    ensures limits { IsDeck deck.now }
{
    let mut needs = ArrayVec::new();
    let sizes = deck.ships.as_slice();
    for size in sizes {
        needs.push(Need {
            across: size.width,
            along: size.length + deck.gap,
        });
    }
    Lane {
        needs,
        width: deck.width,
        between: deck.side,
        reach: deck.length + deck.gap,
        spare: 2 * deck.end,
    }
}

/// The ships of a deck side by side.
pub(crate) fn column_lane(deck: &Deck) -> Lane
    ensures value { result ≡ column_lane deck.now }
    ensures limits { IsDeck deck.now }
{
    let mut needs = ArrayVec::new();
    let sizes = deck.ships.as_slice();
    for size in sizes {
        needs.push(Need {
            across: size.length,
            along: size.width + deck.side,
        });
    }
    Lane {
        needs,
        width: deck.length,
        between: deck.gap + 2 * deck.end,
        reach: deck.width + deck.side,
        spare: 0,
    }
}
