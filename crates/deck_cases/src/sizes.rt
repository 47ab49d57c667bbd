//! The length and the width of a ship, 0 where there is none of this number.
ghost use Rattle.std.specs.Prelude.{◌≡◌};
ghost use Rattle.refute_rules.specs.Reasons.{length_at, width_at};

use lock_model::Deck;

/// The length of a ship.
pub fn length_of(deck: &Deck, ship: u32) -> u32
    ensures { result ≡ length_at deck.now ship }
{
    match deck.ships.as_slice().get(ship as usize) {
        Some(size) => size.length,
        None => 0,
    }
}

/// The width of a ship.
pub fn width_of(deck: &Deck, ship: u32) -> u32
    ensures { result ≡ width_at deck.now ship }
{
    match deck.ships.as_slice().get(ship as usize) {
        Some(size) => size.width,
        None => 0,
    }
}
