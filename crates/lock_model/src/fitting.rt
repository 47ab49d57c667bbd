//! Which ships fit a chamber, and the deck that they make of it.
ghost use Rattle.std.specs.Prelude.{◌≡◌, ◌<◌, ◌≤◌, ◌↔◌, length, All, IsTrue};
ghost use Rattle.lock_model.specs.Fitting.{deck_of, FitsAlone, IsNoRoomier};

use crate::chamber::Chamber;
use crate::deck::{Deck, Size, Sizes};
use crate::group::Ships;
use crate::instance::Instance;
use crate::ship::Ship;

/// The deck of a chamber and one or more ships of an instance: the chamber's five measures, and
/// the ships' sizes with their cargo classes in rising number. Takes no memory.
pub fn deck_of(instance: &Instance, chamber: u8, ships: &Ships) -> Deck
    requires chamber_in { chamber < length instance.now.chambers }
    requires ships_in { All (λ s. s < length instance.now.ships) ships.now }
    requires some { 1 ≤ length ships.now }
    ensures { result ≡ deck_of instance.now chamber ships.now }
{
    let mut sizes = Sizes::new();
    for &number in ships.as_slice() {
        let ship = &instance.ships.as_slice()[number as usize];
        sizes.push(Size {
            length: ship.length,
            width: ship.width,
            cargo: ship.cargo,
        });
    }
    let chamber = &instance.chambers.as_slice()[chamber as usize];
    Deck {
        length: chamber.length,
        width: chamber.width,
        end: chamber.end,
        gap: chamber.gap,
        side: chamber.side,
        ships: sizes,
    }
}

/// Whether a ship fits a chamber alone, with the clearance at both ends. Takes no memory.
pub fn fits_alone(chamber: &Chamber, ship: &Ship) -> bool
    ensures { IsTrue result ↔ FitsAlone chamber.now ship.now }
{
    ship.length as u64 + 2 * chamber.end as u64 <= chamber.length as u64
        && ship.width <= chamber.width
}

/// Whether a chamber has no more room than a deck: equal clearance and gaps, and at most its
/// length and width. Takes no memory.
pub fn no_roomier(chamber: &Chamber, deck: &Deck) -> bool
    ensures { IsTrue result ↔ IsNoRoomier chamber.now deck.now }
{
    chamber.end == deck.end
        && chamber.gap == deck.gap
        && chamber.side == deck.side
        && chamber.length <= deck.length
        && chamber.width <= deck.width
}
