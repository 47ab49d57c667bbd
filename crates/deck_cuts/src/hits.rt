//! What a cut hits.
ghost use Rattle.std.specs.Prelude.{◌≡◌, ◌<◌, ◌↔◌, length, All, IsTrue};
ghost use Rattle.lock_model.specs.Fitting.{Fits, IsNoRoomier, deck_of, size_of};
ghost use Rattle.lock_model.specs.Fleet.{chamber_at};
ghost use Rattle.lock_rules.specs.Cut.{Hits};
ghost use Rattle.refute_rules.specs.Cuts.{IsCut};
ghost use Rattle.deck_cuts.specs.CutHits.{IsShipHit, AreShipsHit};

use crate::cut::Cut;
use lock_model::{Instance, Ship, Ships, Size, no_roomier};

// Whether a ship has this size.
fn has_size(ship: &Ship, size: &Size) -> bool
    ensures { IsTrue result ↔ size.now ≡ size_of ship.now }
{
    ship.length == size.length && ship.width == size.width && ship.cargo == size.cargo
}

// Whether a ship is among these ships of the instance, and has this size there.
fn is_ship_hit(instance: &Instance, ships: &[u8], ship: u8, size: &Size) -> bool
    requires { All (λ s. s < length instance.now.ships) ships.now }
    ensures { IsTrue result ↔ IsShipHit instance.now ships.now ship size.now }
{
    ships.contains(&ship) && has_size(&instance.ships.as_slice()[ship as usize], size)
}

// Whether all these ships of a cut are among the others, and have their sizes in the instance.
fn are_ships_hit(instance: &Instance, ships: &[u8], own: &[u8], sizes: &[Size]) -> bool
    requires ships_in { All (λ s. s < length instance.now.ships) ships.now }
    requires count { length own.now ≡ length sizes.now }
    ensures { IsTrue result ↔ AreShipsHit own.now sizes.now instance.now ships.now }
{
    for i in 0..own.len() {
        if !is_ship_hit(instance, ships, own[i], &sizes[i]) {
            return false;
        }
    }
    true
}

// Whether all ships of the cut are among these, and have the sizes of its deck in the instance.
fn are_own_ships_hit(cut: &Cut, instance: &Instance, ships: &[u8]) -> bool
    requires { All (λ s. s < length instance.now.ships) ships.now }
    ensures { IsTrue result ↔ AreShipsHit cut.now.ships cut.now.deck.ships instance.now ships.now }
{
    let sizes = cut.deck.ships.as_slice();
    are_ships_hit(instance, ships, cut.ships.as_slice(), sizes)
}

// Whether the chamber has no more room than the deck of the cut.
fn is_tight(cut: &Cut, instance: &Instance, chamber: u8) -> bool
    requires { chamber < length instance.now.chambers }
    ensures exact { IsTrue result ↔ IsNoRoomier (chamber_at instance.now chamber) cut.now.deck }
    ensures kept { IsCut cut.now }
{
    no_roomier(&instance.chambers.as_slice()[chamber as usize], &cut.deck)
}

/// Whether a cut hits a chamber with these ships: all its ships are among them, they have the sizes
/// of its deck in the instance, and the chamber is no roomier than its deck. Then the ships don't
/// fit the chamber together. Takes no memory.
#[tactic(auto, using(crate::proofs::HitLemmas::hits_whole, crate::proofs::HitLemmas::hits_ships, crate::proofs::HitLemmas::hit_unfit))]
pub fn cut_hits(cut: &Cut, instance: &Instance, chamber: u8, ships: &Ships) -> bool
    requires chamber_in { chamber < length instance.now.chambers }
    requires ships_in { All (λ s. s < length instance.now.ships) ships.now }
    ensures exact { IsTrue result ↔ Hits cut.now.ships cut.now.deck instance.now chamber ships.now }
    ensures unfit { IsTrue result → Fits (deck_of instance.now chamber ships.now) → ⊥ }
{
    is_tight(cut, instance, chamber) && are_own_ships_hit(cut, instance, ships.as_slice())
}
