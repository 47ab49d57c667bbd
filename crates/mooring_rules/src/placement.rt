//! The judge of a placement.
ghost use Rattle.std.specs.Prelude.{◌≡◌, ◌<◌, ◌↔◌, length, IsNone, IfNone, IfSome};
ghost use Rattle.lock_model.specs.Placement.{IsApartFromLater, IsLegalPlacement};
ghost use Rattle.mooring_rules.specs.PlacementBreaks.{AreInside, AreAllApart, AreBerthed, IsFirstOutside, TouchesFirst, AreFirstTouching};
ghost use Rattle.mooring_rules.specs.PlacementBreaks.{IsFirstLoose, IsFirstBroken, loose_break};

use crate::berth::is_berthed;
use crate::breaks::Broken;
use lock_model::{Deck, Moor, Spot, Spots, apart, inside};

/// The first ship that isn't inside.
fn first_outside(deck: &Deck, spots: &[Spot]) -> Option<u8>
    requires { length spots.now ≡ length deck.now.ships }
    ensures none { IfNone result (AreInside deck.now spots.now) }
    ensures some { IfSome result (IsFirstOutside deck.now spots.now) }
{
    let count = deck.ships.as_slice().len() as u8;
    for i in 0..count {
        if !inside(deck, i, &spots[i as usize]) {
            return Some(i);
        }
    }
    None
}

/// The first ship after ship `i` that isn't apart from it.
fn first_beside(deck: &Deck, spots: &[Spot], i: u8) -> Option<u8>
    requires count { length spots.now ≡ length deck.now.ships }
    requires ship { i < length deck.now.ships }
    ensures none { IfNone result (IsApartFromLater deck.now spots.now i) }
    ensures some { IfSome result (TouchesFirst deck.now spots.now i) }
{
    let count = deck.ships.as_slice().len() as u8;
    for j in i + 1..count {
        if !apart(deck, i, &spots[i as usize], j, &spots[j as usize]) {
            return Some(j);
        }
    }
    None
}

/// The first two ships that aren't apart.
fn first_touching(deck: &Deck, spots: &[Spot]) -> Option<(u8, u8)>
    requires { length spots.now ≡ length deck.now.ships }
    ensures none { IfNone result (AreAllApart deck.now spots.now) }
    ensures some { IfSome result (λ p. AreFirstTouching deck.now spots.now p.0 p.1) }
{
    let count = deck.ships.as_slice().len() as u8;
    for i in 0..count {
        if let Some(j) = first_beside(deck, spots, i) {
            return Some((i, j));
        }
    }
    None
}

/// The first ship that isn't berthed.
fn first_loose(deck: &Deck, spots: &[Spot]) -> Option<u8>
    requires { length spots.now ≡ length deck.now.ships }
    ensures none { IfNone result (AreBerthed deck.now spots.now) }
    ensures some { IfSome result (IsFirstLoose deck.now spots.now) }
{
    let count = deck.ships.as_slice().len() as u8;
    for i in 0..count {
        if !is_berthed(deck, spots, i) {
            return Some(i);
        }
    }
    None
}

/// What ship `i` breaks where it isn't berthed.
fn loose_break(i: u8, moor: Moor) -> Broken
    ensures { result ≡ loose_break i moor }
{
    match moor {
        Moor::Quay => Broken::Adrift(i),
        Moor::Ship(k) => Broken::BadHost(i, k),
    }
}

/// The first break of a placement of a deck: `Outside` by ship; then `Touching` by the first ship
/// and then the second; then `Adrift` or `BadHost` by ship. None exactly where the placement is
/// legal. Cargo plays no part. Takes no memory.
pub fn judge_spots(deck: &Deck, spots: &Spots) -> Option<Broken>
    requires { length spots.now ≡ length deck.now.ships }
    ensures none { IsNone result ↔ IsLegalPlacement deck.now spots.now }
    ensures some { IfSome result (IsFirstBroken deck.now spots.now) }
{
    let spots = spots.as_slice();
    if let Some(i) = first_outside(deck, spots) {
        return Some(Broken::Outside(i));
    }
    if let Some((i, j)) = first_touching(deck, spots) {
        return Some(Broken::Touching(i, j));
    }
    if let Some(i) = first_loose(deck, spots) {
        return Some(loose_break(i, spots[i as usize].moor));
    }
    None
}
