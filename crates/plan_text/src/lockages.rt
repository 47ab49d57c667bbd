//! The lockage that a lockage line and its berth lines make.
ghost use Rattle.std.specs.Prelude.{◌≡◌, ◌≤◌, ◌<◌, ◌++◌, ◌∷◌, [], true, length, filter, All};
ghost use Rattle.plan_text.specs.Berths.{has_berth, ships_of, spot_of, spots_of, berth_of, lockage_of};

use crate::berth::{Berth, Head};
use crate::moorings::{berth_of, has_berth, moor_of};
use lock_model::{Instance, Lockage, MOST, Ships, Spot, Spots};

/// Appends a ship if it has a berth.
fn push_berthed(ships: &mut Ships, berths: &[Berth], ship: u8)
    requires room { has_berth ship berths.now ≡ true → length ships.old < MOST }
    requires rising { All (λ s. s < ship) ships.old }
    ensures { ships.new ≡ ships.old ++ filter (λ s. has_berth s berths.now) (ship ∷ []) }
{
    if has_berth(berths, ship) {
        ships.push(ship);
    }
}

/// The ships that have a berth, by rising number.
fn ships_of(instance: &Instance, berths: &[Berth]) -> Ships
    requires { length berths.now ≤ MOST }
    ensures { result ≡ ships_of instance.now berths.now }
{
    let mut ships = Ships::new();
    for ship in 0..instance.ships.as_slice().len() as u8 {
        push_berthed(&mut ships, berths, ship);
    }
    ships
}

/// Where a ship of a deck lies.
fn spot_of(ships: &[u8], berth: Berth) -> Spot
    requires { length ships.now ≤ MOST }
    ensures { result ≡ spot_of ships.now berth }
{
    Spot {
        x: berth.x,
        y: berth.y,
        rank: berth.rank,
        moor: moor_of(ships, berth.host),
    }
}

/// The spots of these ships.
fn spots_of(ships: &[u8], berths: &[Berth]) -> Spots
    requires { length ships.now ≤ MOST }
    ensures { result ≡ spots_of ships.now berths.now }
{
    let mut spots = Spots::new();
    for &ship in ships {
        spots.push(spot_of(ships, berth_of(berths, ship)));
    }
    spots
}

/// The lockage of a lockage line and its berths.
#[tactic(auto, unfolding(crate::specs::Berths::lockage_of))]
pub fn lockage_of(instance: &Instance, head: Head, berths: &[Berth]) -> Lockage
    requires { length berths.now ≤ MOST }
    ensures { result ≡ lockage_of instance.now head berths.now }
{
    let ships = ships_of(instance, berths);
    let spots = spots_of(ships.as_slice(), berths);
    Lockage {
        chamber: head.chamber,
        way: head.way,
        ships,
        start: head.start,
        spots,
    }
}
