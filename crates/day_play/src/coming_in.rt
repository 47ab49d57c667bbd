//! Which ships of a lockage have to come into the chamber before others.
ghost use Rattle.std.specs.Prelude.{◌≡◌, ◌<◌, ◌≤◌, length, All};
ghost use Rattle.lock_model.specs.Fleet.{ship_at};
ghost use Rattle.day_play.specs.Lawful.{IsWholeLockage, ship_of};
ghost use Rattle.day_play.specs.ComingIn.{hosted_by, ends_by, begins_within, lies_before, blocks, comes_after, after_any, first_ready};

use lock_model::{Instance, Lockage, Moor, Ship, Way};

/// The ship at a place of the lockage's deck.
fn ship_of<'a>(instance: &'a Instance, lockage: &Lockage, k: u8) -> &'a Ship
    requires whole { IsWholeLockage instance.now lockage.now }
    requires within { k < length lockage.now.ships }
    ensures { result.now ≡ ship_at instance.now (ship_of lockage.now k) }
{
    let number = lockage.ships.as_slice()[k as usize];
    &instance.ships.as_slice()[number as usize]
}

/// Whether who moors so is a guest of the ship at place `j`.
fn hosted_by(moor: Moor, j: u8) -> bool
    ensures { result ≡ hosted_by moor j }
{
    match moor {
        Moor::Quay => false,
        Moor::Ship(host) => host == j,
    }
}

/// Whether ship `k` ends, along the chamber, where ship `j` begins or before.
fn ends_by(instance: &Instance, lockage: &Lockage, k: u8, j: u8) -> bool
    requires whole { IsWholeLockage instance.now lockage.now }
    requires k_within { k < length lockage.now.ships }
    requires j_within { j < length lockage.now.ships }
    ensures { result ≡ ends_by instance.now lockage.now k j }
{
    let ship = ship_of(instance, lockage, k);
    let spots = lockage.spots.as_slice();
    spots[k as usize].x as u64 + ship.length as u64 <= spots[j as usize].x as u64
}

/// Whether ship `k` begins, across the chamber, before ship `j` ends.
fn begins_within(instance: &Instance, lockage: &Lockage, k: u8, j: u8) -> bool
    requires whole { IsWholeLockage instance.now lockage.now }
    requires k_within { k < length lockage.now.ships }
    requires j_within { j < length lockage.now.ships }
    ensures { result ≡ begins_within instance.now lockage.now k j }
{
    let ship = ship_of(instance, lockage, j);
    let spots = lockage.spots.as_slice();
    (spots[k as usize].y as u64) < spots[j as usize].y as u64 + ship.width as u64
}

/// Whether ship `k` lies wholly between ship `j` and the gate by which they come in.
fn lies_before(instance: &Instance, lockage: &Lockage, k: u8, j: u8) -> bool
    requires whole { IsWholeLockage instance.now lockage.now }
    requires k_within { k < length lockage.now.ships }
    requires j_within { j < length lockage.now.ships }
    ensures { result ≡ lies_before instance.now lockage.now lockage.now.way k j }
{
    match lockage.way {
        Way::Up => ends_by(instance, lockage, k, j),
        Way::Down => ends_by(instance, lockage, j, k),
    }
}

/// Whether ship `j` can't pass ship `k` once that is moored.
fn blocks(instance: &Instance, lockage: &Lockage, k: u8, j: u8) -> bool
    requires whole { IsWholeLockage instance.now lockage.now }
    requires k_within { k < length lockage.now.ships }
    requires j_within { j < length lockage.now.ships }
    ensures { result ≡ blocks instance.now lockage.now k j }
{
    lies_before(instance, lockage, k, j)
        && begins_within(instance, lockage, k, j)
        && begins_within(instance, lockage, j, k)
}

/// Whether ship `k` has to come in after ship `j`: as its guest, or since it would block it.
fn comes_after(instance: &Instance, lockage: &Lockage, k: u8, j: u8) -> bool
    requires whole { IsWholeLockage instance.now lockage.now }
    requires k_within { k < length lockage.now.ships }
    requires j_within { j < length lockage.now.ships }
    ensures { result ≡ comes_after instance.now lockage.now k j }
{
    hosted_by(lockage.spots.as_slice()[k as usize].moor, j) || blocks(instance, lockage, k, j)
}

/// Whether ship `k` has to come in after one of those at these places.
fn after_any(instance: &Instance, lockage: &Lockage, k: u8, places: &[u8]) -> bool
    requires whole { IsWholeLockage instance.now lockage.now }
    requires within { k < length lockage.now.ships }
    requires known { All (λ j. j < length lockage.now.ships) places.now }
    ensures { result ≡ after_any (comes_after instance.now lockage.now) k places.now }
{
    for &j in places {
        if comes_after(instance, lockage, k, j) {
            return true;
        }
    }
    false
}

/// The index of the first of these places whose ship has to come in after none of them, or their
/// number where there is none.
pub(crate) fn first_ready(instance: &Instance, lockage: &Lockage, places: &[u8]) -> usize
    requires whole { IsWholeLockage instance.now lockage.now }
    requires known { All (λ k. k < length lockage.now.ships) places.now }
    ensures value { result ≡ first_ready (comes_after instance.now lockage.now) places.now places.now }
    ensures within { result ≤ length places.now }
{
    for (i, &k) in places.iter().enumerate() {
        if !after_any(instance, lockage, k, places) {
            return i;
        }
    }
    places.len()
}
