//! Tests of the limits, for instances and decks that are made of values from outside.
ghost use Rattle.std.specs.Prelude.{◌≡◌, ◌≢◌, ◌<◌, ◌≤◌, ◌↔◌, ◌^◌, length, All, AllPairs, IsTrue};
ghost use Rattle.lock_model.specs.Limits.{Within, IsName, HasNewName, is_name_byte};
ghost use Rattle.lock_model.specs.Instance.{IsShip, IsChamber, IsInstance};
ghost use Rattle.lock_model.specs.Closures.{AreClosures};
ghost use Rattle.lock_model.specs.Deck.{IsSize};

use crate::chamber::{Chamber, Chambers};
use crate::deck::{Measures, Size};
use crate::limits::MOST;
use crate::name::Name;
use crate::ship::{Ship, ShipList};

// Whether a number is from low to high, both included.
pub(crate) fn is_within(low: u32, high: u32, n: u32) -> bool
    ensures { IsTrue result ↔ Within low high n }
{
    low <= n && n <= high
}

// Whether a name may have this byte.
fn is_name_byte(byte: u8) -> bool
    ensures { result ≡ is_name_byte byte }
{
    byte.is_ascii_alphanumeric() || byte == b'-' || byte == b'_'
}

// Whether a name has one to twelve bytes, all of them allowed.
fn is_name(name: &Name) -> bool
    ensures { IsTrue result ↔ IsName name.now }
{
    let bytes = name.as_slice();
    if bytes.is_empty() {
        return false;
    }
    for &byte in bytes {
        if !is_name_byte(byte) {
            return false;
        }
    }
    true
}

// Whether a size is within the limits.
pub(crate) fn is_size(size: &Size) -> bool
    ensures { IsTrue result ↔ IsSize size.now }
{
    is_within(1, 100_000, size.length) && is_within(1, 100_000, size.width) && size.cargo <= 9
}

// Whether a ship is within the limits.
fn is_ship(ship: &Ship) -> bool
    ensures { IsTrue result ↔ IsShip ship.now }
{
    is_name(&ship.name)
        && is_within(1, 100_000, ship.length)
        && is_within(1, 100_000, ship.width)
        && ship.arrival <= 1_000_000
        && ship.handling <= 1_000_000
        && ship.cargo <= 9
}

// Whether measures are within the limits.
pub(crate) fn are_measures(measures: &Measures) -> bool
    ensures { IsTrue result ↔ (Within 1 100000 measures.now.length × Within 1 100000 measures.now.width × (measures.now.end ≤ 10000) × (measures.now.gap ≤ 10000) × (measures.now.side ≤ 10000)) }
{
    is_within(1, 100_000, measures.length)
        && is_within(1, 100_000, measures.width)
        && measures.end <= 10_000
        && measures.gap <= 10_000
        && measures.side <= 10_000
}

// Whether the times of a chamber are within the limits; its closures keep theirs by their type.
fn has_times(chamber: &Chamber) -> bool
    ensures times { IsTrue result ↔ (Within 1 1000000 chamber.now.pass × (chamber.now.turn ≤ chamber.now.pass) × (chamber.now.opens ≤ 1000000)) }
    ensures closures { AreClosures chamber.now.closures }
{
    let _closures = chamber.closures.as_slice();
    is_within(1, 1_000_000, chamber.pass)
        && chamber.turn <= chamber.pass
        && chamber.opens <= 1_000_000
}

// Whether a chamber is within the limits.
fn is_chamber(chamber: &Chamber) -> bool
    ensures { IsTrue result ↔ IsChamber chamber.now }
{
    is_name(&chamber.name)
        && are_measures(&chamber.measures())
        && is_within(1, MOST as u32, chamber.most as u32)
        && has_times(chamber)
}

// Whether each ship is within the limits.
fn are_ships(ships: &[Ship]) -> bool
    ensures { IsTrue result ↔ All IsShip ships.now }
{
    for ship in ships {
        if !is_ship(ship) {
            return false;
        }
    }
    true
}

// Whether each chamber is within the limits.
fn are_chambers(chambers: &[Chamber]) -> bool
    ensures { IsTrue result ↔ All IsChamber chambers.now }
{
    for chamber in chambers {
        if !is_chamber(chamber) {
            return false;
        }
    }
    true
}

// What has a name.
trait Named {
    ghost use Rattle.std.specs.Prelude.{ℕ, List};

    ghost name_of: { Self → List ℕ };

    fn name(&self) -> &Name
        ensures { result.now ≡ name_of self.now };
}

impl Named for Ship {
    ghost name_of = { λ s. s.name };

    fn name(&self) -> &Name {
        &self.name
    }
}

impl Named for Chamber {
    ghost name_of = { λ c. c.name };

    fn name(&self) -> &Name {
        &self.name
    }
}

// Whether none of the first `i` has the name of the one after them.
fn is_first_of_name<T: Named>(items: &[T], i: usize) -> bool
    requires { i < length items.now }
    ensures { IsTrue result ↔ HasNewName T.name_of items.now i }
{
    for k in 0..i {
        if items[k].name() == items[i].name() {
            return false;
        }
    }
    true
}

// Whether no two have the same name.
fn have_own_names<T: Named>(items: &[T]) -> bool
    ensures { IsTrue result ↔ AllPairs (λ a b. T.name_of a ≢ T.name_of b) items.now }
{
    for i in 0..items.len() {
        if !is_first_of_name(items, i) {
            return false;
        }
    }
    true
}

// Whether chambers and ships make an instance.
pub(crate) fn is_instance(chambers: &Chambers, ships: &ShipList) -> bool
    ensures { IsTrue result ↔ IsInstance chambers.now ships.now }
{
    let chambers = chambers.as_slice();
    let ships = ships.as_slice();
    !chambers.is_empty()
        && !ships.is_empty()
        && are_chambers(chambers)
        && are_ships(ships)
        && have_own_names(chambers)
        && have_own_names(ships)
}
