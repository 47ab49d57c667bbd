//! The ships that the kept lockages don't serve.
ghost use Rattle.std.specs.Prelude.{◌≡◌, ◌+◌, ◌*◌, ◌<◌, ◌≤◌, ◌^◌, length, All, sum_by};
ghost use Rattle.replan.specs.Rest.{ships_left, from_minute, ships_from, delay_of};

use crate::numbers::ShipNumbers;
use lock_model::{Instance, Plan, SHIPS, Ship, ShipList};
use mooring_rules::served_in;

/// The ships that no lockage of the part serves, in instance order.
pub(crate) fn ships_left(instance: &Instance, part: &Plan) -> ShipNumbers
    ensures { result ≡ ships_left instance.now part.now }
{
    let count = instance.ships.as_slice().len() as u8;
    let mut numbers = ShipNumbers::new();
    for ship in 0..count {
        if served_in(part, ship) == 0 {
            numbers.push(ship);
        }
    }
    numbers
}

/// The ship, which arrives at the minute or later.
fn from_minute(ship: &Ship, from: u32) -> Ship
    ensures { result ≡ from_minute from ship.now }
{
    Ship {
        name: ship.name.copy(),
        way: ship.way,
        length: ship.length,
        width: ship.width,
        arrival: ship.arrival.max(from),
        handling: ship.handling,
        cargo: ship.cargo,
    }
}

/// These ships, none of which arrives before the minute.
pub(crate) fn ships_from(instance: &Instance, from: u32, numbers: &ShipNumbers) -> ShipList
    requires { All (λ s. s < length instance.now.ships) numbers.now }
    ensures { result ≡ ships_from instance.now from numbers.now }
{
    let mut ships = ShipList::new();
    for &number in numbers.as_slice() {
        ships.push(from_minute(&instance.ships.as_slice()[number as usize], from));
    }
    ships
}

/// By how many minutes these ships together arrive later.
pub(crate) fn delays(instance: &Instance, from: u32, numbers: &ShipNumbers) -> u64
    requires { All (λ s. s < length instance.now.ships) numbers.now }
    ensures value { result ≡ sum_by (delay_of instance.now from) numbers.now }
    ensures small { result ≤ SHIPS * 2 ^ 32 }
{
    let mut sum = 0;
    for &number in numbers.as_slice() {
        let arrival = instance.ships.as_slice()[number as usize].arrival;
        sum += (arrival.max(from) - arrival) as u64;
    }
    sum
}
