//! How long and when a chamber serves one group.
ghost use Rattle.std.specs.Prelude.{◌≡◌, ◌+◌, ◌^◌, ◌<◌, ◌≤◌, length, All, max};
ghost use Rattle.lock_rules.specs.Lawful.{duration_of, stand_after};
ghost use Rattle.lock_rules.specs.Timetable.{last_arrival, ready_at, start_of};

use crate::spans::first_free;
use lock_model::{Chamber, Group, Instance, Ships, Stand, Way};

/// How many minutes the chamber takes to serve these ships: its passage and the handling of each.
#[inline]
pub fn duration(instance: &Instance, chamber: u8, ships: &Ships) -> u64
    requires chamber_in { chamber < length instance.now.chambers }
    requires ships_in { All (λ s. s < length instance.now.ships) ships.now }
    ensures value { result ≡ duration_of instance.now chamber ships.now }
    ensures small { result ≤ 9000000 }
{
    let mut sum = instance.chambers.as_slice()[chamber as usize].pass as u64;
    for &ship in ships.as_slice() {
        sum += instance.ships.as_slice()[ship as usize].handling as u64;
    }
    sum
}

/// The side where a lockage of this way leaves the chamber.
#[inline]
pub fn stand_after(way: Way) -> Stand
    ensures { result ≡ stand_after way }
{
    match way {
        Way::Up => Stand::High,
        Way::Down => Stand::Low,
    }
}

/// The last arrival of these ships, or `low` where that is later.
#[inline]
pub fn last_arrival(instance: &Instance, low: u64, ships: &Ships) -> u64
    requires { All (λ s. s < length instance.now.ships) ships.now }
    ensures value { result ≡ last_arrival instance.now low ships.now }
    ensures small { result ≤ max low 1000000 }
{
    let mut latest = low;
    for &ship in ships.as_slice() {
        latest = latest.max(instance.ships.as_slice()[ship as usize].arrival as u64);
    }
    latest
}

/// The first minute at which the chamber may be ready for the way, where it stands so and is done
/// with all before at `from`: after an empty turn where it stands on the other side.
#[inline]
pub fn ready(chamber: &Chamber, stand: Stand, from: u64, way: Way) -> u64
    requires from_small { from ≤ 2 ^ 61 }
    requires turn_small { chamber.now.turn ≤ 1000000 }
    ensures value { result ≡ ready_at chamber.now stand from way }
    ensures small { result ≤ max from 1000000 + 1000000 }
{
    match (stand, way) {
        (Stand::Low, Way::Up) | (Stand::High, Way::Down) => from,
        (Stand::Low, Way::Down) | (Stand::High, Way::Up) => {
            first_free(&chamber.closures, chamber.turn as u64, from) + chamber.turn as u64
        }
    }
}

/// The earliest start of a group and the end that belongs to it, where the chamber stands so and
/// is done with all before at minute `from`.
#[inline]
pub fn group_times(
    instance: &Instance,
    chamber: u8,
    stand: Stand,
    from: u64,
    group: &Group,
) -> (u64, u64)
    requires chamber_in { chamber < length instance.now.chambers }
    requires ships_in { All (λ s. s < length instance.now.ships) group.now.ships }
    requires from_small { from ≤ 2 ^ 61 }
    ensures start { result.0 ≡ start_of instance.now chamber stand from group.now }
    ensures end { result.1 ≡ result.0 + duration_of instance.now chamber group.now.ships }
    ensures small { result.1 ≤ max from 1000000 + 12000000 }
{
    let lock = &instance.chambers.as_slice()[chamber as usize];
    let low = last_arrival(instance, ready(lock, stand, from, group.way), &group.ships);
    let long = duration(instance, chamber, &group.ships);
    let start = first_free(&lock.closures, long, low);
    (start, start + long)
}
