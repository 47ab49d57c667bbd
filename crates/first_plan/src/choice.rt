//! Which chamber serves the next ship first.
ghost use Rattle.std.specs.Prelude.{◌≡◌, ◌^◌, ◌+◌, ◌<◌, ◌≤◌, ◌∷◌, [], length, All, if◌then◌else◌, max};
ghost use Rattle.lock_rules.specs.Bound.{fits_alone};
ghost use Rattle.lock_rules.specs.Singles.{Standing as Stood, earlier, choice_from, next_start, next_end};

use crate::standing::{Standing, Standings};
use chamber_times::group_times;
use lock_model::{Group, Instance, Ships, fits_alone};

// The start and the end of a ship, where the chamber serves it next, alone.
pub(crate) fn next_times(
    instance: &Instance,
    ship: u8,
    chamber: u8,
    standing: &Standing,
) -> (u64, u64)
    requires ship_in { ship < length instance.now.ships }
    requires chamber_in { chamber < length instance.now.chambers }
    requires from_small { standing.now.from ≤ 2 ^ 61 }
    ensures start { result.0 ≡ next_start instance.now ship chamber standing.now }
    ensures end { result.1 ≡ next_end instance.now ship chamber standing.now }
    ensures order { result.0 ≤ result.1 }
    ensures small { result.1 ≤ max standing.now.from 1000000 + 12000000 }
{
    let group = Group {
        way: instance.ships.as_slice()[ship as usize].way,
        ships: Ships::single(ship),
    };
    group_times(instance, chamber, standing.stand, standing.from, &group)
}

// Chamber and end, where the ship fits the chamber alone.
fn candidate(instance: &Instance, ship: u8, chamber: u8, standing: &Standing) -> Option<(u8, u64)>
    requires ship_in { ship < length instance.now.ships }
    requires chamber_in { chamber < length instance.now.chambers }
    requires from_small { standing.now.from ≤ 2 ^ 61 }
    ensures { result ≡ (if fits_alone instance.now ship chamber then Some (chamber, next_end instance.now ship chamber standing.now) else None) }
{
    let vessel = &instance.ships.as_slice()[ship as usize];
    if fits_alone(&instance.chambers.as_slice()[chamber as usize], vessel) {
        let (_, end) = next_times(instance, ship, chamber, standing);
        Some((chamber, end))
    } else {
        None
    }
}

// The one with the earlier end, the first on a tie.
fn earlier(first: Option<(u8, u64)>, second: Option<(u8, u64)>) -> Option<(u8, u64)>
    ensures { result ≡ earlier first second }
{
    match (first, second) {
        (None, other) => other,
        (Some(one), None) => Some(one),
        (Some(one), Some(other)) => {
            if one.1 <= other.1 {
                Some(one)
            } else {
                Some(other)
            }
        }
    }
}

// Of the chambers that the ship fits alone, the one with the earliest end, the lower on a tie, and that end.
pub(crate) fn choose(instance: &Instance, ship: u8, standings: &Standings) -> Option<(u8, u64)>
    requires ship_in { ship < length instance.now.ships }
    requires each { length standings.now ≡ length instance.now.chambers }
    requires from_small { All (λ (st : Stood). st.from ≤ 2 ^ 61) standings.now }
    ensures { result ≡ choice_from instance.now ship 0 standings.now }
{
    let standings = standings.as_slice();
    let mut best = None;
    let mut chamber = standings.len() as u8;
    while chamber > 0 {
        chamber -= 1;
        best = earlier(
            candidate(instance, ship, chamber, &standings[chamber as usize]),
            best,
        );
    }
    best
}
