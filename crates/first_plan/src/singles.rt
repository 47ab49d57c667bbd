//! Ships served alone, one after the other.
ghost use Rattle.std.specs.Prelude.{◌≡◌, ◌^◌, ◌<◌, ◌≤◌, length, All};
ghost use Rattle.lock_rules.specs.Unfit.{FitsSome, HasNoUnfit};
ghost use Rattle.lock_rules.specs.Singles.{Standing as Stood, chosen_chamber, single_lockage, singles_from, first_standings};
ghost use Rattle.lock_rules.specs.Lawful.{stand_after};
ghost use Rattle.lock_model.specs.Fleet.{ship_at};

use crate::choice::{choose, next_times};
use crate::standing::{Standing, Standings};
use chamber_times::stand_after;
use lock_model::{Instance, Lockage, Lockages, Moor, Rank, SHIPS, Ships, Spot, Spots};

// The chamber that serves the ship first.
fn chamber_for(instance: &Instance, ship: u8, standings: &Standings) -> u8
    requires ship_in { ship < length instance.now.ships }
    requires each { length standings.now ≡ length instance.now.chambers }
    requires from_small { All (λ (st : Stood). st.from ≤ 2 ^ 61) standings.now }
    requires fit { FitsSome instance.now ship }
    ensures value { result ≡ chosen_chamber instance.now ship standings.now }
    ensures known { result < length instance.now.chambers }
{
    let (chamber, _) = choose(instance, ship, standings).unwrap_or((0, 0));
    chamber
}

// The ship alone at the near end of the left quay.
fn single_lockage(instance: &Instance, ship: u8, chamber: u8, start: u32) -> Lockage
    requires ship_in { ship < length instance.now.ships }
    requires chamber_in { chamber < length instance.now.chambers }
    ensures { result ≡ single_lockage instance.now ship chamber start }
{
    let mut spots = Spots::new();
    spots.push(Spot {
        x: instance.chambers.as_slice()[chamber as usize].end,
        y: 0,
        rank: Rank::Left,
        moor: Moor::Quay,
    });
    Lockage {
        chamber,
        way: instance.ships.as_slice()[ship as usize].way,
        ships: Ships::single(ship),
        start,
        spots,
    }
}

// How a chamber stands after it has served the ship alone, up to minute `end`.
fn left_by(instance: &Instance, ship: u8, end: u64) -> Standing
    requires { ship < length instance.now.ships }
    ensures { result ≡ record { stand = stand_after (ship_at instance.now ship).way; from = end } }
{
    Standing {
        stand: stand_after(instance.ships.as_slice()[ship as usize].way),
        from: end,
    }
}

/// The lockages of these ships, each alone, appended in this order.
pub(crate) fn singles_in(instance: &Instance, order: &[u8]) -> Lockages
    requires fit { HasNoUnfit instance.now }
    requires known { All (λ s. s < length instance.now.ships) order.now }
    requires few { length order.now ≤ SHIPS }
    ensures { result ≡ singles_from instance.now (first_standings instance.now) order.now }
{
    let mut standings = Standings::first(instance);
    let mut lockages = Lockages::new();
    for &ship in order {
        let chamber = chamber_for(instance, ship, &standings);
        let standing = standings.get(chamber as usize);
        let (start, end) = next_times(instance, ship, chamber, &standing);
        lockages.push(single_lockage(instance, ship, chamber, start as u32));
        standings.set(chamber as usize, left_by(instance, ship, end));
    }
    lockages
}
