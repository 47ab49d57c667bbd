//! Berths by ship, and whether each has its host.
ghost use Rattle.std.specs.Prelude.{◌≡◌, ◌≤◌, length, Ok, Err};
ghost use Rattle.plan_text.specs.Berths.{has_berth, is_hosted_by, check_hosts, berth_of, place_of, moor_of};

use crate::berth::{Berth, Host};
use crate::kinds::{BadPlan, PlanKind, bad};
use lock_model::{MOST, Moor};

/// Whether a ship has a berth among these.
pub fn has_berth(berths: &[Berth], ship: u8) -> bool
    ensures { result ≡ has_berth ship berths.now }
{
    berths.iter().any(|berth| berth.ship == ship)
}

/// Whether a host is the quay or has a berth.
fn is_hosted_by(berths: &[Berth], host: Host) -> bool
    ensures { result ≡ is_hosted_by berths.now host }
{
    match host {
        Host::Quay => true,
        Host::Ship(ship) => has_berth(berths, ship),
    }
}

/// Refuses with `Host` the first berth whose host has none, at its line.
pub fn check_hosts(berths: &[Berth]) -> Result<(), BadPlan>
    ensures { result ≡ check_hosts berths.now berths.now }
{
    for berth in berths {
        if !is_hosted_by(berths, berth.host) {
            return Err(bad(berth.line, PlanKind::Host));
        }
    }
    Ok(())
}

/// The berth of a ship that has one.
pub fn berth_of(berths: &[Berth], ship: u8) -> Berth
    ensures { result ≡ berth_of ship berths.now }
{
    for berth in berths {
        if berth.ship == ship {
            return *berth;
        }
    }
    Berth::default()
}

/// The place of a ship among ships, or their number where it is none of them.
fn place_of(ships: &[u8], ship: u8) -> u8
    requires { length ships.now ≤ MOST }
    ensures { result ≡ place_of ship ships.now }
{
    for place in 0..ships.len() as u8 {
        if ships[place as usize] == ship {
            return place;
        }
    }
    ships.len() as u8
}

/// The mooring at a host in the deck of these ships.
pub fn moor_of(ships: &[u8], host: Host) -> Moor
    requires { length ships.now ≤ MOST }
    ensures { result ≡ moor_of ships.now host }
{
    match host {
        Host::Quay => Moor::Quay,
        Host::Ship(ship) => Moor::Ship(place_of(ships, ship)),
    }
}
