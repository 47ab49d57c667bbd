//! The berths of the first ships of a deck.
ghost use Rattle.std.specs.Prelude.{◌≡◌, ◌≢◌, ◌<◌, ◌≤◌, ◌↔◌, length, IsTrue, IfSome, IfNone};
ghost use Rattle.refute_rules.specs.Decided.{berth_in, HasOtherRank};
ghost use Rattle.refute_rules.specs.Known.{host_of};
ghost use Rattle.spot_place.specs.OnWay.{lying, IsHostWithin, IsBack, NoneBelow};

use deck_cases::Berth;
use lock_model::{MOST, Moor, Rank};

/// The host of a ship, where its berth is decided and it has one.
#[tactic(auto, using(crate::proofs::CaseLemmas::host_hit, crate::proofs::CaseLemmas::host_miss))]
pub(crate) fn host_of(berths: &[Berth], ship: u8) -> Option<u8>
    ensures { result ≡ host_of (berth_in (lying berths.now) ship) }
{
    if (ship as usize) < berths.len() {
        match berths[ship as usize].moor {
            Moor::Quay => None,
            Moor::Ship(host) => Some(host),
        }
    } else {
        None
    }
}

/// Whether a ship is among the first hosts of another, counted towards the quay, at most so many.
fn leads_to(berths: &[Berth], steps: u8, from: u8, to: u8) -> bool
    ensures { IsTrue result ↔ IsHostWithin (lying berths.now) steps from to }
{
    if steps == 0 {
        return false;
    }
    match host_of(berths, from) {
        None => false,
        Some(host) => host == to || leads_to(berths, steps - 1, host, to),
    }
}

/// Whether the hosts of a ship, at most so many, lead back to it.
fn leads_back(berths: &[Berth], steps: u8, ship: u8) -> bool
    ensures { IsTrue result ↔ IsBack (lying berths.now) steps ship }
{
    leads_to(berths, steps, ship, ship)
}

/// Whether two ranks differ.
fn differ(rank: Rank, other: Rank) -> bool
    ensures { IsTrue result ↔ rank ≢ other }
{
    rank != other
}

/// Whether a ship lies at a host of the other rank.
fn has_other_rank(berths: &[Berth], ship: u8) -> bool
    requires { ship < length berths.now }
    ensures { IsTrue result ↔ HasOtherRank (lying berths.now) ship }
{
    match host_of(berths, ship) {
        None => false,
        Some(host) => {
            (host as usize) < berths.len()
                && differ(berths[host as usize].rank, berths[ship as usize].rank)
        }
    }
}

/// The first ship that lies at a host of the other rank.
pub(crate) fn first_of_other_rank(berths: &[Berth]) -> Option<u8>
    requires { length berths.now ≤ MOST }
    ensures some { IfSome result (HasOtherRank (lying berths.now)) }
    ensures none { IfNone result (NoneBelow (HasOtherRank (lying berths.now)) (length berths.now)) }
{
    let count = berths.len() as u8;
    for ship in 0..count {
        if has_other_rank(berths, ship) {
            return Some(ship);
        }
    }
    None
}

/// The first ship whose hosts, in a deck of so many ships, lead back to it.
pub(crate) fn first_leading_back(berths: &[Berth], ships: u8) -> Option<u8>
    requires { length berths.now ≤ MOST }
    ensures some { IfSome result (IsBack (lying berths.now) ships) }
    ensures none { IfNone result (NoneBelow (IsBack (lying berths.now) ships) (length berths.now)) }
{
    let count = berths.len() as u8;
    for ship in 0..count {
        if leads_back(berths, ships, ship) {
            return Some(ship);
        }
    }
    None
}
