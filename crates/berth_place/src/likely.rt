//! Faults that the last berth of a case is likely to have brought about. Each is tested before it is
//! told, so how it is found plays no part in what holds of it.
ghost use Rattle.std.specs.Prelude.{◌<◌, IfSome};
ghost use Rattle.refute_rules.specs.BerthFaults.{IsBerthFault};
ghost use Rattle.berth_place.specs.Faults.{fault_of};

use crate::crowds::{likely_crowd, span_of};
use crate::faults::{BerthFault, stands};
use crate::lanes::{Lane, OPEN, Strip, lane_of};
use deck_cases::{Berth, Choice, berth_of, leads_back, length_of};
use lock_model::{Deck, MOST, Moor, Rank};

// A fault of a ship that lies at a host.
fn likely_at_host(
    deck: &Deck,
    choices: &[Choice],
    ship: u8,
    rank: Rank,
    host: u8,
) -> Option<BerthFault> {
    if length_of(deck, host as u32) < length_of(deck, ship as u32) {
        return Some(BerthFault::TooLong(ship));
    }
    if leads_back(deck, choices, ship as u32) {
        return Some(BerthFault::LeadsBack(ship));
    }
    match berth_of(choices, host as u32) {
        Some(berth) if berth.rank != rank => Some(BerthFault::OtherRank(ship)),
        _ => None,
    }
}

// A fault of the berth of a ship alone.
fn likely_at(deck: &Deck, choices: &[Choice], ship: u8, berth: Berth) -> Option<BerthFault> {
    match berth.moor {
        Moor::Quay => None,
        Moor::Ship(host) => likely_at_host(deck, choices, ship, berth.rank, host),
    }
}

// Whether a ship is a guest of another one, of another rank than this.
fn is_unlike_guest(choices: &[Choice], guest: u8, host: u8, rank: Rank) -> bool {
    match berth_of(choices, guest as u32) {
        Some(berth) => berth.moor == Moor::Ship(host) && berth.rank != rank,
        None => false,
    }
}

// A guest of a ship, of another rank than this.
fn likely_guest(deck: &Deck, choices: &[Choice], host: u8, rank: Rank) -> Option<BerthFault> {
    for guest in 0..deck.ships.as_slice().len() as u8 {
        if is_unlike_guest(choices, guest, host, rank) {
            return Some(BerthFault::OtherRank(guest));
        }
    }
    None
}

// The lanes of all ships, or a ship that isn't inside across the chamber.
fn lanes_of(deck: &Deck, choices: &[Choice]) -> Result<[Lane; MOST], BerthFault> {
    prove!(deck.ships.as_slice().len() <= MOST);
    let mut lanes = [OPEN; MOST];
    for ship in 0..deck.ships.as_slice().len() as u8 {
        let lane = lane_of(deck, choices, ship);
        if lane.strip == Strip::Outside {
            return Err(BerthFault::Outside(ship));
        }
        lanes[ship as usize] = lane;
    }
    Ok(lanes)
}

// How long a ship is if it is a guest of this host.
fn guest_span(deck: &Deck, lanes: &[Lane; MOST], ship: u8, host: u8) -> u32
    requires { ship < MOST }
{
    if lanes[ship as usize].host == Some(host) {
        span_of(deck, ship)
    } else {
        0
    }
}

// The guests of a ship, where they are likely to be too many.
fn likely_guests(deck: &Deck, lanes: &[Lane; MOST], host: u8) -> Option<BerthFault> {
    prove!(deck.ships.as_slice().len() <= MOST);
    let mut total: u32 = 0;
    for ship in 0..deck.ships.as_slice().len() as u8 {
        total = total.saturating_add(guest_span(deck, lanes, ship, host));
    }
    if total > span_of(deck, host) {
        Some(BerthFault::Guests(host))
    } else {
        None
    }
}

// A fault of ships that lie in line.
fn likely_in_line(deck: &Deck, lanes: &[Lane; MOST], moor: Moor) -> Option<BerthFault> {
    if let Moor::Ship(host) = moor
        && let Some(fault) = likely_guests(deck, lanes, host)
    {
        return Some(fault);
    }
    likely_crowd(deck, lanes)
}

// A fault that the berth of a ship is likely to have brought about.
fn likely_by(deck: &Deck, choices: &[Choice], ship: u8, berth: Berth) -> Option<BerthFault> {
    if let Some(fault) = likely_at(deck, choices, ship, berth) {
        return Some(fault);
    }
    if let Some(fault) = likely_guest(deck, choices, ship, berth.rank) {
        return Some(fault);
    }
    match lanes_of(deck, choices) {
        Err(fault) => Some(fault),
        Ok(lanes) => likely_in_line(deck, &lanes, berth.moor),
    }
}

// The fault, where it stands.
fn tested(deck: &Deck, choices: &[Choice], fault: BerthFault) -> Option<BerthFault>
    ensures { IfSome result (λ f. IsBerthFault deck.now choices.now (fault_of f)) }
{
    if stands(deck, choices, fault) {
        Some(fault)
    } else {
        None
    }
}

/// A fault of a case that its last option brought about, if one is found.
pub(crate) fn found_fault(deck: &Deck, choices: &[Choice]) -> Option<BerthFault>
    ensures { IfSome result (λ f. IsBerthFault deck.now choices.now (fault_of f)) }
{
    let likely = match choices.last() {
        Some(Choice::Lies(ship, berth)) => likely_by(deck, choices, *ship, *berth),
        _ => None,
    };
    tested(deck, choices, likely?)
}
