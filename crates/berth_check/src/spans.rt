//! How long ships are one after the other, and whether they are too long.
ghost use Rattle.std.specs.Prelude.{◌≡◌, ◌+◌, ◌*◌, ◌<◌, ◌≤◌, ◌↔◌, ◌^◌, true, IsTrue, length, sum_by, if◌then◌else◌};
ghost use Rattle.refute_rules.specs.Reasons.{length_at};
ghost use Rattle.refute_rules.specs.BerthCases.{host_in, is_ship, guests_of};
ghost use Rattle.refute_rules.specs.BerthFaults.{IsTooLong, AreTooMany, IsCrowd, ships_in};
ghost use Rattle.berth_check.specs.CrowdReads.{has, IsCloseIfHas, AreCloseTo, IsLastIfHas, AreAllClose};

use crate::pairs::are_close;
use deck_cases::{Choice, host_of, length_of};
use lock_model::{Deck, MOST};

/// Whether a ship is longer than its decided host.
#[tactic(auto, using(crate::proofs::FaultLemmas::long_yes, crate::proofs::FaultLemmas::long_no, crate::proofs::FaultLemmas::long_none))]
pub fn is_too_long(deck: &Deck, choices: &[Choice], ship: u32) -> bool
    ensures { IsTrue result ↔ IsTooLong deck.now choices.now ship }
{
    match host_of(choices, ship) {
        None => false,
        Some(host) => length_of(deck, host as u32) < length_of(deck, ship),
    }
}

// The length of a ship and the gap, where it counts.
fn span_if(deck: &Deck, ship: u8, counts: bool) -> u64
    ensures value { result ≡ (if counts then length_at deck.now ship + deck.now.gap else 0) }
    ensures few { result ≤ 8589934592 }
{
    if counts {
        length_of(deck, ship as u32) as u64 + deck.gap as u64
    } else {
        0
    }
}

// Whether a ship's decided host is this one.
fn is_guest(choices: &[Choice], ship: u8, host: u32) -> bool
    ensures { result ≡ is_ship host (host_in choices.now ship) }
{
    match host_of(choices, ship as u32) {
        None => false,
        Some(own) => own as u32 == host,
    }
}

// The spans of the guests of a ship.
#[tactic(auto, using(crate::proofs::CrowdLemmas::span_more))]
fn guests_span(deck: &Deck, choices: &[Choice], host: u32) -> u64
    ensures value { result ≡ sum_by (λ i. length_at deck.now i + deck.now.gap) (guests_of deck.now choices.now host) }
    ensures few { result ≤ 8589934592 * 8 }
{
    let count = deck.ships.as_slice().len() as u8;
    let mut total: u64 = 0;
    for ship in 0..count {
        total = total + span_if(deck, ship, is_guest(choices, ship, host));
    }
    total
}

/// Whether the guests of a ship are longer than it, one after the other.
pub fn are_too_many(deck: &Deck, choices: &[Choice], host: u32) -> bool
    ensures { IsTrue result ↔ AreTooMany deck.now choices.now host }
{
    (host as usize) < deck.ships.as_slice().len()
        && length_of(deck, host) as u64 + (deck.gap as u64) < guests_span(deck, choices, host)
}

// Whether a set has a ship.
fn has(set: u32, ship: u8) -> bool
    requires { ship < MOST }
    ensures { result ≡ has set ship }
{
    set / 2u32.pow(ship as u32) % 2 == 1
}

// The spans of the ships of a set.
#[tactic(auto, using(crate::proofs::CrowdLemmas::span_more))]
fn crowd_span(deck: &Deck, set: u32) -> u64
    ensures value { result ≡ sum_by (λ i. length_at deck.now i + deck.now.gap) (ships_in (length deck.now.ships) set) }
    ensures few { result ≤ 8589934592 * 8 }
{
    let count = deck.ships.as_slice().len() as u8;
    let mut total: u64 = 0;
    for ship in 0..count {
        total = total + span_if(deck, ship, has(set, ship));
    }
    total
}

// Whether a ship is close to another, where the set has it.
fn is_close_if_has(deck: &Deck, choices: &[Choice], set: u32, i: u8, j: u8) -> bool
    requires { i < MOST }
    ensures { IsTrue result ↔ IsCloseIfHas deck.now choices.now set i j }
{
    if has(set, i) {
        are_close(deck, choices, i as u32, j as u32)
    } else {
        true
    }
}

// Whether the lower ships of a set are close to a ship.
fn is_close_to_lower(deck: &Deck, choices: &[Choice], set: u32, ship: u8) -> bool
    requires { ship < MOST }
    ensures { IsTrue result ↔ AreCloseTo deck.now choices.now set ship ship }
{
    for lower in 0..ship {
        if !is_close_if_has(deck, choices, set, lower, ship) {
            return false;
        }
    }
    true
}

// Whether the lower ships of a set are close to a ship, where the set has it.
fn is_last_if_has(deck: &Deck, choices: &[Choice], set: u32, ship: u8) -> bool
    requires { ship < MOST }
    ensures { IsTrue result ↔ IsLastIfHas deck.now choices.now set ship }
{
    if has(set, ship) {
        is_close_to_lower(deck, choices, set, ship)
    } else {
        true
    }
}

// Whether each two ships of a set are close.
fn are_all_close(deck: &Deck, choices: &[Choice], set: u32) -> bool
    ensures { IsTrue result ↔ AreAllClose deck.now choices.now set (length deck.now.ships) }
{
    let count = deck.ships.as_slice().len() as u8;
    for ship in 0..count {
        if !is_last_if_has(deck, choices, set, ship) {
            return false;
        }
    }
    true
}

/// Whether a set names ships that are close to each other and too long one after the other.
#[tactic(auto, using(crate::proofs::CrowdLemmas::close_pairs, crate::proofs::CrowdLemmas::pairs_close))]
pub fn is_crowd(deck: &Deck, choices: &[Choice], set: u32) -> bool
    ensures { IsTrue result ↔ IsCrowd deck.now choices.now set }
{
    let count = deck.ships.as_slice().len() as u8;
    let long = crowd_span(deck, set) + 2 * deck.end as u64;
    1 <= set
        && set < 2u32.pow(count as u32)
        && are_all_close(deck, choices, set)
        && deck.length as u64 + (deck.gap as u64) < long
}
