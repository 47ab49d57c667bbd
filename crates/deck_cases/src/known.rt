//! Hosts that lead back, and known y. Numbers of ships may be any numbers.
ghost use Rattle.std.specs.Prelude.{◌≡◌, ◌≤◌, ◌↔◌, Contains, IsTrue, IfSome, length};
ghost use Rattle.refute_rules.specs.Known.{hosts_within, y_within, y_in};
ghost use Rattle.refute_rules.specs.SpotFaults.{IsOutsideAcross};
ghost use Rattle.deck_cases.specs.Reach.{IsWithinReach};

use crate::across::{is_inside_across, quay_y, y_at_host};
use crate::decided::{berth_of, host_of};
use lock_model::{Deck, MOST, Moor};
use refute_rules::Choice;

// Whether a ship is among the first hosts from another on.
fn leads_to(choices: &[Choice], steps: u8, from: u32, ship: u32) -> bool
    ensures { IsTrue result ↔ Contains (hosts_within choices.now steps from) ship }
{
    if steps == 0 {
        return false;
    }
    match host_of(choices, from) {
        None => false,
        Some(host) => host as u32 == ship || leads_to(choices, steps - 1, host as u32, ship),
    }
}

/// Whether a ship's decided hosts lead back to it.
pub fn leads_back(deck: &Deck, choices: &[Choice], ship: u32) -> bool
    ensures { IsTrue result ↔ Contains (hosts_within choices.now (length deck.now.ships) ship) ship }
{
    leads_to(choices, deck.ships.as_slice().len() as u8, ship, ship)
}

// A ship's y, where at most so many ships lead down to a quay.
#[tactic(auto, using(crate::proofs::KnownLemmas::y_host))]
fn y_within(deck: &Deck, choices: &[Choice], steps: u8, ship: u32) -> Option<i64>
    requires { steps ≤ MOST }
    ensures value { result ≡ y_within deck.now choices.now steps ship }
    ensures bound { IfSome result (IsWithinReach steps) }
{
    if steps == 0 {
        return None;
    }
    let berth = berth_of(choices, ship)?;
    match berth.moor {
        Moor::Quay => Some(quay_y(deck, ship, berth.rank)),
        Moor::Ship(host) => {
            let host_y = y_within(deck, choices, steps - 1, host as u32);
            y_at_host(deck, ship, host, berth.rank, host_y, steps - 1)
        }
    }
}

/// A ship's y, where it is known.
pub fn y_of(deck: &Deck, choices: &[Choice], ship: u32) -> Option<i64>
    ensures value { result ≡ y_in deck.now choices.now ship }
    ensures bound { IfSome result (IsWithinReach MOST) }
{
    y_within(deck, choices, deck.ships.as_slice().len() as u8, ship)
}

/// Whether a ship's y is known and it isn't inside across the chamber.
#[tactic(auto, using(crate::proofs::KnownLemmas::across_outside, crate::proofs::KnownLemmas::across_inside, crate::proofs::KnownLemmas::across_open))]
pub fn is_outside_across(deck: &Deck, choices: &[Choice], ship: u32) -> bool
    ensures { IsTrue result ↔ IsOutsideAcross deck.now choices.now ship }
{
    match y_of(deck, choices, ship) {
        None => false,
        Some(y) => !is_inside_across(deck, ship, y),
    }
}
