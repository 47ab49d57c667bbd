//! What options have decided of a ship, which any number may name.
ghost use Rattle.std.specs.Prelude.{◌≡◌, ◌↔◌, IsTrue, IfSome, IfNone};
ghost use Rattle.refute_rules.specs.Decided.{berth_in, x_in, HasOtherRank};
ghost use Rattle.refute_rules.specs.Known.{host_of, moor_host};
ghost use Rattle.deck_cases.specs.Lookups.{PassesBerth, GivesBerth, PassesX, GivesX, IsOfOtherRank};

use lock_model::{Moor, Rank};
use refute_rules::{Berth, Choice};

// The berth that an option gives a ship.
#[tactic(auto, using(crate::proofs::LookupLemmas::berth_hit, crate::proofs::LookupLemmas::berth_miss))]
fn berth_by(choice: &Choice, ship: u32) -> Option<Berth>
    ensures none { IfNone result (PassesBerth choice.now ship) }
    ensures some { IfSome result (GivesBerth choice.now ship) }
{
    match choice {
        Choice::Lies(own, berth) if *own as u32 == ship => Some(*berth),
        _ => None,
    }
}

// The x that an option gives a ship.
#[tactic(auto, using(crate::proofs::LookupLemmas::x_hit, crate::proofs::LookupLemmas::x_miss))]
fn x_by(choice: &Choice, ship: u32) -> Option<u32>
    ensures none { IfNone result (PassesX choice.now ship) }
    ensures some { IfSome result (GivesX choice.now ship) }
{
    match choice {
        Choice::LiesAt(own, x) if *own as u32 == ship => Some(*x),
        _ => None,
    }
}

/// The berth of a ship, where it is decided.
#[tactic(auto, using(crate::proofs::LookupLemmas::berth_passed, crate::proofs::LookupLemmas::berth_given, crate::proofs::LookupLemmas::berth_absent))]
pub fn berth_of(choices: &[Choice], ship: u32) -> Option<Berth>
    ensures { result ≡ berth_in choices.now ship }
{
    for choice in choices {
        if let Some(berth) = berth_by(choice, ship) {
            return Some(berth);
        }
    }
    None
}

/// The x of a ship in decimetres, where it is decided.
#[tactic(auto, using(crate::proofs::LookupLemmas::x_passed, crate::proofs::LookupLemmas::x_given, crate::proofs::LookupLemmas::x_absent))]
pub fn x_of(choices: &[Choice], ship: u32) -> Option<u32>
    ensures { result ≡ x_in choices.now ship }
{
    for choice in choices {
        if let Some(x) = x_by(choice, ship) {
            return Some(x);
        }
    }
    None
}

// The host of a mooring.
fn moor_host(moor: Moor) -> Option<u8>
    ensures { result ≡ moor_host moor }
{
    match moor {
        Moor::Quay => None,
        Moor::Ship(host) => Some(host),
    }
}

/// The host of a ship, where it is decided.
pub fn host_of(choices: &[Choice], ship: u32) -> Option<u8>
    ensures { result ≡ host_of (berth_in choices.now ship) }
{
    match berth_of(choices, ship) {
        None => None,
        Some(berth) => moor_host(berth.moor),
    }
}

// Whether a ship's berth is decided and of another rank than this.
fn is_of_other_rank(choices: &[Choice], ship: u32, rank: Rank) -> bool
    ensures { IsTrue result ↔ IsOfOtherRank choices.now ship rank }
{
    match berth_of(choices, ship) {
        None => false,
        Some(berth) => berth.rank != rank,
    }
}

/// Whether a ship's host is decided and has the other rank.
pub fn has_other_rank(choices: &[Choice], ship: u32) -> bool
    ensures { IsTrue result ↔ HasOtherRank choices.now ship }
{
    match berth_of(choices, ship) {
        Some(
            Berth {
                rank,
                moor: Moor::Ship(host),
            },
        ) => is_of_other_rank(choices, host as u32, rank),
        _ => false,
    }
}
