//! What a berth case says of two ships. Numbers of ships may be any numbers.
ghost use Rattle.std.specs.Prelude.{◌≡◌, ◌≢◌, ◌<◌, ◌↔◌, ◌⊎◌, IsTrue};
ghost use Rattle.refute_rules.specs.declared.choices.Choice.TheVariants.{Before};
ghost use Rattle.refute_rules.specs.BerthCases.{DoOverlap, ShareHost, HasOrder};
ghost use Rattle.refute_rules.specs.BerthTrees.{AreUnordered};
ghost use Rattle.deck_cases.specs.Reach.{IsWithinReach};
ghost use Rattle.berth_check.specs.PairReads.{ArePassing, AreClose};

use deck_cases::{Choice, host_of, is_below, y_of};
use lock_model::{Deck, MOST};

// Whether one of two ships at known y lies below the other.
fn are_passing(deck: &Deck, i: u32, p: i64, j: u32, q: i64) -> bool
    requires first { IsWithinReach MOST p }
    requires second { IsWithinReach MOST q }
    ensures { IsTrue result ↔ ArePassing deck.now i p j q }
{
    is_below(deck, i, p, q) || is_below(deck, j, q, p)
}

/// Whether two ships have a known y and neither lies below the other.
#[tactic(auto, using(crate::proofs::PairLemmas::of_overlaps))]
pub fn do_overlap(deck: &Deck, choices: &[Choice], i: u32, j: u32) -> bool
    ensures { IsTrue result ↔ DoOverlap deck.now choices.now i j }
{
    match (y_of(deck, choices, i), y_of(deck, choices, j)) {
        (Some(p), Some(q)) => !are_passing(deck, i, p, j, q),
        _ => false,
    }
}

// Whether two ships have the same decided host.
#[tactic(auto, using(crate::proofs::PairLemmas::of_hosts))]
fn share_host(choices: &[Choice], i: u32, j: u32) -> bool
    ensures { IsTrue result ↔ ShareHost choices.now i j }
{
    match (host_of(choices, i), host_of(choices, j)) {
        (Some(first), Some(second)) => first == second,
        _ => false,
    }
}

/// Whether two ships overlap or have the same decided host.
pub(crate) fn are_close(deck: &Deck, choices: &[Choice], i: u32, j: u32) -> bool
    ensures { IsTrue result ↔ AreClose deck.now choices.now i j }
{
    do_overlap(deck, choices, i, j) || share_host(choices, i, j)
}

// Whether an option is the order of the first before the second.
fn is_order(choice: &Choice, i: u32, j: u32) -> bool
    ensures yes { IsTrue result → choice.now ≡ Before i j }
    ensures is { choice.now ≡ Before i j → IsTrue result }
{
    match choice {
        Choice::Before(first, second) => *first as u32 == i && *second as u32 == j,
        _ => false,
    }
}

// Whether the order of the first before the second stands in the case.
#[tactic(auto, using(crate::proofs::PairLemmas::of_orders))]
fn has_order(choices: &[Choice], i: u32, j: u32) -> bool
    ensures { IsTrue result ↔ HasOrder choices.now i j }
{
    for choice in choices {
        if is_order(choice, i, j) {
            return true;
        }
    }
    false
}

/// Whether two different ships overlap and neither order of them stands in the case.
pub fn are_unordered(deck: &Deck, choices: &[Choice], i: u32, j: u32) -> bool
    ensures { IsTrue result ↔ AreUnordered deck.now choices.now i j }
{
    i != j
        && do_overlap(deck, choices, i, j)
        && !has_order(choices, i, j)
        && !has_order(choices, j, i)
}
