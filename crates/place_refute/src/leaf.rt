//! The leaves of case trees and of spot trees. A leaf begins with the kind of its fault.
ghost use Rattle.std.specs.Prelude.{◌≡◌, ◌≢◌, ◌<◌, ◌↔◌, ◌∷◌, length, slice_index_or, IsTrue, IfSome, IfNone};
ghost use Rattle.diff_rules.specs.Differences.{IsPositiveCycle};
ghost use Rattle.refute_rules.specs.Decided.{HasOtherRank};
ghost use Rattle.refute_rules.specs.SpotFaults.{IsSpotFault, spot_fault_numbers};
ghost use Rattle.place_refute.specs.declared.leaf.Trees.TheVariants.{OfSpots};
ghost use Rattle.place_refute.specs.Drawn.{IsDrawn};
ghost use Rattle.place_refute.specs.Reading.{IsFaultBy, IsFaultOf, IsLeafAt, HasNoLeafAt, count_of};

use crate::case::Case;
use crate::spot_faults::{are_touching, is_outside, is_past_host};
use crate::walk::is_positive_cycle;
use deck_cases::{Choice, has_other_rank, leads_back};
use lock_model::Deck;

/// What trees are of.
#[derive(Clone, Copy)]
pub(crate) enum Trees {
    OfCases,
    OfSpots,
}

// How many numbers follow the kind of a leaf.
fn count_of(trees: Trees, kind: u32) -> usize
    ensures { result ≡ count_of trees kind }
{
    match trees {
        Trees::OfCases => kind as usize,
        Trees::OfSpots => { if kind == 5 { 2 } else { 1 } }
    }
}

// Whether the numbers tell a fault of a case: a ship whose host has the other rank, or a closed
// walk of positive total.
fn is_case_fault(case: &Case, kind: u32, numbers: &[u32]) -> bool
    requires count { length numbers.now ≡ kind }
    requires kind { kind ≢ 0 }
    ensures rank { kind ≡ 1 → IsTrue result ↔ HasOtherRank case.now.choices (slice_index_or numbers.now 0 0) }
    ensures walk { kind ≢ 1 → IsTrue result ↔ IsPositiveCycle case.now.edges numbers.now }
{
    if kind == 1 {
        has_other_rank(case.choices(), numbers[0])
    } else {
        is_positive_cycle(case.edges(), numbers)
    }
}

// Whether the numbers tell one of the five faults of a spot case.
fn is_spot_fault(deck: &Deck, choices: &[Choice], kind: u32, numbers: &[u32]) -> bool
    requires { length numbers.now ≡ count_of OfSpots kind }
    ensures { IsTrue result ↔ IsFaultBy (IsSpotFault deck.now) spot_fault_numbers choices.now (kind ∷ numbers.now) }
{
    match kind {
        1 => has_other_rank(choices, numbers[0]),
        2 => leads_back(deck, choices, numbers[0]),
        3 => is_outside(deck, choices, numbers[0]),
        4 => is_past_host(deck, choices, numbers[0]),
        5 => are_touching(deck, choices, numbers[0], numbers[1]),
        _ => false,
    }
}

// Whether the numbers tell a fault.
fn is_fault(deck: &Deck, case: &Case, trees: Trees, kind: u32, numbers: &[u32]) -> bool
    requires count { length numbers.now ≡ count_of trees kind }
    requires kind { kind ≢ 0 }
    requires drawn { IsDrawn deck.now case.now }
    ensures { IsTrue result ↔ IsFaultOf deck.now trees case.now.choices (kind ∷ numbers.now) }
{
    match trees {
        Trees::OfCases => is_case_fault(case, kind, numbers),
        Trees::OfSpots => is_spot_fault(deck, case.choices(), kind, numbers),
    }
}

/// Where the leaf ends that stands at a place of the marks, if one stands there.
pub(crate) fn leaf_end(
    deck: &Deck,
    case: &Case,
    trees: Trees,
    marks: &[u32],
    at: usize,
) -> Option<usize>
    requires inside { at < length marks.now }
    requires kind { slice_index_or marks.now at 0 ≢ 0 }
    requires drawn { IsDrawn deck.now case.now }
    ensures some { IfSome result (IsLeafAt deck.now trees case.now.choices marks.now at) }
    ensures none { IfNone result (HasNoLeafAt deck.now trees case.now.choices marks.now at) }
{
    let kind = marks[at];
    let first = at + 1;
    let count = count_of(trees, kind);
    if count > marks.len() - first {
        return None;
    }
    let end = first + count;
    if is_fault(deck, case, trees, kind, &marks[first..end]) {
        Some(end)
    } else {
        None
    }
}
