//! Whether a refutation holds for a deck.
ghost use Rattle.std.specs.Prelude.{◌≡◌, ◌↔◌, [], IfOk, IsTrue};
ghost use Rattle.lock_model.specs.Cargo.{Clash};
ghost use Rattle.lock_model.specs.Fitting.{Fits};
ghost use Rattle.refute_rules.specs.Refutes.{IsRefuted};
ghost use Rattle.refute_rules.specs.Clashes.{IsClashingPair};
ghost use Rattle.refute_rules.specs.Trees.{IsCaseTree, IsSpotTree};
ghost use Rattle.refute_rules.specs.Values.{spot_values};
ghost use Rattle.place_refute.specs.Reading.{IsTreeOf};
ghost use Rattle.place_refute.specs.Walking.{IsReading};

use crate::case::Case;
use crate::leaf::Trees;
use crate::tree::{Reading, tree_end};
use berth_check::check_berth_tree;
use deck_cases::{case_decisions, spot_decisions};
use deck_laws::spot_values;
use lock_model::{Deck, Size};
use no_memory::NoMemory;
use refute_rules::Refutation;
use ship_shapes::holds;
use std::alloc::Global;

// Whether the marks are exactly one tree of the empty case.
#[tactic(auto, using(crate::proofs::DrawnLemmas::empty_drawn))]
fn is_tree(reading: &Reading) -> bool
    requires { IsReading reading.now.deck.now reading.now.trees reading.now.decisions.now reading.now.values.now }
    ensures { IsTrue result ↔ IsTreeOf reading.now.deck.now reading.now.trees reading.now.decisions.now [] reading.now.marks.now [] }
{
    let mut case = Case::of(reading.deck);
    match tree_end(reading, &mut case, 0) {
        None => false,
        Some(end) => end == reading.marks.len(),
    }
}

// Whether the marks are a case tree of the deck.
fn is_case_tree(deck: &Deck, marks: &[u32]) -> bool
    ensures { IsTrue result ↔ IsCaseTree deck.now marks.now }
{
    let decisions = case_decisions(deck.ships.as_slice().len() as u8);
    let reading = Reading {
        deck,
        trees: Trees::OfCases,
        decisions: &decisions,
        values: &[],
        marks,
    };
    is_tree(&reading)
}

// Whether the marks are a spot tree of the deck, whose spot values are given.
fn is_spot_tree(deck: &Deck, values: &[u32], marks: &[u32]) -> bool
    requires { values.now ≡ spot_values deck.now }
    ensures { IsTrue result ↔ IsSpotTree deck.now marks.now }
{
    let decisions = spot_decisions(deck.ships.as_slice().len() as u8);
    let reading = Reading {
        deck,
        trees: Trees::OfSpots,
        decisions: &decisions,
        values,
        marks,
    };
    is_tree(&reading)
}

// Whether the cargo classes differ and neither is 0.
fn clash(first: &Size, second: &Size) -> bool
    ensures { IsTrue result ↔ Clash first.now second.now }
{
    first.cargo != second.cargo && first.cargo != 0 && second.cargo != 0
}

// Whether two ships of the deck, the first before the second, clash.
fn is_clashing_pair(deck: &Deck, first: u8, second: u8) -> bool
    ensures { IsTrue result ↔ IsClashingPair deck.now first second }
{
    let sizes = deck.ships.as_slice();
    if first >= second || second as usize >= sizes.len() {
        return false;
    }
    clash(&sizes[first as usize], &sizes[second as usize])
}

// Whether the refutation holds, as its kind says.
fn is_refuted(alloc: Global, deck: &Deck, refutation: &Refutation) -> Result<bool, NoMemory>
    ensures { IfOk result (λ b. IsTrue b ↔ IsRefuted deck.now refutation.now) }
{
    match refutation {
        Refutation::Quick(quick) => Ok(holds(deck, quick)),
        Refutation::Cases(marks) => Ok(is_case_tree(deck, marks.as_slice())),
        Refutation::Spots(marks) => {
            let values = spot_values(alloc, deck)?;
            Ok(is_spot_tree(deck, values.as_slice(), marks.as_slice()))
        }
        Refutation::Clash(first, second) => Ok(is_clashing_pair(deck, *first, *second)),
        Refutation::Berths(marks) => {
            let holds = check_berth_tree(alloc, deck, marks.as_slice())?;
            Ok(holds)
        }
    }
}

/// Whether a refutation holds for a deck: a quick reason that holds, marks that are exactly one
/// case tree, exactly one spot tree or exactly one berth tree of the deck, or two ships of the deck,
/// the first before the second, that clash. Then the deck doesn't fit. Numbers out of range are just
/// no refutation. Refuses want of memory alone, and only at spot trees and berth trees.
pub fn check_refutation(
    alloc: Global,
    deck: &Deck,
    refutation: &Refutation,
) -> Result<bool, NoMemory>
    ensures exact { IfOk result (λ b. IsTrue b ↔ IsRefuted deck.now refutation.now) }
    ensures unfit { IfOk result (λ b. IsTrue b → Fits deck.now → ⊥) }
{
    // a deck keeps its limits
    prove!(!deck.ships.as_slice().is_empty());
    is_refuted(alloc, deck, refutation)
}
