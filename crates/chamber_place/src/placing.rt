//! The placer.
ghost use Rattle.std.specs.Prelude.{◌≤◌, IfOk};
ghost use Rattle.refute_rules.specs.Reasons.{HasNoReason};
ghost use Rattle.chamber_place.specs.Placing.{IsPlaced, RefutesExactly, SpendsExactly};

use crate::deck_case::DeckCase;
use case_search::{Found, search};
use deck_cuts::{Hard, hard};
use lock_model::{Deck, Spots};
use no_memory::NoMemory;
use refute_rules::Refutation;
use ship_shapes::find_reason;
use std::alloc::Global;

/// What the placer answers.
#[derive(Drop)]
pub enum Placed {
    /// Where each ship of the deck may lie: the least solution of the first whole case.
    Fits(Spots),
    /// Why the ships don't fit: the first quick reason, or else a case tree.
    Refuted(Refutation),
    /// The turns were too few.
    Spent(Hard),
}

/// Places the ships of a deck, or refutes it, within so many turns, at least 1. Cargo plays no part.
///
/// The answer is the first of these that applies: the first quick reason; the spots of the first
/// whole case, where that is among the first `turns` consistent cases; a case tree, where there are
/// at most `turns` consistent cases; else `Spent`, so exactly where the deck is hard for `turns`. Its
/// only refusal is want of memory.
pub fn place(alloc: Global, deck: &Deck, turns: u32) -> Result<Placed, NoMemory>
    requires { 1 ≤ turns }
    ensures answer { IfOk result (IsPlaced deck.now turns) }
    ensures refutes { IfOk result (RefutesExactly deck.now turns) }
    ensures spends { IfOk result (SpendsExactly deck.now turns) }
{
    match find_reason(deck) {
        Some(reason) => Ok(Placed::Refuted(Refutation::Quick(reason))),
        None => place_by_cases(alloc, deck, turns),
    }
}

// Searches the cases of a deck that has no quick reason.
fn place_by_cases(alloc: Global, deck: &Deck, turns: u32) -> Result<Placed, NoMemory>
    requires { HasNoReason deck.now }
    ensures answer { IfOk result (IsPlaced deck.now turns) }
    ensures refutes { IfOk result (RefutesExactly deck.now turns) }
    ensures spends { IfOk result (SpendsExactly deck.now turns) }
{
    let mut case = DeckCase::new(deck);
    match search(alloc, &mut case, turns)? {
        Found::Whole => Ok(Placed::Fits(case.spots())),
        Found::Refuted(marks) => Ok(Placed::Refuted(Refutation::Cases(marks))),
        Found::Spent => Ok(Placed::Spent(hard(deck.copy(), turns))),
    }
}
