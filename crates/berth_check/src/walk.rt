//! The walk over the marks: the case at hand is read, and its options are put before the others.
ghost use Rattle.std.specs.Prelude.{◌≡◌, ◌↔◌, ◌≤◌, ◌∷◌, IfOk, IsTrue};
ghost use Rattle.lock_model.specs.Fitting.{Fits};
ghost use Rattle.refute_rules.specs.BerthTrees.{IsBerthTree};
ghost use Rattle.berth_check.specs.Raises.{AreKnown};
ghost use Rattle.berth_check.specs.Fronts.{AreAllKnown};
ghost use Rattle.berth_check.specs.Pending.{IsReadingStep};

use crate::front::{Front, front_at};
use crate::pending::{Pending, push_berths, push_orders};
use lock_model::Deck;
use no_memory::NoMemory;
use std::alloc::Global;

// Reads what stands at a place of the marks, and tells where it ends.
#[tactic(auto, using(crate::proofs::StepLemmas::step_none, crate::proofs::StepLemmas::step_leaf, crate::proofs::StepLemmas::step_split))]
fn step(
    deck: &Deck,
    marks: &[u32],
    at: usize,
    pending: &mut Pending,
) -> Result<Option<usize>, NoMemory>
    requires known { AreKnown deck.now pending.old.case }
    requires others { AreAllKnown deck.now pending.old.others }
    ensures { IfOk result (IsReadingStep deck.now (pending.old.case ∷ pending.old.others) pending.new.others marks.now at) }
{
    match front_at(deck, pending.choices(), marks, at) {
        Front::Nothing => Ok(None),
        Front::Leaf(end) => Ok(Some(end)),
        Front::Berth(ship, end) => {
            push_berths(pending, deck, ship)?;
            Ok(Some(end))
        }
        Front::Order(i, j, end) => {
            push_orders(pending, deck, i, j)?;
            Ok(Some(end))
        }
    }
}

// Whether the marks are exactly one tree of the case that decides nothing.
#[tactic(auto, using(crate::proofs::StepLemmas::of_walks))]
fn is_walked(alloc: Global, deck: &Deck, marks: &[u32]) -> Result<bool, NoMemory>
    ensures { IfOk result (λ b. IsTrue b ↔ IsBerthTree deck.now marks.now) }
{
    let mut pending = Pending::new(alloc);
    let mut at: usize = 0;
    while let Some(end) = step(deck, marks, at, &mut pending)? {
        at = end;
        if !pending.advance()? {
            return Ok(at == marks.len());
        }
    }
    Ok(false)
}

/// Whether the marks are exactly one berth tree of the deck. Then the deck doesn't fit. Refuses
/// want of memory alone.
pub fn check_berth_tree(alloc: Global, deck: &Deck, marks: &[u32]) -> Result<bool, NoMemory>
    ensures exact { IfOk result (λ b. IsTrue b ↔ IsBerthTree deck.now marks.now) }
    ensures unfit { IfOk result (λ b. IsTrue b → Fits deck.now → ⊥) }
{
    // a deck keeps its limits
    prove!(!deck.ships.as_slice().is_empty());
    is_walked(alloc, deck, marks)
}
