//! The book on which the caller drives once all workers have ended.
//!
//! Of the book that workers share nothing is known but its type. So the caller tests that it is the
//! one that it opened, and that nothing stands against its driving.
ghost use Rattle.std.specs.Prelude.{◌≡◌, ◌≤◌, ◌↔◌, All, IsTrue, IfOk, None};
ghost use Rattle.lock_rules.specs.Plan.{IsLegal, cost_of};
ghost use Rattle.book_rules.specs.Book.{first_slot, is_held_by};
ghost use Rattle.book_rules.specs.Cover.{IsOwnCut};
ghost use Rattle.solve_workers.specs.Holding.{IsRunning};
ghost use Rattle.solve_workers.specs.Opening.{IsReady, opened_with};
ghost use Rattle.solve_workers.specs.Settling.{IsOurs, IsFreed};

use crate::comparing::same_case;
use crate::cut_list::CutList;
use crate::held::DRIVER;
use crate::opening::opened;
use book_core::{Book, Case};
use lock_model::{Plan, WORKERS};
use no_memory::NoMemory;
use std::alloc::Global;

// Whether the book is of this case and was opened at this cost, and the driver has neither ended nor
// holds a slot.
fn is_ours(book: &Book, case: &Case, cost: u64) -> bool
    ensures { IsTrue result ↔ IsOurs case.now cost book.now }
{
    same_case(book.case(), case)
        && book.opening_cost() == cost
        && !book.ended(DRIVER)
        && book.held_by(DRIVER).is_none()
}

// Releases the workers; the book refuses those that have ended.
#[tactic(auto, using(crate::proofs::SettleLemmas::free_at_last))]
fn release_others(book: &mut Book)
    requires running { IsRunning book.old }
    requires empty { first_slot book.old (is_held_by WORKERS) ≡ None }
    ensures { IsFreed book.old book.new }
{
    book.keeps();
    for worker in 0..DRIVER {
        book.keeps();
        book.release(worker);
    }
}

/// The book to drive on: the one that the workers leave, without what they hold, where it is of the
/// case, was opened at this cost, which is at least the plan's, and the driver is free. Else it is a fresh book
/// of the plan with the given cuts. Refuses want of memory alone.
#[inline(never)]
#[tactic(auto, using(crate::proofs::SettleLemmas::freed_ready, crate::proofs::OpeningLemmas::opened_ready_ok))]
pub(crate) fn settled(
    alloc: Global,
    mut book: Box<Book>,
    case: &Case,
    cost: u64,
    plan: &Plan,
    cuts: &CutList,
) -> Result<Box<Book>, NoMemory>
    requires legal { IsLegal case.now.instance plan.now }
    requires own { All (IsOwnCut case.now.instance) cuts.now }
    requires cost { cost_of case.now.instance plan.now ≤ cost }
    ensures ready { IfOk result (λ end. IsReady case.now cost end.value) }
    ensures ours { IsOurs case.now cost book.value → IfOk result (λ end. IsFreed book.value end.value) }
    ensures fresh { (IsOurs case.now cost book.value → ⊥) → IfOk result (λ fresh. fresh.value ≡ opened_with case.now plan.now cuts.now) }
{
    if is_ours(&*book, case, cost) {
        release_others(&mut *book);
        Ok(book)
    } else {
        opened(alloc, case, plan, cuts)
    }
}
