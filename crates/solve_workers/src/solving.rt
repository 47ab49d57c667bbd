//! The search of a case.
ghost use Rattle.std.specs.Prelude.{◌≡◌, ◌≤◌, All, IfOk};
ghost use Rattle.lock_rules.specs.Plan.{IsLegal, cost_of};
ghost use Rattle.lock_rules.specs.Singles.{singles_of};
ghost use Rattle.first_plan.specs.Merging.{IsAtMost};
ghost use Rattle.book_rules.specs.Cover.{IsOwnCut};
ghost use Rattle.book_rules.specs.Ends.{EndsWell};

use crate::cut_list::CutList;
use crate::hardness::{driven, has_small_budget};
use crate::held::DRIVER;
use crate::opening::opened;
use crate::searching::{Lent, worked};
use crate::settling::settled;
use book_core::{Book, Case};
use first_plan::{FirstError, first_plan};
use gates::{Gate, Point};
use lock_model::{Plan, WORKERS};
use no_memory::NoMemory;
use std::alloc::Global;
use std::sync::Wait;
use std::thread::Threads;

/// What a search comes to.
#[derive(Drop)]
pub struct Solved {
    /// The book at the end of the search.
    pub book: Box<Book>,
}

// The plan that the search begins with, in a box, so that the stack on which it is made is free again
// when the search begins. Each ship fits some chamber, so there is one.
#[inline(never)]
fn opening_plan(alloc: Global, case: &Case) -> Result<Box<Plan>, NoMemory>
    ensures { IfOk result (λ plan. IsAtMost case.now.instance (singles_of case.now.instance) plan.value) }
{
    match first_plan(alloc, &case.instance, case.turns) {
        Ok(plan) => match Box::new(alloc, plan) {
            Ok(plan) => Ok(plan),
            Err(_) => Err(NoMemory),
        },
        Err(FirstError::NoMemory) => Err(NoMemory),
        Err(FirstError::Unfit(_)) => unreachable!(),
    }
}

// What the workers leave of a book whose budget is searched without prices to its end; any other as it is.
fn worked_if_small<R: Threads + Wait + Sync, G: Gate + Sync>(
    lent: &Lent<'_, R, G>,
    book: Box<Book>,
) -> Result<Box<Book>, NoMemory> {
    if has_small_budget(lent.case) {
        worked(lent, book, None)
    } else {
        Ok(book)
    }
}

/// Searches a case from the plan of `first_plan` and no cuts, as `solve_from` does.
#[tactic(auto, using(crate::proofs::OpeningLemmas::ends_within_ok))]
pub fn solve<R: Threads + Wait + Sync, G: Gate + Sync>(
    rt: &R,
    alloc: Global,
    case: &Case,
    workers: u8,
    gate: &G,
) -> Result<Solved, NoMemory>
    requires some_workers { 1 ≤ workers }
    requires few_workers { workers ≤ WORKERS }
    ensures case { IfOk result (λ solved. solved.book.value.case ≡ case.now) }
    ensures well { IfOk result (λ solved. EndsWell (singles_of case.now.instance) solved.book.value) }
{
    let plan = opening_plan(alloc, case)?;
    solve_from(rt, alloc, case, &*plan, CutList::new(alloc), workers, gate)
}

// Tells the gate how many nodes were used in all, and the cost of the best plan.
fn tell_end<G: Gate>(gate: &G, book: &Book) {
    gate.at(DRIVER, Point::Used(book.used()));
    gate.at(DRIVER, Point::Read(book.best_cost()));
}

/// Searches a case from a legal plan and cuts of its chambers and ships, which are posted first, with
/// 1 to `WORKERS` workers. Each of two or more workers has a thread of its own where one can be made. When
/// all have ended, the caller drives the search to its end on its own thread; one worker alone is the
/// caller. It may wait for the workers.
///
/// Refuses want of memory alone: the caller was refused memory before the workers began, or when it
/// opened the book anew or drove it to its end after them.
#[tactic(auto, using(crate::proofs::ReadyLemmas::opened_within))]
pub fn solve_from<R: Threads + Wait + Sync, G: Gate + Sync>(
    rt: &R,
    alloc: Global,
    case: &Case,
    plan: &Plan,
    cuts: CutList,
    workers: u8,
    gate: &G,
) -> Result<Solved, NoMemory>
    requires some_workers { 1 ≤ workers }
    requires few_workers { workers ≤ WORKERS }
    requires legal { IsLegal case.now.instance plan.now }
    requires own { All (IsOwnCut case.now.instance) cuts }
    ensures case { IfOk result (λ solved. solved.book.value.case ≡ case.now) }
    ensures well { IfOk result (λ solved. EndsWell (cost_of case.now.instance plan.now) solved.book.value) }
{
    let first = opened(alloc, case, plan, &cuts)?;
    let cost = first.opening_cost();
    let lent = Lent {
        rt,
        alloc,
        gate,
        case,
        workers,
    };
    let left = worked_if_small(&lent, first)?;
    let book = settled(alloc, left, case, cost, plan, &cuts)?;
    let book = driven(&lent, book, cost)?;
    tell_end(gate, &book);
    Ok(Solved { book })
}
