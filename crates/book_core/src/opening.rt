//! The opening of a book.
ghost use Rattle.std.specs.Prelude.{◌≡◌, IfOk};
ghost use Rattle.lock_rules.specs.Plan.{IsLegal, cost_of};
ghost use Rattle.book_rules.specs.Book.{opening_book};
ghost use Rattle.book_core.specs.Growing.{stored_root};

use crate::back_list::BackList;
use crate::book::Book;
use crate::case::Case;
use crate::cuts::KeptCuts;
use crate::path::Path;
use crate::splitting::stored_child;
use crate::stored_slot::StoredSlot;
use chamber_times::cost;
use flow_bounds::{Roster, bound, throughput};
use lock_model::{Instance, Plan, WORKERS_AND_DRIVER};
use master_branch::root;
use no_memory::NoMemory;
use std::alloc::Global;

// The slot of the root: closed where its bound is at least this cost.
fn stored_root(instance: &Instance, cost: u64) -> StoredSlot
    ensures { result ≡ stored_root instance.now cost }
{
    stored_child(0, 0, bound(instance, &root(instance)), cost)
}

// The cost of a legal plan.
#[tactic(auto, using(lock_rules::proofs::LegalLemmas::of_legal_plans))]
pub(crate) fn cost_of_legal(instance: &Instance, plan: &Plan) -> u64
    requires { IsLegal instance.now plan.now }
    ensures { result ≡ cost_of instance.now plan.now }
{
    cost(instance, plan)
}

/// The book of a case and a legal plan, with the root alone: it is closed by its bound where that is
/// at least the plan's cost, else fresh. Takes the room of the history, 3 entries for each node of
/// the budget and 32 more, and the room of a path. Refuses want of memory alone.
pub fn open_book(alloc: Global, case: &Case, plan: Plan) -> Result<Book, NoMemory>
    requires { IsLegal case.now.instance plan }
    ensures { IfOk result (λ book. book ≡ opening_book case.now plan) }
{
    let mut slots = Vec::with_capacity(alloc, 1)?;
    let history = Vec::with_capacity(alloc, 3 * case.nodes as usize + 32)?;
    let path = Path::with_room(alloc)?;
    let best_cost = cost_of_legal(&case.instance, &plan);
    slots.push_reserved(stored_root(&case.instance, best_cost));
    Ok(Book {
        case: case.copy(),
        opening: plan.copy(),
        opening_cost: best_cost,
        throughput: throughput(&case.instance),
        roster: Roster::of(&case.instance),
        slots,
        cuts: KeptCuts::new(alloc),
        prices: Vec::new(alloc),
        plans: Vec::new(alloc),
        best: plan,
        best_cost,
        used: 0,
        ended: [false; WORKERS_AND_DRIVER],
        history,
        shown_lows: 0,
        hands: [None, None, None, None, None, None, None, None, None],
        path,
        back: BackList::new(),
        waiting: Vec::new(alloc),
    })
}
