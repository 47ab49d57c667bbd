//! What every book keeps, as contracts. The calls do nothing.
ghost use Rattle.lock_rules.specs.Plan.{IsLegal};
ghost use Rattle.book_core.specs.Keeps.{IsSound};
ghost use Rattle.book_core.specs.Laws.{EveryListKeeps};

use crate::book::Book;
use crate::case::Case;
use lock_model::Plan;

impl Book {
    /// The facts that the type keeps.
    pub fn keeps(&self)
        ensures { IsSound self.now }
    {
        let _ = &self.used;
    }
}

/// The law over every list of events: after the opening of a case with a legal plan, and any events
/// by workers 0 to `WORKERS`, accepted or refused, the book is the replay of its history, every legal plan
/// cheaper than the best one lies under a slot that is open, held or parked, and the parts are kept
/// that the type of books keeps. Every list of events whose plans can be judged leads to some book.
pub fn every_list_keeps(case: &Case, plan: &Plan)
    requires { IsLegal case.now.instance plan.now }
    ensures { EveryListKeeps case.now plan.now }
{
    let _ = &case.nodes;
    let _ = plan;
}
