//! What a search through berth cases holds.
ghost use Rattle.std.specs.Prelude.{◌≡◌, ◌+◌, ◌≤◌, [], IfOk};
ghost use Rattle.refute_rules.specs.BerthFaults.{IsBerthFault};
ghost use Rattle.berth_place.specs.Faults.{fault_of};
ghost use Rattle.berth_place.specs.Visits.{IsVisit, IsTry};

use crate::faults::{BerthFault, write_fault};
use berth_check::BerthCase;
use diff_system::Edges;
use lock_model::{Deck, Spots};
use no_memory::NoMemory;
use refute_rules::Marks;
use std::alloc::Global;

/// The case at hand with its edges along the chamber, how many options were tried and may be, and
/// what the search has come to.
#[derive(Drop)]
pub(crate) struct Search {
    pub(crate) case: BerthCase,
    pub(crate) edges: Edges,
    pub(crate) turns: u32,
    pub(crate) tried: u64,
    pub(crate) marks: Marks,
    pub(crate) spots: Spots,
}

/// What the visit of a case ends with.
#[derive(Clone, Copy, PartialEq, Eq)]
pub(crate) enum Visit {
    /// The marks grew by a tree of the case.
    Closed,
    /// The ships lie legally at the spots of the search.
    Placed,
    /// More options were tried than the turns allow.
    Spent,
}

/// A search that has just begun.
pub(crate) fn begin(alloc: Global, turns: u32) -> Search
    ensures { result ≡ record { case = []; edges = []; turns = turns; tried = 0; marks = []; spots = [] } }
{
    Search {
        case: BerthCase::new(alloc),
        edges: Edges::new(),
        turns,
        tried: 0,
        marks: Marks::new(alloc),
        spots: Spots::new(),
    }
}

/// Counts one option more, and tells whether the turns allow it.
pub(crate) fn try_option(search: &mut Search) -> bool
    requires { search.old.tried ≤ search.old.turns }
    ensures { IsTry search.old search.new result }
{
    search.tried = search.tried + 1;
    search.tried <= search.turns as u64
}

/// Closes the case at hand by a fault that stands in it.
#[tactic(auto, using(crate::proofs::VisitLemmas::fault_closed))]
pub(crate) fn close(search: &mut Search, deck: &Deck, fault: BerthFault) -> Result<Visit, NoMemory>
    requires stands { IsBerthFault deck.now search.old.case (fault_of fault) }
    requires few { search.old.tried ≤ search.old.turns }
    ensures { IfOk result (IsVisit deck.now search.old search.new) }
{
    write_fault(fault, &mut search.marks)?;
    Ok(Visit::Closed)
}
