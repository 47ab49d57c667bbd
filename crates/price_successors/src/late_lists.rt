//! The late lists of a table: the later it is, the fewer successors are enough.
ghost use Rattle.std.specs.Prelude.{◌≤◌, All, IfOk, OnOk};
ghost use Rattle.price_groups.specs.Asked.{line_asked};
ghost use Rattle.price_successors.specs.Successors.{IsSuccessor};
ghost use Rattle.price_successors.specs.Dominance.{AreLate};
ghost use Rattle.price_successors.specs.LateLists.{IsLateList};

use crate::late_list::LateList;
use crate::lateness::late_successors;
use crate::successor::Successor;
use price_groups::LineCase;
use price_terms::{PriceError, append};
use std::alloc::Global;

// How many late lists there are.
const COUNT: u32 = 8;

// How many minutes lie between two late lists.
const STEP: u32 = 30;

// So many successors, or fewer, have no late lists: to make these would take longer than all states do.
const FEW: usize = 8;

// How many late lists some successors have.
fn count_for(successors: &[Successor]) -> u32
    ensures { result ≤ 8 }
{
    if successors.len() > FEW { COUNT } else { 0 }
}

// Of some successors those that are enough from a minute on, by the last late list, where it is no later.
fn thinned(
    alloc: Global,
    case: &LineCase,
    late_lists: &[LateList],
    successors: &[Successor],
    from: u32,
) -> Result<Vec<Successor>, PriceError>
    requires each { All (IsSuccessor (line_asked case.now)) successors.now }
    requires late_lists { All (IsLateList (line_asked case.now) successors.now) late_lists.now }
    ensures { IfOk result (λ lates. AreLate (line_asked case.now) from successors.now lates.items) }
{
    match late_lists.last() {
        Some(late_list) if late_list.from <= from as u64 => {
            late_successors(alloc, case, &late_list.successors, from as u64)
        }
        _ => late_successors(alloc, case, successors, from as u64),
    }
}

// Appends a late list.
fn add_late_list(
    alloc: Global,
    case: &LineCase,
    late_lists: &mut Vec<LateList>,
    successors: &[Successor],
    from: u32,
) -> Result<(), PriceError>
    requires each { All (IsSuccessor (line_asked case.now)) successors.now }
    requires late_lists { All (IsLateList (line_asked case.now) successors.now) late_lists.old.items }
    ensures { OnOk result (All (IsLateList (line_asked case.now) successors.now) late_lists.new.items) }
{
    let lates = thinned(alloc, case, late_lists, successors, from)?;
    append(
        late_lists,
        LateList {
            from: from as u64,
            successors: lates,
        },
    )
}

/// Late lists of some successors: the first one at a minute, and the others each half an hour later. A
/// few successors have none.
pub fn late_lists_of(
    alloc: Global,
    case: &LineCase,
    successors: &[Successor],
    first: u32,
) -> Result<Vec<LateList>, PriceError>
    requires each { All (IsSuccessor (line_asked case.now)) successors.now }
    ensures { IfOk result (λ late_lists. All (IsLateList (line_asked case.now) successors.now) late_lists.items) }
{
    let mut late_lists = Vec::new(alloc);
    for step in 0..count_for(successors) {
        add_late_list(
            alloc,
            case,
            &mut late_lists,
            successors,
            first.saturating_add(step * STEP),
        )?;
    }
    Ok(late_lists)
}
