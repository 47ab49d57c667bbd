//! What may come next, place by place: a state looks at the successors of its place alone.
ghost use Rattle.std.specs.Prelude.{◌+◌, ◌≤◌, length, IfOk, OnOk};
ghost use Rattle.price_successors.specs.SuccessorLists.{AreFor, IsPutFor, AreLateListsFor, IsSuccessorList, AreMade};

use crate::late_list::LateList;
use crate::successor::{Successor, led};
use crate::successor_list::SuccessorList;
use lock_model::SHIPS;
use price_groups::LineCase;
use price_terms::{PriceError, append};
use std::alloc::Global;

// Appends a successor, where it may come next at a place.
fn put_for(fors: &mut Vec<Successor>, successor: &Successor, place: u8) -> Result<(), PriceError>
    requires { place ≤ SHIPS }
    ensures { OnOk result (IsPutFor place successor.now fors.old.items fors.new.items) }
{
    match led(successor, place) {
        Some(_) => append(fors, successor.copy()),
        None => Ok(()),
    }
}

// Those of the successors that may come next at a place.
fn successors_for(
    alloc: Global,
    successors: &[Successor],
    place: u8,
) -> Result<Vec<Successor>, PriceError>
    requires { place ≤ SHIPS }
    ensures { IfOk result (λ fors. AreFor place successors.now fors.items) }
{
    let mut fors = Vec::new(alloc);
    for successor in successors {
        put_for(&mut fors, successor, place)?;
    }
    Ok(fors)
}

// The late lists of the successors that may come next at a place.
fn late_lists_for(
    alloc: Global,
    late_lists: &[LateList],
    place: u8,
) -> Result<Vec<LateList>, PriceError>
    requires { place ≤ SHIPS }
    ensures { IfOk result (λ fors. AreLateListsFor place late_lists.now (length late_lists.now) fors.items) }
{
    let mut fors = Vec::new(alloc);
    for late_list in late_lists {
        let successors = successors_for(alloc, &late_list.successors, place)?;
        append(
            &mut fors,
            LateList {
                from: late_list.from,
                successors,
            },
        )?;
    }
    Ok(fors)
}

// What may come next at a place.
fn successor_list(
    alloc: Global,
    successors: &[Successor],
    late_lists: &[LateList],
    place: u8,
) -> Result<SuccessorList, PriceError>
    requires { place ≤ SHIPS }
    ensures { IfOk result (IsSuccessorList successors.now late_lists.now place) }
{
    Ok(SuccessorList {
        successors: successors_for(alloc, successors, place)?,
        late_lists: late_lists_for(alloc, late_lists, place)?,
    })
}

/// What may come next at each place of the line.
pub fn successor_lists_of(
    alloc: Global,
    case: &LineCase,
    successors: &[Successor],
    late_lists: &[LateList],
) -> Result<Vec<SuccessorList>, PriceError>
    ensures { IfOk result (λ successor_lists. AreMade successors.now late_lists.now (length case.now.line.now + 1) successor_lists.items) }
{
    let mut successor_lists = Vec::new(alloc);
    for place in 0..case.line.len() as u8 + 1 {
        append(
            &mut successor_lists,
            successor_list(alloc, successors, late_lists, place)?,
        )?;
    }
    Ok(successor_lists)
}
