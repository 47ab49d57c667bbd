//! The least worth of a chamber's loose lines, and a line of that worth.
ghost use Rattle.std.specs.Prelude.{◌≤◌, ◌≤ℤ◌, pos, neg_ℤ, All, IfOk, IfSome};
ghost use Rattle.price_groups.specs.Asked.{line_asked, group_asked};
ghost use Rattle.price_groups.specs.GrownLists.{IsGrownList};
ghost use Rattle.price_groups.specs.Masks.{AreAllCompletableIn};
ghost use Rattle.price_successors.specs.SuccessorLists.{AreSuccessorLists};
ghost use Rattle.price_table.specs.Lines.{IsLeastLine, IsLineFound};
ghost use Rattle.price_table.specs.Values.{most_worth};

use crate::horizon::horizon;
use crate::least::value_of;
use crate::next_group::ValuedState;
use crate::state::State;
use crate::table::Table;
use crate::values::Values;
use crate::walking::walked;
use price_groups::{Extension, GrownList, are_spared};
use price_successors::{
    Buckets, SuccessorList, late_lists_of, latest, successor_lists_of, successors,
};
use price_terms::{LooseLine, PriceError};
use std::alloc::Global;

// The least line, by a table.
fn line_by(alloc: Global, table: &Table) -> Result<LooseLine, PriceError>
    requires { AreSuccessorLists (line_asked table.now.case.now) table.now.successor_lists.now }
    ensures least { IfOk result (IsLeastLine (line_asked table.now.case.now)) }
    ensures low { IfOk result (λ line. neg_ℤ (pos 816080000000000) ≤ℤ line.worth) }
    ensures high { IfOk result (λ line. line.worth ≤ℤ pos most_worth) }
{
    let chamber = table.case.chamber;
    let state = State {
        place: 0,
        stand: chamber.stands,
        minute: chamber.opens as u64,
    };
    let places = table.case.line.len() as u64 + 1;
    let mut values = Values::new(alloc, places, state.minute, table.horizon)?;
    let value = value_of(alloc, table, &mut values, &state)?;
    let groups = walked(alloc, table, &mut values, ValuedState { state, value })?;
    Ok(LooseLine {
        groups,
        worth: value,
    })
}

// What may come next at each place of the line.
pub(crate) fn successor_lists_for(
    alloc: Global,
    extension: &Extension,
    lists: &mut Vec<GrownList>,
) -> Result<Vec<SuccessorList>, PriceError>
    requires completable { AreAllCompletableIn (group_asked extension.now) extension.now.completable.now }
    requires lists { All (IsGrownList (group_asked extension.now)) lists.old.items }
    ensures lists { All (IsGrownList (group_asked extension.now)) lists.new.items }
    ensures successor_lists { IfOk result (λ successor_lists. AreSuccessorLists (line_asked extension.now.case.now) successor_lists.items) }
{
    let case = extension.case;
    let mut buckets = Buckets::new(case.chamber.pass);
    let successors = successors(alloc, extension, lists, &mut buckets)?;
    let late_lists = late_lists_of(alloc, case, &successors, latest(&successors))?;
    successor_lists_of(alloc, case, &successors, &late_lists)
}

/// A loose line of the chamber with the least of 100 times the flow time and what is charged, less what is
/// paid, over all its loose lines; None where there is no loose line. Groups that grow are kept in the lists.
pub fn least_line(
    alloc: Global,
    extension: &Extension,
    lists: &mut Vec<GrownList>,
    turns: u64,
) -> Result<Option<LooseLine>, PriceError>
    requires completable { AreAllCompletableIn (group_asked extension.now) extension.now.completable.now }
    requires lists { All (IsGrownList (group_asked extension.now)) lists.old.items }
    ensures lists { All (IsGrownList (group_asked extension.now)) lists.new.items }
    ensures least { IfOk result (IsLineFound (line_asked extension.now.case.now)) }
    ensures low { IfOk result (λ found. IfSome found (λ line. neg_ℤ (pos 816080000000000) ≤ℤ line.worth)) }
    ensures high { IfOk result (λ found. IfSome found (λ line. line.worth ≤ℤ pos most_worth)) }
{
    let case = extension.case;
    if !are_spared(extension.sets, case.line) {
        return Ok(None);
    }
    let successor_lists = successor_lists_for(alloc, extension, lists)?;
    let table = Table {
        case,
        successor_lists: &successor_lists,
        horizon: horizon(case),
        turns,
    };
    Ok(Some(line_by(alloc, &table)?))
}
