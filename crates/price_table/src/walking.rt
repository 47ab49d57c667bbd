//! A loose line of the least worth, found group by group.
ghost use Rattle.std.specs.Prelude.{◌≡◌, ◌+◌, ◌<◌, ◌≤◌, ◌≤ℤ◌, ◌<ℤ◌, ◌+ℤ◌, pos, neg_ℤ, false, [], ◌++◌, length, IfOk, IfSome, IfNone, OnOk, IsTrue};
ghost use Rattle.price_groups.specs.Asked.{line_asked};
ghost use Rattle.price_successors.specs.Successors.{IsSuccessor, Leads};
ghost use Rattle.price_successors.specs.SuccessorLists.{AreSuccessorLists};
ghost use Rattle.price_table.specs.Lines.{IsLineWorth, IsBegun, IsNext};
ghost use Rattle.price_table.specs.Values.{AreValues, IsValueOf, IsCountedIn, worth_alone};

use crate::least::value_of;
use crate::next_group::{NextGroup, ValuedState};
use crate::ready::Ready;
use crate::serving::{alone, is_idle, serve};
use crate::state::State;
use crate::table::Table;
use crate::values::Values;
use chamber_times::stand_after;
use lock_model::Group;
use price_successors::{Successor, led};
use price_terms::{PriceError, append};
use std::alloc::Global;

// Whether what a successor is worth and the value behind it come to more than a value.
fn is_above(worth: i64, behind: i64, value: i64) -> bool
    requires worth_low { neg_ℤ (pos 1000000000000000) ≤ℤ worth }
    requires worth_high { worth ≤ℤ pos 1000000000000000 }
    requires behind_low { neg_ℤ (pos 1000000000000000) ≤ℤ behind }
    requires behind_high { behind ≤ℤ pos 1000000000000000 }
    ensures above { IsTrue result → value <ℤ (worth +ℤ behind) }
    ensures least { (result ≡ false) → (worth +ℤ behind) ≤ℤ value }
{
    worth + behind > value
}

// A successor that leads to a place as the next group, where it comes to the value of the state that it
// leads from.
fn next_to(
    alloc: Global,
    table: &Table,
    values: &mut Values,
    from: &ValuedState,
    successor: &Successor,
    place: u8,
) -> Result<Option<NextGroup>, PriceError>
    requires successor_lists { AreSuccessorLists (line_asked table.now.case.now) table.now.successor_lists.now }
    requires values { AreValues (line_asked table.now.case.now) table.now.horizon values.old }
    requires place { from.now.state.place ≤ length table.now.case.now.line.now }
    requires early { from.now.state.minute < table.now.horizon }
    requires value { IsValueOf (line_asked table.now.case.now) table.now.horizon from.now.state from.now.value }
    requires is { IsSuccessor (line_asked table.now.case.now) successor.now }
    requires leads { Leads successor.now.joins from.now.state.place place }
    requires within { place ≤ length table.now.case.now.line.now }
    ensures values { IfOk result (λ _. AreValues (line_asked table.now.case.now) table.now.horizon values.new) }
    ensures some { IfOk result (λ next. IfSome next (IsNext (line_asked table.now.case.now) table.now.horizon from.now)) }
    ensures none { IfOk result (λ next. IfNone next (IsCountedIn (line_asked table.now.case.now) from.now.state (from.now.value +ℤ pos 1) successor.now)) }
{
    let ready = Ready::new(table.case, from.state);
    let served = serve(table.case, &ready, successor);
    if is_idle(successor, served.worth) {
        return Ok(None);
    }
    let state = State {
        place,
        stand: stand_after(successor.group.way),
        minute: served.end,
    };
    let value = value_of(alloc, table, values, &state)?;
    if is_above(served.worth, value, from.value) {
        return Ok(None);
    }
    Ok(Some(NextGroup {
        group: successor.group.copy(),
        behind: ValuedState { state, value },
    }))
}

// A successor as the next group, where it may come next and comes to the value of the state.
fn next_by(
    alloc: Global,
    table: &Table,
    values: &mut Values,
    from: &ValuedState,
    successor: &Successor,
) -> Result<Option<NextGroup>, PriceError>
    requires successor_lists { AreSuccessorLists (line_asked table.now.case.now) table.now.successor_lists.now }
    requires values { AreValues (line_asked table.now.case.now) table.now.horizon values.old }
    requires place { from.now.state.place ≤ length table.now.case.now.line.now }
    requires early { from.now.state.minute < table.now.horizon }
    requires value { IsValueOf (line_asked table.now.case.now) table.now.horizon from.now.state from.now.value }
    requires is { IsSuccessor (line_asked table.now.case.now) successor.now }
    ensures values { IfOk result (λ _. AreValues (line_asked table.now.case.now) table.now.horizon values.new) }
    ensures some { IfOk result (λ next. IfSome next (IsNext (line_asked table.now.case.now) table.now.horizon from.now)) }
    ensures none { IfOk result (λ next. IfNone next (IsCountedIn (line_asked table.now.case.now) from.now.state (from.now.value +ℤ pos 1) successor.now)) }
{
    match led(successor, from.state.place) {
        None => Ok(None),
        Some(place) => next_to(alloc, table, values, from, successor, place),
    }
}

// The first successor that comes to the value of a state; None where the line's own groups alone do,
// since one of the two has to.
fn next_successor(
    alloc: Global,
    table: &Table,
    values: &mut Values,
    from: &ValuedState,
) -> Result<Option<NextGroup>, PriceError>
    requires successor_lists { AreSuccessorLists (line_asked table.now.case.now) table.now.successor_lists.now }
    requires values { AreValues (line_asked table.now.case.now) table.now.horizon values.old }
    requires place { from.now.state.place ≤ length table.now.case.now.line.now }
    requires early { from.now.state.minute < table.now.horizon }
    requires value { IsValueOf (line_asked table.now.case.now) table.now.horizon from.now.state from.now.value }
    ensures values { IfOk result (λ _. AreValues (line_asked table.now.case.now) table.now.horizon values.new) }
    ensures some { IfOk result (λ next. IfSome next (IsNext (line_asked table.now.case.now) table.now.horizon from.now)) }
    ensures none { IfOk result (λ next. IfNone next (worth_alone (line_asked table.now.case.now) from.now.state ≡ from.now.value)) }
{
    if alone(table.case, from.state) <= from.value {
        return Ok(None);
    }
    for successor in table.list(&from.state) {
        match next_by(alloc, table, values, from, successor)? {
            Some(next) => return Ok(Some(next)),
            None => {}
        }
    }
    Ok(None)
}

// The group that comes next in a line that is worth the value of a state; None where the rest of it
// is the line's own groups alone.
fn next_group(
    alloc: Global,
    table: &Table,
    values: &mut Values,
    from: &ValuedState,
) -> Result<Option<NextGroup>, PriceError>
    requires successor_lists { AreSuccessorLists (line_asked table.now.case.now) table.now.successor_lists.now }
    requires values { AreValues (line_asked table.now.case.now) table.now.horizon values.old }
    requires place { from.now.state.place ≤ length table.now.case.now.line.now }
    requires minute { from.now.state.minute ≤ 14000000 }
    requires value { IsValueOf (line_asked table.now.case.now) table.now.horizon from.now.state from.now.value }
    ensures values { IfOk result (λ _. AreValues (line_asked table.now.case.now) table.now.horizon values.new) }
    ensures some { IfOk result (λ next. IfSome next (IsNext (line_asked table.now.case.now) table.now.horizon from.now)) }
    ensures none { IfOk result (λ next. IfNone next (worth_alone (line_asked table.now.case.now) from.now.state ≡ from.now.value)) }
{
    if from.state.minute >= table.horizon {
        return Ok(None);
    }
    next_successor(alloc, table, values, from)
}

// Appends groups.
fn append_all(groups: &mut Vec<Group>, more: &[Group]) -> Result<(), PriceError>
    ensures { OnOk result (groups.new.items ≡ groups.old.items ++ more.now) }
{
    for group in more {
        append(groups, group.copy())?;
    }
    Ok(())
}

/// A loose line that is worth the value of the chamber's first state.
pub(crate) fn walked(
    alloc: Global,
    table: &Table,
    values: &mut Values,
    first: ValuedState,
) -> Result<Vec<Group>, PriceError>
    requires successor_lists { AreSuccessorLists (line_asked table.now.case.now) table.now.successor_lists.now }
    requires values { AreValues (line_asked table.now.case.now) table.now.horizon values.old }
    requires place { first.state.place ≤ length table.now.case.now.line.now }
    requires minute { first.state.minute ≤ 14000000 }
    requires value { IsValueOf (line_asked table.now.case.now) table.now.horizon first.state first.value }
    requires begun { IsBegun (line_asked table.now.case.now) [] first first.value }
    ensures { IfOk result (λ groups. IsLineWorth (line_asked table.now.case.now) groups.items first.value) }
{
    let mut groups = Vec::new(alloc);
    let total = first.value;
    let mut at = first;
    for _ in 0..table.turns {
        match next_group(alloc, table, values, &at)? {
            Some(next) => {
                append(&mut groups, next.group)?;
                at = next.behind;
            }
            None => {
                append_all(&mut groups, &table.case.line[at.state.place as usize..])?;
                return Ok(groups);
            }
        }
    }
    Err(PriceError::TooMany)
}
