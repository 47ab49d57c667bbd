//! The table of a chamber's line, one successor after another.
ghost use Rattle.std.specs.Prelude.{◌≡◌, ◌+◌, ◌-◌, ◌*◌, ◌<◌, ◌≤◌, ◌≤ℤ◌, length, IfSome, IfNone, None};
ghost use Rattle.price_groups.specs.Asked.{line_asked};
ghost use Rattle.price_successors.specs.Successors.{IsSuccessor, Leads};
ghost use Rattle.price_successors.specs.SuccessorLists.{AreSuccessorLists};
ghost use Rattle.price_table.specs.Values.{AreValues, IsReady, IsFrame, IsValueOf, IsBestOf, IsCountedIn, IsEarlyState, AreLookedAt, AreAllCounted};

use crate::frame::Frame;
use crate::ready::Ready;
use crate::route::Route;
use crate::serving::{alone, is_idle, lesser, serve};
use crate::state::State;
use crate::sweeping::sweep;
use crate::table::Table;
use crate::values::Values;
use chamber_times::stand_after;
use price_successors::{Successor, led};

/// A state of which no successor is counted.
pub(crate) fn opened(table: &Table, state: State) -> Frame
    requires place { state.place ≤ length table.now.case.now.line.now }
    requires early { state.minute < table.now.horizon }
    ensures { IsFrame (line_asked table.now.case.now) table.now.horizon table.now.successor_lists.now result }
{
    Frame {
        ready: Ready::new(table.case, state),
        best: alone(table.case, state),
        next: 0,
    }
}

/// The value of a state, where it is known.
#[inline(always)]
pub(crate) fn known(table: &Table, values: &Values, state: State) -> Option<i64>
    requires values { AreValues (line_asked table.now.case.now) table.now.horizon values.now }
    requires place { state.place ≤ length table.now.case.now.line.now }
    requires minute { state.minute ≤ 14000000 }
    ensures some { IfSome result (IsValueOf (line_asked table.now.case.now) table.now.horizon state) }
    ensures none { IfNone result (state.minute < table.now.horizon) }
{
    if state.minute >= table.horizon {
        Some(alone(table.case, state))
    } else {
        values.find(&state)
    }
}

// Counts a successor that leads to a place, or names the state behind it whose value isn't known yet.
#[inline(always)]
fn count_to(
    table: &Table,
    values: &Values,
    ready: &Ready,
    best: &mut i64,
    successor: &Successor,
    place: u8,
) -> Option<State>
    requires values { AreValues (line_asked table.now.case.now) table.now.horizon values.now }
    requires ready { IsReady table.now.case.now.instance.now table.now.case.now.index ready.now }
    requires early { ready.now.state.minute < table.now.horizon }
    requires best { IsBestOf (line_asked table.now.case.now) table.now.horizon ready.now.state best.old }
    requires is { IsSuccessor (line_asked table.now.case.now) successor.now }
    requires leads { Leads successor.now.joins ready.now.state.place place }
    requires place { place ≤ length table.now.case.now.line.now }
    ensures best { IsBestOf (line_asked table.now.case.now) table.now.horizon ready.now.state best.new }
    ensures less { best.new ≤ℤ best.old }
    ensures none { IfNone result (IsCountedIn (line_asked table.now.case.now) ready.now.state best.new successor.now) }
    ensures some { IfSome result (IsEarlyState (line_asked table.now.case.now) table.now.horizon) }
{
    let served = serve(table.case, ready, successor);
    if is_idle(successor, served.worth) {
        return None;
    }
    let behind = State {
        place,
        stand: stand_after(successor.group.way),
        minute: served.end,
    };
    match known(table, values, behind) {
        None => Some(behind),
        Some(value) => {
            *best = lesser(*best, served.worth, value);
            None
        }
    }
}

// Counts a successor, or names the state behind it whose value isn't known yet.
#[inline(always)]
fn count(
    table: &Table,
    values: &Values,
    ready: &Ready,
    best: &mut i64,
    successor: &Successor,
) -> Option<State>
    requires values { AreValues (line_asked table.now.case.now) table.now.horizon values.now }
    requires ready { IsReady table.now.case.now.instance.now table.now.case.now.index ready.now }
    requires early { ready.now.state.minute < table.now.horizon }
    requires place { ready.now.state.place ≤ length table.now.case.now.line.now }
    requires best { IsBestOf (line_asked table.now.case.now) table.now.horizon ready.now.state best.old }
    requires is { IsSuccessor (line_asked table.now.case.now) successor.now }
    ensures best { IsBestOf (line_asked table.now.case.now) table.now.horizon ready.now.state best.new }
    ensures less { best.new ≤ℤ best.old }
    ensures none { IfNone result (IsCountedIn (line_asked table.now.case.now) ready.now.state best.new successor.now) }
    ensures some { IfSome result (IsEarlyState (line_asked table.now.case.now) table.now.horizon) }
{
    match led(successor, ready.state.place) {
        None => None,
        Some(place) => count_to(table, values, ready, best, successor, place),
    }
}

// Counts the next successor, or names the state behind it whose value isn't known yet.
fn count_next(
    table: &Table,
    values: &Values,
    successors: &[Successor],
    frame: &mut Frame,
) -> Option<State>
    requires values { AreValues (line_asked table.now.case.now) table.now.horizon values.now }
    requires successor_lists { AreSuccessorLists (line_asked table.now.case.now) table.now.successor_lists.now }
    requires frame { IsFrame (line_asked table.now.case.now) table.now.horizon table.now.successor_lists.now frame.old }
    requires listed { AreLookedAt table.now.successor_lists.now frame.old.ready.state successors.now }
    requires here { frame.old.next < length successors.now }
    ensures frame { IsFrame (line_asked table.now.case.now) table.now.horizon table.now.successor_lists.now frame.new }
    ensures same { frame.new.ready ≡ frame.old.ready }
    ensures none { IfNone result (frame.new.next ≡ frame.old.next + 1) }
    ensures some { IfSome result (IsEarlyState (line_asked table.now.case.now) table.now.horizon) }
{
    match count(
        table,
        values,
        &frame.ready,
        &mut frame.best,
        &successors[frame.next],
    ) {
        Some(state) => Some(state),
        None => {
            frame.next += 1;
            None
        }
    }
}

// Counts more successors of a frame, where the next one may come next in a chamber without closures.
fn sweep_from(table: &Table, values: &Values, successors: &[Successor], frame: &mut Frame)
    requires values { AreValues (line_asked table.now.case.now) table.now.horizon values.now }
    requires successor_lists { AreSuccessorLists (line_asked table.now.case.now) table.now.successor_lists.now }
    requires frame { IsFrame (line_asked table.now.case.now) table.now.horizon table.now.successor_lists.now frame.old }
    requires listed { AreLookedAt table.now.successor_lists.now frame.old.ready.state successors.now }
    requires here { frame.old.next < length successors.now }
    ensures frame { IsFrame (line_asked table.now.case.now) table.now.horizon table.now.successor_lists.now frame.new }
    ensures same { frame.new.ready ≡ frame.old.ready }
    ensures more { frame.old.next ≤ frame.new.next }
{
    if !frame.ready.always_open {
        return;
    }
    if let Some(route) = Route::of(&successors[frame.next], &frame.ready) {
        sweep(table, values, &route, successors, frame);
    }
}

/// Counts successors one after another, until all are counted or the value of a state behind one isn't
/// known yet; that state.
pub(crate) fn advance(table: &Table, values: &Values, frame: &mut Frame) -> Option<State>
    requires values { AreValues (line_asked table.now.case.now) table.now.horizon values.now }
    requires successor_lists { AreSuccessorLists (line_asked table.now.case.now) table.now.successor_lists.now }
    requires frame { IsFrame (line_asked table.now.case.now) table.now.horizon table.now.successor_lists.now frame.old }
    ensures frame { IsFrame (line_asked table.now.case.now) table.now.horizon table.now.successor_lists.now frame.new }
    ensures none { IfNone result (AreAllCounted table.now.successor_lists.now frame.new) }
    ensures some { IfSome result (IsEarlyState (line_asked table.now.case.now) table.now.horizon) }
{
    let successors = table.list(&frame.ready.state);
    while frame.next < successors.len() {
        let before = frame.next;
        sweep_from(table, values, successors, frame);
        if frame.next == before {
            if let Some(state) = count_next(table, values, successors, frame) {
                return Some(state);
            }
        }
    }
    None
}
