//! The values of states.
ghost use Rattle.std.specs.Prelude.{◌<◌, ◌≤◌, length, All, IfOk, OnOk};
ghost use Rattle.price_groups.specs.Asked.{line_asked};
ghost use Rattle.price_successors.specs.SuccessorLists.{AreSuccessorLists};
ghost use Rattle.price_table.specs.Values.{AreValues, IsFrame, IsValueOf};

use crate::counting::{advance, known, opened};
use crate::frame::Frame;
use crate::state::State;
use crate::table::Table;
use crate::values::Values;
use price_terms::{PriceError, append};
use std::alloc::Global;

// One turn: counts successors of a state, and then remembers its value, or opens a state behind it
// first.
fn turn(
    table: &Table,
    values: &mut Values,
    frames: &mut Vec<Frame>,
    frame: Frame,
) -> Result<(), PriceError>
    requires successor_lists { AreSuccessorLists (line_asked table.now.case.now) table.now.successor_lists.now }
    requires values { AreValues (line_asked table.now.case.now) table.now.horizon values.old }
    requires frames { All (IsFrame (line_asked table.now.case.now) table.now.horizon table.now.successor_lists.now) frames.old.items }
    requires frame { IsFrame (line_asked table.now.case.now) table.now.horizon table.now.successor_lists.now frame }
    ensures values { OnOk result (AreValues (line_asked table.now.case.now) table.now.horizon values.new) }
    ensures frames { OnOk result (All (IsFrame (line_asked table.now.case.now) table.now.horizon table.now.successor_lists.now) frames.new.items) }
{
    let mut frame = frame;
    match advance(table, values, &mut frame) {
        None => values.keep(&frame.ready.state, frame.best),
        Some(state) => {
            append(frames, frame)?;
            append(frames, opened(table, state))
        }
    }
}

// What is remembered for the first state, once no state is open.
fn found(table: &Table, values: &Values, first: &State) -> Result<i64, PriceError>
    requires values { AreValues (line_asked table.now.case.now) table.now.horizon values.now }
    requires place { first.now.place ≤ length table.now.case.now.line.now }
    requires minute { first.now.minute ≤ 14000000 }
    ensures { IfOk result (IsValueOf (line_asked table.now.case.now) table.now.horizon first.now) }
{
    match values.find(first) {
        None => Err(PriceError::TooMany),
        Some(value) => Ok(value),
    }
}

// The value of a state, within the turns that it may take.
fn worked(
    alloc: Global,
    table: &Table,
    values: &mut Values,
    first: State,
) -> Result<i64, PriceError>
    requires successor_lists { AreSuccessorLists (line_asked table.now.case.now) table.now.successor_lists.now }
    requires values { AreValues (line_asked table.now.case.now) table.now.horizon values.old }
    requires place { first.place ≤ length table.now.case.now.line.now }
    requires early { first.minute < table.now.horizon }
    ensures values { IfOk result (λ _. AreValues (line_asked table.now.case.now) table.now.horizon values.new) }
    ensures value { IfOk result (IsValueOf (line_asked table.now.case.now) table.now.horizon first) }
{
    let mut frames = Vec::new(alloc);
    append(&mut frames, opened(table, first))?;
    for _ in 0..table.turns {
        match frames.pop() {
            None => return found(table, values, &first),
            Some(frame) => turn(table, values, &mut frames, frame)?,
        }
    }
    Err(PriceError::TooMany)
}

/// The value of a state, within the turns that it may take.
pub(crate) fn value_of(
    alloc: Global,
    table: &Table,
    values: &mut Values,
    state: &State,
) -> Result<i64, PriceError>
    requires successor_lists { AreSuccessorLists (line_asked table.now.case.now) table.now.successor_lists.now }
    requires values { AreValues (line_asked table.now.case.now) table.now.horizon values.old }
    requires place { state.now.place ≤ length table.now.case.now.line.now }
    requires minute { state.now.minute ≤ 14000000 }
    ensures values { IfOk result (λ _. AreValues (line_asked table.now.case.now) table.now.horizon values.new) }
    ensures value { IfOk result (IsValueOf (line_asked table.now.case.now) table.now.horizon state.now) }
{
    match known(table, values, *state) {
        Some(value) => Ok(value),
        None => worked(alloc, table, values, *state),
    }
}
