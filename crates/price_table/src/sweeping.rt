//! Counting many successors of a state that need no more than a look at remembered values.
ghost use Rattle.std.specs.Prelude.{◌≡◌, ◌<◌, ◌≤◌, ◌≤ℤ◌, length, true, IsTrue};
ghost use Rattle.price_groups.specs.Asked.{line_asked};
ghost use Rattle.price_successors.specs.Successors.{IsSuccessor};
ghost use Rattle.price_successors.specs.SuccessorLists.{AreSuccessorLists};
ghost use Rattle.price_table.specs.Values.{AreValues, IsReady, IsFrame, IsRoute, IsThreshold, IsBestOf, IsCountedIn, AreLookedAt};

use crate::frame::Frame;
use crate::ready::Ready;
use crate::route::{Route, Threshold};
use crate::serving::{lesser, serve_open};
use crate::state::State;
use crate::table::Table;
use crate::values::Values;
use chamber_times::stand_after;
use price_successors::Successor;

/// The least that counted successors come to, and the threshold for the next ones of their route.
#[derive(Clone, Copy)]
pub(crate) struct Counted {
    pub(crate) best: i64,
    pub(crate) threshold: Threshold,
}

// Counts a successor, where it is of the route and reaches the threshold or the value behind it stands in
// the row; whether that is so.
#[inline(always)]
fn sweep_one(
    table: &Table,
    values: &Values,
    ready: &Ready,
    route: &Route,
    counted: &mut Counted,
    successor: &Successor,
) -> bool
    requires values { AreValues (line_asked table.now.case.now) table.now.horizon values.now }
    requires ready { IsReady table.now.case.now.instance.now table.now.case.now.index ready.now }
    requires early { ready.now.state.minute < table.now.horizon }
    requires open { ready.now.always_open ≡ true }
    requires route { IsRoute ready.now route.now }
    requires place { route.now.place ≤ length table.now.case.now.line.now }
    requires best { IsBestOf (line_asked table.now.case.now) table.now.horizon ready.now.state counted.old.best }
    requires threshold { IsThreshold (line_asked table.now.case.now) ready.now route.now counted.old.best counted.old.threshold }
    requires is { IsSuccessor (line_asked table.now.case.now) successor.now }
    ensures best { IsBestOf (line_asked table.now.case.now) table.now.horizon ready.now.state counted.new.best }
    ensures less { counted.new.best ≤ℤ counted.old.best }
    ensures threshold { IsThreshold (line_asked table.now.case.now) ready.now route.now counted.new.best counted.new.threshold }
    ensures counted { IsTrue result → IsCountedIn (line_asked table.now.case.now) ready.now.state counted.new.best successor.now }
{
    if !route.has(successor) {
        return false;
    }
    let served = serve_open(table.case, ready, route.minute, successor);
    if counted.threshold.is_reached(served.end, served.worth) {
        return true;
    }
    let behind = State {
        place: route.place,
        stand: stand_after(route.way),
        minute: served.end,
    };
    match values.in_row(&behind) {
        None => false,
        Some(value) => {
            let best = lesser(counted.best, served.worth, value);
            *counted = Counted {
                best,
                threshold: route.threshold(served.end, best, value),
            };
            true
        }
    }
}

/// Counts more successors of a frame: those of the route one after another, up to one of another route,
/// or whose value behind it doesn't stand in the row. Apart from what calls others, the loop keeps what
/// it needs in registers.
#[inline(never)]
pub(crate) fn sweep(
    table: &Table,
    values: &Values,
    route: &Route,
    successors: &[Successor],
    frame: &mut Frame,
)
    requires values { AreValues (line_asked table.now.case.now) table.now.horizon values.now }
    requires successor_lists { AreSuccessorLists (line_asked table.now.case.now) table.now.successor_lists.now }
    requires frame { IsFrame (line_asked table.now.case.now) table.now.horizon table.now.successor_lists.now frame.old }
    requires open { frame.old.ready.always_open ≡ true }
    requires route { IsRoute frame.old.ready route.now }
    requires place { route.now.place ≤ length table.now.case.now.line.now }
    requires listed { AreLookedAt table.now.successor_lists.now frame.old.ready.state successors.now }
    requires here { frame.old.next < length successors.now }
    ensures frame { IsFrame (line_asked table.now.case.now) table.now.horizon table.now.successor_lists.now frame.new }
    ensures same { frame.new.ready ≡ frame.old.ready }
    ensures more { frame.old.next ≤ frame.new.next }
{
    let ready = frame.ready;
    let mut counted = Counted {
        best: frame.best,
        threshold: route.first_threshold(),
    };
    for place in frame.next..successors.len() {
        if !sweep_one(
            table,
            values,
            &ready,
            route,
            &mut counted,
            &successors[place],
        ) {
            frame.best = counted.best;
            frame.next = place;
            return;
        }
    }
    frame.best = counted.best;
    frame.next = successors.len();
}
