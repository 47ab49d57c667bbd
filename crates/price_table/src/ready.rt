//! When a chamber may be ready for a group of each way.
ghost use Rattle.std.specs.Prelude.{◌≡◌, ◌≤◌, max};
ghost use Rattle.lock_rules.specs.Timetable.{first_free};
ghost use Rattle.price_table.specs.Values.{minute_for, IsReady};

use crate::state::State;
use chamber_times::{first_free, ready};
use lock_model::Way;
use price_groups::LineCase;

/// A state, the first minutes at which the chamber may be ready in it for each way, and whether it has
/// no closures; they are worked out once for all successors.
#[derive(Clone, Copy)]
pub(crate) struct Ready {
    pub(crate) state: State,
    pub(crate) up: u64,
    pub(crate) down: u64,
    pub(crate) always_open: bool,
}

impl Ready {
    // When the chamber may be ready in a state.
    pub(crate) fn new(case: &LineCase, state: State) -> Ready
        requires { state.minute ≤ 14000000 }
        ensures same { result.state ≡ state }
        ensures is { IsReady case.now.instance.now case.now.index result }
    {
        let chamber = case.chamber;
        Ready {
            state,
            up: ready(chamber, state.stand, state.minute, Way::Up),
            down: ready(chamber, state.stand, state.minute, Way::Down),
            always_open: chamber.closures.as_slice().is_empty(),
        }
    }

    // The first minute for a way.
    #[inline(always)]
    pub(crate) fn minute(&self, way: Way) -> u64
        ensures { result ≡ minute_for self.now way }
    {
        match way {
            Way::Up => self.up,
            Way::Down => self.down,
        }
    }

    // The first minute from another one on from which the chamber is open for so long.
    #[inline(always)]
    pub(crate) fn first_free(&self, case: &LineCase, long: u64, from: u64) -> u64
        requires is { IsReady case.now.instance.now case.now.index self.now }
        requires long { long ≤ 9000000 }
        requires from { from ≤ 20000000 }
        ensures value { result ≡ first_free case.now.chamber.now.closures long from }
        ensures small { result ≤ max from 1000000 }
    {
        if self.always_open {
            from
        } else {
            first_free(&case.chamber.closures, long, from)
        }
    }
}
