//! What a chamber's table is worked out from.
ghost use Rattle.std.specs.Prelude.{◌≡◌, ◌+◌, ◌≤◌, length, All};
ghost use Rattle.price_rules.specs.Prices.{IsUncut};
ghost use Rattle.price_terms.specs.Cuts.{plain_cuts};
ghost use Rattle.price_groups.specs.Worth.{IsHorizon};
ghost use Rattle.price_successors.specs.SuccessorLists.{list_of};
ghost use Rattle.price_successors.specs.declared.successor_list.SuccessorList.{SuccessorList as AnySuccessorList};

use crate::state::State;
use price_groups::LineCase;
use price_successors::{Successor, SuccessorList};

/// A case whose line's own groups are uncut, what may come next at each place, and a minute from which
/// on missing ships may be left out.
#[derive(Drop)]
pub(crate) struct Table<'a> {
    pub(crate) case: &'a LineCase<'a>,
    /// For each place of the line what may come next there.
    pub(crate) successor_lists: &'a [SuccessorList],
    pub(crate) horizon: u64,
    /// How many turns the value of a state may take.
    pub(crate) turns: u64,
    pub(crate) ghost uncut: { All (IsUncut case.now.instance.now case.now.index (plain_cuts case.now.instance.now case.now.cuts.now)) case.now.line.now },
    pub(crate) ghost late: { IsHorizon case.now.instance.now case.now.depth case.now.prices.now horizon },
    pub(crate) ghost small: { horizon ≤ 1010000 },
    pub(crate) ghost whole: { length successor_lists.now ≡ length case.now.line.now + 1 },
}

impl Table<'_> {
    // The successors that are looked at in a state.
    pub(crate) fn list(&self, state: &State) -> &[Successor]
        requires { state.now.place ≤ length self.now.case.now.line.now }
        ensures { (e : AnySuccessorList) → result.now ≡ list_of self.now.successor_lists.now e state.now.place state.now.minute }
    {
        self.successor_lists[state.place as usize].list(state.minute)
    }
}
