//! What successors have in common that join the same group and have the same way.
ghost use Rattle.std.specs.Prelude.{◌≡◌, ◌≤◌, ◌≤ℤ◌, ◌-ℤ◌, ◌⊎◌, pos, neg_ℤ, ℤ, None, IsTrue, IfSome};
ghost use Rattle.price_table.specs.Values.{IsRoute};

use crate::ready::Ready;
use lock_model::{SHIPS, Way};
use price_successors::{Successor, led};

// More than a successor is worth, in hundredths of a minute.
const MOST_WORTH: i64 = 40_000_000_000;

/// The way of successors and the group that they join, the place that they lead to, and the first minute
/// at which the chamber may be ready for them.
#[derive(Clone, Copy)]
pub(crate) struct Route {
    pub(crate) way: Way,
    pub(crate) joins: Option<u8>,
    pub(crate) place: u8,
    pub(crate) minute: u64,
}

/// What a successor of a route comes to no less than, by what is counted, where it ends no sooner and is
/// worth no less, in hundredths of a minute.
#[derive(Clone, Copy)]
pub(crate) struct Threshold {
    pub(crate) end: u64,
    pub(crate) worth: i64,
}

impl Route {
    // The route of a successor from a state, where it may come next there.
    pub(crate) fn of(successor: &Successor, ready: &Ready) -> Option<Route>
        requires { ready.now.state.place ≤ SHIPS }
        ensures is { IfSome result (IsRoute ready.now) }
        ensures joins { IfSome result (λ route. route.joins ≡ successor.now.joins) }
    {
        let place = led(successor, ready.state.place)?;
        let way = successor.group.way;
        Some(Route {
            way,
            joins: successor.joins,
            place,
            minute: ready.minute(way),
        })
    }

    // Whether a successor is of this route.
    #[inline(always)]
    pub(crate) fn has(&self, successor: &Successor) -> bool
        ensures joins { IsTrue result → successor.now.joins ≡ self.now.joins }
        ensures way { IsTrue result → successor.now.group.way ≡ self.now.way }
    {
        successor.group.way == self.way && successor.joins == self.joins
    }

    // The threshold before any successor is counted: missing ships alone that gain nothing are left out.
    pub(crate) fn first_threshold(&self) -> Threshold
        ensures low { neg_ℤ (pos 2000000000000000) ≤ℤ result.worth }
        ensures high { result.worth ≤ℤ pos 2000000000000000 }
        ensures gainless { (w : ℤ) → result.worth ≤ℤ w → w ≤ℤ pos 30000000000 → (self.now.joins ≡ None) × (pos 0 ≤ℤ w) }
    {
        let worth = if self.joins.is_none() { 0 } else { MOST_WORTH };
        Threshold { end: 0, worth }
    }

    // The threshold once a successor that ends at this minute is counted, behind which the least is a
    // value.
    #[inline(always)]
    pub(crate) fn threshold(&self, end: u64, best: i64, value: i64) -> Threshold
        requires best_low { neg_ℤ (pos 1000000000000000) ≤ℤ best }
        requires best_high { best ≤ℤ pos 1000000000000000 }
        requires value_low { neg_ℤ (pos 1000000000000000) ≤ℤ value }
        requires value_high { value ≤ℤ pos 1000000000000000 }
        ensures end { result.end ≡ end }
        ensures low { neg_ℤ (pos 2000000000000000) ≤ℤ result.worth }
        ensures high { result.worth ≤ℤ pos 2000000000000000 }
        ensures worth { (w : ℤ) → result.worth ≤ℤ w → ((best -ℤ value) ≤ℤ w) ⊎ ((self.now.joins ≡ None) × (pos 0 ≤ℤ w)) }
    {
        let gap = best - value;
        if self.joins.is_none() && gap > 0 {
            Threshold { end, worth: 0 }
        } else {
            Threshold { end, worth: gap }
        }
    }
}

impl Threshold {
    // Whether a successor that ends at this minute and is worth so much ends no sooner and is worth no
    // less.
    #[inline(always)]
    pub(crate) fn is_reached(&self, end: u64, worth: i64) -> bool
        requires low { neg_ℤ (pos 2000000000000000) ≤ℤ self.now.worth }
        requires high { self.now.worth ≤ℤ pos 2000000000000000 }
        requires worth_low { neg_ℤ (pos 1000000000000000) ≤ℤ worth }
        requires worth_high { worth ≤ℤ pos 1000000000000000 }
        ensures end { IsTrue result → self.now.end ≤ end }
        ensures worth { IsTrue result → self.now.worth ≤ℤ worth }
    {
        worth >= self.worth && end >= self.end
    }
}
