//! Labels.
ghost use Rattle.std.specs.Prelude.{◌≡◌, ◌≤◌, ◌↔◌, IsTrue};
ghost use Rattle.sweep_labels.specs.Labels.{AreAllNoLater, IsNoWorse, Dominates};

use crate::ready_times::ReadyTimes;
use crate::ship_set::ShipSet;
use lock_model::CHAMBERS;

/// A label: the ships that it serves, by chamber and way the least minute at which a next lockage may start,
/// and the flow time of the served ships in minutes.
#[derive(Clone, Copy)]
pub struct Label {
    pub served: ShipSet,
    pub ready: [ReadyTimes; CHAMBERS],
    pub flow: u32,
}

/// A label, the number of the one that it went on from, and the chamber and the start by which it did.
#[derive(Clone, Copy)]
pub struct KeptLabel {
    pub label: Label,
    pub parent: Option<u32>,
    pub chamber: u8,
    pub start: u32,
}

/// Whether chambers are ready no later than others.
pub(crate) fn are_no_later(one: &[ReadyTimes; CHAMBERS], other: &[ReadyTimes; CHAMBERS]) -> bool
    ensures { IsTrue result → AreAllNoLater CHAMBERS one.now other.now }
{
    for chamber in 0..CHAMBERS {
        if !one[chamber].is_no_later(&other[chamber]) {
            return false;
        }
    }
    true
}

impl Label {
    /// Whether it is no worse than another one, whatever ships they serve.
    #[inline(always)]
    pub fn is_no_worse(&self, other: &Label) -> bool
        ensures { IsTrue result → IsNoWorse self.now other.now }
    {
        self.flow <= other.flow && are_no_later(&self.ready, &other.ready)
    }

    /// Whether it serves the same ships as another one, and is no worse.
    pub fn dominates(&self, other: &Label) -> bool
        ensures { IsTrue result → Dominates self.now other.now }
    {
        self.served == other.served && self.is_no_worse(other)
    }
}
