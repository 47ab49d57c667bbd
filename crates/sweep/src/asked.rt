//! What is asked of a sweep.
ghost use Rattle.std.specs.Prelude.{◌≡◌, ◌<◌, length};
ghost use Rattle.sweep.specs.Ends.{IsCase, from_cost};

use lock_model::Instance;
use price_groups::LineCase;
use price_terms::{ChamberCut, Prices};
use sweep_arcs::ArcLimits;

/// An instance, cuts, prices that help speed alone, and a cost in minutes that is to be swept. Costs are swept
/// one after the other, from a first one on.
#[derive(Drop)]
pub struct SweepAsked<'a> {
    pub instance: &'a Instance,
    pub cuts: &'a [ChamberCut],
    pub prices: &'a Prices,
    /// What prices bound, in minutes; help to speed alone.
    pub low: u64,
    /// The cost that is reached, in minutes; help to speed alone.
    pub first: u64,
    pub goal: u64,
}

impl<'a> SweepAsked<'a> {
    // The same where another cost is reached, from which costs rise then.
    pub(crate) fn from(&self, first: u64) -> SweepAsked<'a>
        ensures { result ≡ from_cost self.now first }
    {
        SweepAsked {
            instance: self.instance,
            cuts: self.cuts,
            prices: self.prices,
            low: first,
            first,
            goal: self.goal,
        }
    }

    /// The case of a chamber without a line.
    pub(crate) fn case_of(&self, index: u8) -> LineCase<'a>
        requires { index < length self.now.instance.now.chambers }
        ensures { IsCase self.now index result }
    {
        LineCase {
            instance: self.instance,
            cuts: self.cuts,
            prices: self.prices,
            depth: 0,
            held: &[],
            index,
            chamber: &self.instance.chambers.as_slice()[index as usize],
            line: &[],
        }
    }
}

/// How much a sweep may take.
#[derive(Clone, Copy)]
pub struct SweepLimits {
    /// The greatest number of labels for one cost.
    pub labels: usize,
    /// The greatest number of labels for all costs together.
    pub all: u64,
    /// The greatest number of groups that are grown for a chamber and a way at once.
    pub groups: usize,
    /// The greatest number of turns for the value of a state of a chamber.
    pub turns: u64,
}

impl SweepLimits {
    // Those of a chamber's arcs.
    pub(crate) fn of_arcs(self) -> ArcLimits {
        ArcLimits {
            groups: self.groups,
            turns: self.turns,
        }
    }

    // What is left of them where so many labels were made.
    pub(crate) fn without(self, labels: u64) -> SweepLimits {
        SweepLimits {
            all: self.all.saturating_sub(labels),
            ..self
        }
    }
}
