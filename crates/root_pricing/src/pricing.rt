//! What sweeps and further ascents at the root may take.

use crate::goals::Goals;
use lock_model::Instance;
use no_memory::NoMemory;
use price_raise::Pace;
use price_search::{FirstNode, Pricing, ROOT_LIMITS};
use price_terms::Prices;
use std::alloc::Global;
use sweep::{SweepAsked, SweepLimits, SweepOutcome, UncutPlan, beam_plan, sweep};
use sweep_arcs::ArcLimits;

// The most labels for one cost of a sweep, which take some 260 bytes each while it lasts.
const MOST_LABELS_AT_ONCE: u64 = 650_000;
// The same of many ships, whose root hardly anything else closes.
const MOST_LABELS_OF_LARGE: u64 = 1_000_000;
/// The most labels for one cost while a further ascent may still bring the goal nearer.
pub(crate) const FEW_LABELS_AT_ONCE: u64 = 30_000;
// So many times the most labels for one cost all costs of a sweep may take: each takes some times as many as the
// one before.
const COSTS_OF_A_SWEEP: u64 = 4;
// The most groups of a chamber and way that a sweep grows at once: where chambers take six ships and more at a time,
// costs far above what prices reach ask for so many.
const MOST_SWEPT_GROUPS: usize = 600_000;
// The most groups of a chamber and way that a beam grows at once.
const MOST_BEAM_GROUPS: usize = 200_000;
// The most ascents at the root after its first one, each with more triples.
const MORE_ASCENTS: u32 = 3;

// A further ascent begins near the best prices, and triples turn slowly.
const MORE_PACE: Pace = Pace {
    steps: 400,
    kept: 9,
    patience: 15,
    span: 80,
    spans: 40,
    from_best: 0,
};

// Where few labels don't close the root and no triples are found, the first ascent mostly ended too soon: steps
// that turn slowly come near the best prices.
const SLOW_PACE: Pace = Pace {
    steps: 800,
    kept: 9,
    patience: 30,
    span: 80,
    spans: 40,
    from_best: 0,
};

// How many ascents with triples may follow the first one. Where chambers take two ships at a time, a third one
// gains little; a table of many ships takes too long.
fn more_ascents(first: FirstNode) -> u32 {
    match first {
        FirstNode::Long => MORE_ASCENTS,
        FirstNode::Steady => MORE_ASCENTS - 1,
        FirstNode::Lasting => 0,
    }
}

/// Prices that are kept from node to node, how the first node, which is the root, is priced, how many further
/// ascents may be made there still, whether one of them by slow steps, and how many labels sweeps may make.
#[derive(Drop)]
pub struct RootPricing {
    pub pricing: Pricing,
    first: FirstNode,
    ascents: u32,
    may_slow: bool,
    labels: u64,
}

impl RootPricing {
    /// Begins with these prices, one for each ship, at the root. All sweeps together may make so many labels.
    /// Refuses want of memory alone.
    pub fn new(
        alloc: Global,
        prices: Prices,
        first: FirstNode,
        labels: u64,
    ) -> Result<RootPricing, NoMemory> {
        Ok(RootPricing {
            pricing: Pricing::new(alloc, prices, first)?,
            first,
            ascents: more_ascents(first),
            may_slow: true,
            labels,
        })
    }

    /// The most labels for one cost of a sweep.
    pub(crate) fn most_labels(&self) -> u64 {
        match self.first {
            FirstNode::Long | FirstNode::Steady => MOST_LABELS_AT_ONCE,
            FirstNode::Lasting => MOST_LABELS_OF_LARGE,
        }
    }

    /// Whether further ascents may be made.
    pub(crate) fn may_ascend(&self) -> bool {
        self.ascents > 0
    }

    // Begins an ascent by slow steps from the best prices, once; not where the root has too many groups.
    fn ascend_slowly(&mut self) -> bool {
        let may = self.may_slow && !self.pricing.has_too_many(0);
        self.may_slow = false;
        if may {
            self.pricing.ascend_from_best(SLOW_PACE);
        }
        may
    }

    /// Begins a further ascent from the best prices: with more triples, or by slow steps once where there are
    /// none; whether there is one. A plan is made in each of its rounds.
    pub(crate) fn ascend_again(&mut self) -> bool {
        self.ascents = self.ascents.saturating_sub(1);
        self.pricing.widen(MORE_PACE) || self.ascend_slowly()
    }

    // How many labels all costs of a sweep may take: some times as many as one of them. Where the best cost may
    // be swept at once in the end, as many as that takes are left.
    fn labels_for(&self, goals: &Goals) -> u64 {
        self.labels
            .saturating_sub(goals.spared())
            .min(goals.labels.saturating_mul(COSTS_OF_A_SWEEP))
    }

    /// Whether the best cost may be swept at once where labels run out on the way to it: of many ships that takes
    /// too long.
    pub(crate) fn may_jump(&self) -> bool {
        match self.first {
            FirstNode::Long | FirstNode::Steady => true,
            FirstNode::Lasting => false,
        }
    }

    /// Whether a beam may find a plan that costs less than so many minutes: of many ships where prices reach far less.
    pub(crate) fn may_beam(&self, best: u64) -> bool {
        match self.first {
            FirstNode::Lasting => self.pricing.is_wide(best),
            FirstNode::Long | FirstNode::Steady => false,
        }
    }

    /// An uncut plan that costs less than so many minutes, found by a beam with the best prices and the book's first
    /// cuts. None where it finds none, where that takes more than limits, or for want of memory.
    pub(crate) fn beam(&self, alloc: Global, instance: &Instance, best: u64) -> Option<UncutPlan> {
        let low = self.pricing.reached();
        let asked = SweepAsked {
            instance,
            cuts: self.pricing.cuts(),
            prices: self.pricing.best(),
            low,
            first: low,
            goal: best,
        };
        let limits = ArcLimits {
            groups: MOST_BEAM_GROUPS,
            turns: ROOT_LIMITS.turns,
        };
        match beam_plan(alloc, &asked, limits) {
            Ok(plan) => plan,
            Err(_) => None,
        }
    }

    /// Sweeps the best cost by these prices and the book's first cuts, with no more labels for a cost than so many,
    /// and for all costs than some times that and those that are left. None where that takes more than
    /// limits, or for want of memory; then the labels that it might have made are spent.
    pub(crate) fn sweep<'a>(
        &'a mut self,
        alloc: Global,
        instance: &'a Instance,
        prices: &'a Prices,
        goals: &Goals,
    ) -> Option<SweepOutcome<'a>> {
        let all = self.labels_for(goals);
        let asked = SweepAsked {
            instance,
            cuts: self.pricing.cuts(),
            prices,
            low: goals.lowest(),
            first: goals.first(),
            goal: goals.best,
        };
        let limits = SweepLimits {
            labels: goals.labels as usize,
            all,
            groups: MOST_SWEPT_GROUPS,
            turns: ROOT_LIMITS.turns,
        };
        match sweep(alloc, &asked, limits) {
            Ok(outcome) => {
                self.labels = self.labels.saturating_sub(outcome.labels);
                Some(outcome)
            }
            Err(_) => {
                self.labels = self.labels.saturating_sub(all);
                None
            }
        }
    }
}
