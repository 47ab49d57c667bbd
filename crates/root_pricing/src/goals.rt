//! Costs that are swept.

/// How costs rise to the best one.
#[derive(Clone, Copy)]
pub(crate) enum Rise {
    /// By steps.
    Steps,
    /// By steps first; at once where labels run out though no cost took as many as it may.
    StepsFirst,
    /// At once.
    AtOnce,
}

/// Costs, in minutes: what prices reach, what prices or a sweep have reached, and the best one, which is to be
/// swept with so many labels for one cost at the most. What a sweep takes hangs on how far its cost is above
/// what prices reach.
#[derive(Clone, Copy)]
pub(crate) struct Goals {
    pub(crate) low: u64,
    pub(crate) reached: u64,
    pub(crate) best: u64,
    pub(crate) labels: u64,
    pub(crate) rise: Rise,
}

impl Goals {
    // A cost of these, or the one below the best cost where that is swept at once.
    fn below(&self, cost: u64) -> u64 {
        match self.rise {
            Rise::AtOnce => self.best.saturating_sub(1),
            Rise::Steps | Rise::StepsFirst => cost,
        }
    }

    /// From where the costs of a sweep rise.
    pub(crate) fn lowest(&self) -> u64 {
        self.below(self.low)
    }

    /// The cost behind which a sweep begins.
    pub(crate) fn first(&self) -> u64 {
        self.below(self.reached)
    }

    /// How many labels a sweep leaves.
    pub(crate) fn spared(&self) -> u64 {
        match self.rise {
            Rise::StepsFirst => self.labels,
            Rise::Steps | Rise::AtOnce => 0,
        }
    }

    /// Where labels ran out, the last cost of a sweep taking so many: whether the best cost is swept at once now.
    pub(crate) fn jump(&mut self, last: usize) -> bool {
        match self.rise {
            Rise::StepsFirst if (last as u64) < self.labels => {
                self.rise = Rise::AtOnce;
                true
            }
            _ => false,
        }
    }
}
