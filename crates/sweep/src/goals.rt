//! Costs that are swept one after the other.
ghost use Rattle.std.specs.Prelude.{◌≡◌, ◌≤◌};

// A cost for which fewer labels were made took next to nothing.
const FEW_LABELS: u64 = 4_000;
// After one for which more were made, a cost that is farther by an eighth may take more than there may be.
const MANY_LABELS: u64 = 100_000;
// From fewer labels than these the last cost is foretold where it takes no more than some times as many: a cheaper
// plan may still be found before it.
const TELLING_LABELS: u64 = 50_000;

const TIMES_TOLD: u64 = 4;

/// Costs, in minutes, up to a last one. What a sweep takes hangs on how far its cost is above what prices
/// bound, so it is that distance that rises.
#[derive(Clone, Copy)]
pub(crate) struct Goals {
    // What prices bound, in minutes.
    low: u64,
    // How far above that the next cost is, in minutes.
    distance: u64,
    // The last cost, in minutes.
    last: u64,
    // By how many minutes the distance rose last.
    farther: u64,
    // How many labels were made for the cost before that rise; 0 until a second cost is swept.
    before: u64,
}

impl Goals {
    /// The costs behind one that is reached, up to a last one; what prices bound.
    pub(crate) fn new(low: u64, reached: u64, last: u64) -> Goals
        ensures { result.last ≡ last }
    {
        let low = low.min(reached);
        let distance = reached.saturating_sub(low).saturating_add(1);
        Goals {
            low,
            distance,
            last,
            farther: 1,
            before: 0,
        }
    }

    /// The next cost.
    pub(crate) fn next(&self) -> u64
        ensures { result ≤ self.now.last }
    {
        self.low.saturating_add(self.distance).min(self.last)
    }

    // How much farther a cost may be that is foretold to take no more than so many labels, where so many were
    // made for the last one: each minute makes as many more as one of the last step did, times the factor by
    // which that step made them more.
    fn farthest(&self, labels: u64, most: u64) -> u64 {
        let more = labels.saturating_sub(self.before);
        if self.before == 0 || self.farther == 0 {
            return most;
        }
        let a_minute = more.saturating_mul(labels) / self.before / self.farther;
        most.saturating_sub(labels) / a_minute.max(1)
    }

    // How many labels the last cost is foretold to take, where so many were made for this one; so many where it
    // takes more: each step as far as the last one makes them as many times more as that one did.
    fn foretold(&self, labels: u64, most: u64) -> u64 {
        if self.before == 0 || self.farther == 0 {
            return most;
        }
        let rest = self.last.saturating_sub(self.next());
        let mut foretold = labels;
        for _ in 0..rest / self.farther {
            if foretold >= most {
                return most;
            }
            foretold = foretold.saturating_mul(labels) / self.before;
        }
        let more = (foretold.saturating_mul(labels) / self.before).saturating_sub(foretold);
        let part = more.saturating_mul(rest % self.farther) / self.farther;
        foretold.saturating_add(part).min(most)
    }

    // Whether the last cost is foretold to take fewer than so many labels.
    fn may_end(&self, labels: u64, most: u64) -> bool {
        let told = if labels < TELLING_LABELS {
            most.min(labels.saturating_mul(TIMES_TOLD))
        } else {
            most
        };
        labels >= FEW_LABELS && self.foretold(labels, told) < told
    }

    /// After a cost for which so many labels were made, the next one is half as far again, or an eighth where
    /// they weren't few, or half of that where they were many, and no farther then than so many labels are
    /// foretold to allow; or the last one, where it is foretold to take fewer. Labels grow so fast with the distance
    /// that the last cost takes most.
    pub(crate) fn rise(&mut self, labels: u64, most: u64)
        ensures { self.new.last ≡ self.old.last }
    {
        let parts = match labels {
            0..FEW_LABELS => 2,
            FEW_LABELS..MANY_LABELS => 8,
            _ => 16,
        };
        let mut farther = self.distance / parts + 1;
        if self.may_end(labels, most) {
            farther = self.last.saturating_sub(self.next());
        } else if labels >= MANY_LABELS {
            farther = farther.min(self.farthest(labels, most)).max(1);
        }
        self.distance = self.distance.saturating_add(farther);
        self.farther = farther;
        self.before = labels;
    }
}
