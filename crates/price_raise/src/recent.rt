//! Groups of the least lines of late.

use crate::stands::{ShipMask, Stands, has_two};
use arrayvec::ArrayVec;

// The most groups that are kept.
const MOST_SEEN: usize = 512;
// What a group gains in a round, and so what the weight of all rounds does.
const ONE_ROUND: i64 = 1_000_000;
// A lighter group is forgotten: it was seen last some thirty rounds ago.
const LIGHTEST: i64 = 40_000;

// A group, and how much of it was seen of late.
#[derive(Clone, Copy, Default)]
struct Seen {
    group: ShipMask,
    weight: i64,
}

/// The groups that stood in least lines of late, up to 512. What a group weighs fades by a tenth a round.
#[derive(Drop)]
pub(crate) struct Recent {
    seen: ArrayVec<Seen, MOST_SEEN>,
    rounds: i64,
}

// A weight after one round more.
fn faded(weight: i64) -> i64 {
    weight.saturating_mul(9) / 10
}

impl Recent {
    /// No group was seen.
    pub(crate) fn new() -> Recent {
        Recent {
            seen: ArrayVec::new(),
            rounds: 0,
        }
    }

    /// Forgets all groups.
    pub(crate) fn clear(&mut self) {
        self.seen.clear();
        self.rounds = 0;
    }

    // Lets what was seen fade.
    fn fade(&mut self) {
        let mut seen = ArrayVec::new();
        for &Seen { group, weight } in self.seen.as_slice() {
            let weight = faded(weight);
            if weight >= LIGHTEST {
                let _ = seen.try_push(Seen { group, weight });
            }
        }
        self.seen = seen;
        self.rounds = faded(self.rounds);
    }

    // Adds a round's weight to a group that was seen before; whether it was.
    fn see_again(&mut self, group: ShipMask) -> bool {
        for seen in self.seen.as_mut_slice().iter_mut() {
            if seen.group == group {
                seen.weight = seen.weight.saturating_add(ONE_ROUND);
                return true;
            }
        }
        false
    }

    // Sees a group; where there are too many, only one that was seen before.
    fn see(&mut self, group: ShipMask) {
        if !self.see_again(group) {
            let weight = ONE_ROUND;
            let _ = self.seen.try_push(Seen { group, weight });
        }
    }

    /// Sees the groups of one round more.
    pub(crate) fn note(&mut self, stands: &Stands) {
        self.fade();
        self.rounds = self.rounds.saturating_add(ONE_ROUND);
        for &group in stands.groups() {
            self.see(group);
        }
    }

    /// What the groups weigh that have a triple of these ships.
    pub(crate) fn weight_having(&self, triple: ShipMask) -> i64 {
        let mut sum: i64 = 0;
        for seen in self.seen.as_slice() {
            if has_two(seen.group, triple) {
                sum = sum.saturating_add(seen.weight);
            }
        }
        sum
    }

    /// What a group weighs that stood once in each round.
    pub(crate) fn rounds(&self) -> i64 {
        self.rounds
    }
}
