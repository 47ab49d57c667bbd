//! How much the checker takes for one mark. Where a mark needs more, that is want of memory.

use price_terms::Limits;
use sweep::SweepLimits;

// The most labels of a sweep, which is of one cost: four times those that a search may make for one, so that
// what a search has swept is swept here too.
const LABELS: usize = 4_000_000;

// The most groups of one chamber and way that a sweep grows at once: as many as in a search.
const GROUPS: usize = 600_000;

// What a price mark may take: memory ends before a node has so many groups or takes so many turns.
pub(crate) const PRICE_ROOM: Limits = Limits {
    groups: usize::MAX,
    turns: u64::MAX,
};

// What a sweep may take: turns as for a price mark.
pub(crate) const SWEEP_ROOM: SweepLimits = SweepLimits {
    labels: LABELS,
    all: LABELS as u64,
    groups: GROUPS,
    turns: u64::MAX,
};
