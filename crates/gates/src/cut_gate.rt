//! A gate that holds a worker until another one finds cuts by prices.
use crate::gate::{Gate, Point, Stage};
use crate::hold::Hold;
use std::sync::OnceLock;
use std::sync::atomic::AtomicU64;
use std::sync::atomic::Ordering::SeqCst;

// More cuts than anyone knows.
const NONE_YET: u64 = u64::MAX;

/// Of two workers, holds the first that is about to price a node below the root until the other one knows
/// more cuts in one round at a node than in the round before, or for so many looks.
#[derive(Drop)]
pub struct CutGate {
    hold: Hold,
    before: AtomicU64,
    found: OnceLock<u64>,
    learnt: OnceLock<u64>,
}

impl CutGate {
    /// A gate to which nobody has come, and which holds for at most `limit` looks.
    pub fn new(limit: u64) -> CutGate {
        CutGate {
            hold: Hold::new(limit),
            before: AtomicU64::new(NONE_YET),
            found: OnceLock::new(),
            learnt: OnceLock::new(),
        }
    }

    /// How many cuts the other worker knew first that were more than in the round before.
    pub fn found(&self) -> Option<u64> {
        self.found.get().copied()
    }

    /// How many cuts the held worker knew as it began its first round after it was let go so.
    pub fn learnt(&self) -> Option<u64> {
        self.learnt.get().copied()
    }

    // The first worker is held. The other one has made no round at the node that it comes with.
    fn begin(&self, worker: u8) {
        if !self.hold.enter(worker) {
            self.before.store(NONE_YET, SeqCst);
        }
    }

    fn know(&self, worker: u8, cuts: u64) {
        if self.hold.has_released(worker) {
            // A number that was learnt before stays.
            let _ = self.learnt.try_set(cuts);
        } else if self.hold.is_of_another(worker) && cuts > self.before.swap(cuts, SeqCst) {
            let _ = self.found.try_set(cuts);
            self.hold.release(worker);
        }
    }
}

impl Gate for CutGate {
    fn at(&self, worker: u8, point: Point) {
        if Stage::Pricing.begins(point) {
            self.begin(worker);
        }
        if let Point::Knows(cuts) = point {
            self.know(worker, cuts);
        }
    }
}
