//! A gate that holds a worker until another one has nothing left to do.
use crate::gate::{Gate, Point, Stage};
use crate::hold::Hold;
use crate::worker_set::WorkerSet;
use std::sync::OnceLock;

/// Holds the first worker that begins with a node below the root until another worker has begun with one
/// after that and then is idle, or for so many looks.
#[derive(Drop)]
pub struct LastGate {
    stage: Stage,
    hold: Hold,
    followers: WorkerSet,
    heard: OnceLock<u64>,
}

impl LastGate {
    /// A gate of this stage to which nobody has come, and which holds for at most `limit` looks.
    pub fn new(stage: Stage, limit: u64) -> LastGate {
        LastGate {
            stage,
            hold: Hold::new(limit),
            followers: WorkerSet::new(),
            heard: OnceLock::new(),
        }
    }

    /// Whether another worker's idleness let the held one go.
    pub fn freed(&self) -> bool {
        self.hold.is_released()
    }

    /// The best cost that the held worker read first after it was let go so.
    pub fn heard(&self) -> Option<u64> {
        self.heard.get().copied()
    }

    // The first worker is held, and each other one that comes after it is remembered.
    fn begin(&self, worker: u8) {
        if !self.hold.enter(worker) && self.hold.is_of_another(worker) {
            self.followers.insert(worker);
        }
    }

    fn idle(&self, worker: u8) {
        if self.followers.contains(worker) {
            self.hold.release(worker);
        }
    }

    fn read(&self, worker: u8, cost: u64) {
        if self.hold.has_released(worker) {
            // A number that was heard before stays.
            let _ = self.heard.try_set(cost);
        }
    }
}

impl Gate for LastGate {
    fn at(&self, worker: u8, point: Point) {
        if self.stage.begins(point) {
            self.begin(worker);
        }
        match point {
            Point::Read(cost) => self.read(worker, cost),
            Point::Idle => self.idle(worker),
            _ => {}
        }
    }
}
