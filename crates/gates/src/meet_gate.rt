//! A gate at which two workers meet.
use crate::gate::{Gate, Point, Stage};
use crate::hold::Hold;

/// Holds the first worker that begins with a node below the root until another worker begins with one
/// too, or for so many looks.
#[derive(Drop)]
pub struct MeetGate {
    stage: Stage,
    hold: Hold,
}

impl MeetGate {
    /// A gate of this stage to which nobody has come, and which holds for at most `limit` looks.
    pub fn new(stage: Stage, limit: u64) -> MeetGate {
        MeetGate {
            stage,
            hold: Hold::new(limit),
        }
    }

    /// Whether two workers came together.
    pub fn met(&self) -> bool {
        self.hold.is_released()
    }
}

impl Gate for MeetGate {
    fn at(&self, worker: u8, point: Point) {
        if self.stage.begins(point) && !self.hold.enter(worker) {
            self.hold.release(worker);
        }
    }
}
