//! From when on a chamber may go on.
ghost use Rattle.std.specs.Prelude.{◌≡◌, ◌≤◌, ◌↔◌, IsTrue};
ghost use Rattle.sweep_labels.specs.Labels.{ready_by, AreNoLater};

use lock_model::Way;

/// By way the least minute at which a next lockage of a chamber may start.
#[derive(Clone, Copy)]
pub struct ReadyTimes {
    pub up: u32,
    pub down: u32,
}

/// No ship is there for the way.
pub const NEVER: u32 = u32::MAX;

impl ReadyTimes {
    /// Nothing goes on.
    pub fn never() -> ReadyTimes
        ensures up { result.up ≡ NEVER }
        ensures down { result.down ≡ NEVER }
    {
        ReadyTimes {
            up: NEVER,
            down: NEVER,
        }
    }

    /// The minute for a way.
    #[inline(always)]
    pub fn by(&self, way: Way) -> u32
        ensures { result ≡ ready_by self.now way }
    {
        match way {
            Way::Up => self.up,
            Way::Down => self.down,
        }
    }

    /// Whether each is no later than the other's.
    #[inline(always)]
    pub fn is_no_later(&self, other: &ReadyTimes) -> bool
        ensures { IsTrue result ↔ AreNoLater self.now other.now }
    {
        self.up <= other.up && self.down <= other.down
    }
}
