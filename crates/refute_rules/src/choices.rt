//! Decisions about the ships of a deck, and their options.

use lock_model::{Moor, Rank};

/// A rank, and its quay or a host.
#[derive(Clone, Copy, Default)]
pub struct Berth {
    pub rank: Rank,
    pub moor: Moor,
}

/// What is decided of the ships of a deck, which go by their places in it.
#[derive(Clone, Copy)]
pub enum Decision {
    /// The berth of a ship.
    BerthOf(u8),
    /// How two ships are apart.
    PairOf(u8, u8),
    /// The x of a ship.
    XOf(u8),
}

/// An option of a decision.
#[derive(Clone, Copy)]
pub enum Choice {
    /// The ship lies at a berth.
    Lies(u8, Berth),
    /// The first ship is wholly before the second.
    Before(u8, u8),
    /// The first ship is wholly below the second.
    Below(u8, u8),
    /// The ship lies at this x, in decimetres.
    LiesAt(u8, u32),
}

impl Default for Decision {
    fn default() -> Decision {
        Decision::BerthOf(0)
    }
}

impl Default for Choice {
    fn default() -> Choice {
        Choice::Before(0, 0)
    }
}
