//! What is asked of a chamber's arcs.

use lock_model::Way;
use sweep_labels::ShipSet;

/// How much the arcs of a chamber may take.
#[derive(Clone, Copy)]
pub struct ArcLimits {
    /// The greatest number of groups that are grown for a way at once.
    pub groups: usize,
    /// The greatest number of turns for the value of a state.
    pub turns: u64,
}

/// Arcs of a way from a minute on by ships that aren't served, whose worth is no more than a room, in
/// hundredths of a minute. The spread says how far arcs are listed that are asked for later: by how much
/// their worth may exceed the least.
#[derive(Clone, Copy)]
pub struct ArcsAsked {
    pub way: Way,
    pub minute: u32,
    pub served: ShipSet,
    pub room: i64,
    pub spread: i64,
}
