//! Which forbidden sets a ship may complete.

use crate::masks::ShipMask;

/// Masks of the sets that a ship may complete.
#[derive(Drop)]
pub struct CompletableSets {
    pub masks: Vec<ShipMask>,
}
