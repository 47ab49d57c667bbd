//! How far a book went through nodes that were worked out ahead.

use crate::next::Next;

/// How far a worker came through a stretch of nodes. All nodes before the last one that was tried
/// have ended, and each time the slot that was taken had the next node.
#[derive(Drop)]
pub struct Gone {
    /// The place in the stretch of the last node that was tried.
    pub place: usize,
    /// The slot of that node, which is held still where its ending was refused.
    pub id: u32,
    /// What came of its ending, and of the taking after it.
    pub next: Next,
}
