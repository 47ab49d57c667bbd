//! Successors that are enough from a minute on.

use crate::successor::Successor;

/// Successors that serve from a minute on as well as all that are enough for a line.
#[derive(Drop)]
pub struct LateList {
    pub from: u64,
    pub successors: Vec<Successor>,
}
