//! Arcs of a chamber and way from a minute on.

use sweep_labels::Arc;

/// Arcs of all uncut groups of a chamber and way from a minute on whose worth is no more than a limit,
/// those of least worth first.
#[derive(Drop)]
pub(crate) struct ArcList {
    pub(crate) limit: i64,
    pub(crate) arcs: Vec<Arc>,
}
