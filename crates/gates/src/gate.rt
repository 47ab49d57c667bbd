//! Gates, which workers call as they go.

/// Where a worker calls the gate.
#[derive(Clone, Copy, PartialEq, Eq)]
pub enum Point {
    /// It took a node of this depth, and has done no work on it.
    Took(u8),
    /// It read this number from the shared best cost, in minutes; or from the book that it has alone.
    Read(u64),
    /// It is about to work out prices at its node, which has this depth.
    Prices(u8),
    /// It knows so many cuts as it begins a round of prices.
    Knows(u64),
    /// It has worked out so many nodes below the one that it took.
    Ahead(u32),
    /// It has the book alone, of which so many nodes are used.
    Used(u32),
    /// It found that no plan costs less, in minutes.
    Low(u64),
    /// It closed, split or parked its node.
    Closed,
    /// It has nothing to do, and begins to wait.
    Idle,
}

/// Where the node begins for which a gate holds a worker.
#[derive(Clone, Copy)]
pub enum Stage {
    /// A worker that took a node.
    Taking,
    /// A worker that is about to work out prices at its node.
    Pricing,
}

impl Stage {
    /// Whether a worker at this point begins with a node below the root.
    pub(crate) fn begins(self, point: Point) -> bool {
        match (self, point) {
            (Stage::Taking, Point::Took(depth)) | (Stage::Pricing, Point::Prices(depth)) => depth
                > 0,
            _ => false,
        }
    }
}

/// What workers and the driver call as they go, so that a test can hold one of them, and the program can tell
/// how far a search is. No claim rests on it.
pub trait Gate {
    /// Lets this worker pass, at once or after a time.
    fn at(&self, worker: u8, point: Point);
}

/// A gate that lets all pass at once.
#[derive(Clone, Copy)]
pub struct OpenGate;

impl Gate for OpenGate {
    fn at(&self, _worker: u8, _point: Point) {}
}
