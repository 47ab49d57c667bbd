//! What one mark leaves to the next.

use flow_bounds::NodeWalks;
use no_memory::NoMemory;
use price_bound::KeptLines;
use std::alloc::Global;

// The allocator, room for walks along the lines of a node, and least lines that are kept for the next
// price marks. Room and lines help speed alone.
#[derive(Drop)]
pub(crate) struct Workspace {
    pub(crate) alloc: Global,
    pub(crate) walks: NodeWalks,
    pub(crate) kept: KeptLines,
}

impl Workspace {
    // Nothing is kept yet.
    fn new(alloc: Global) -> Workspace {
        Workspace {
            alloc,
            walks: NodeWalks::new(),
            kept: KeptLines::new(alloc),
        }
    }

    // The same in a box: room for walks is large. Inlined, it would be on the stack too.
    #[inline(never)]
    pub(crate) fn boxed(alloc: Global) -> Result<Box<Workspace>, NoMemory> {
        match Box::new(alloc, Workspace::new(alloc)) {
            Ok(space) => Ok(space),
            Err(_) => Err(NoMemory),
        }
    }
}
