//! Why a worker ends early.

use no_memory::NoMemory;
use std::alloc::AllocFailed;

/// The worker is to release and to end: it has worked on its quota of nodes, memory was refused, or
/// the book answered what it doesn't answer a worker that keeps the rules.
#[derive(Drop)]
pub struct Stop;

impl<T: Drop> From<AllocFailed<T>> for Stop {
    fn from(_want: AllocFailed<T>) -> Stop {
        Stop
    }
}

impl From<NoMemory> for Stop {
    fn from(_want: NoMemory) -> Stop {
        Stop
    }
}
