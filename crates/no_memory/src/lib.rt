//! Want of memory.
//!
//! `NoMemory` says that there was no memory for what was asked. `?` makes it of std's `AllocError`, and
//! it tells nothing else. Nothing stands below this crate, and it has no definitions.
#![tactic(auto)]

use std::alloc::AllocError;

/// There was no memory for what was asked.
#[derive(Clone, Copy, Debug, PartialEq, Eq)]
pub struct NoMemory;

impl From<AllocError> for NoMemory {
    fn from(_error: AllocError) -> NoMemory {
        NoMemory
    }
}
