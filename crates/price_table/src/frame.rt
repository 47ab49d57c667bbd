//! States whose successors are being counted.

use crate::ready::Ready;

/// A state of which the successors before `next` are counted; `best` is the least of what they come
/// to, in hundredths of a minute.
#[derive(Clone, Copy)]
pub(crate) struct Frame {
    pub(crate) ready: Ready,
    pub(crate) best: i64,
    pub(crate) next: usize,
}
