//! What a seat knows, and what a table was made of.
use std::collections::LinkedList;

/// What a seat knows of the word. Contracts alone speak of views; none is ever made.
pub struct View {
    /// The least number that was seen.
    pub seen: u64,
    /// All numbers that were posted, in their order.
    pub posted: LinkedList<u64>,
    /// The parts that the seat holds.
    pub parts: u64,
    /// The number that the table was opened with.
    pub opening: u64,
    /// The number of all parts.
    pub whole: u64,
}

/// What a table is opened with: its first number, and the number of all parts.
#[derive(Clone, Copy)]
pub struct Opening {
    pub number: u64,
    pub parts: u64,
}
