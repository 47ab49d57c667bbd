//! Triples of ships, and their prices.

/// The most triples that a list of prices has.
pub const TRIPLES: usize = 255;

/// Three ships by number, and the price of their triple, in hundredths of a minute of flow time. A group
/// has it where at least two of its ships are among the three: at most one lockage of a legal plan.
#[derive(Clone, Copy, PartialEq, Eq, Default)]
pub struct Triple {
    pub first: u8,
    pub second: u8,
    pub third: u8,
    pub price: u32,
}
