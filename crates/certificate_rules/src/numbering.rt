//! How marks are numbered in the text of a tree.

/// Which numbers the probes and the cuts have that the marks of a tree name: a larger instance has more
/// ships to probe, so its cuts begin at a higher number.
#[derive(Clone, Copy)]
pub enum Numbering {
    /// Those of an instance with up to `FEW_SHIPS` ships.
    Few,
    /// Those of an instance with more.
    Many,
}
