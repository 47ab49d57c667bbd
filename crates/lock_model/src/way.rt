//! Which way ships go, and on which side a chamber stands.

/// The way of a ship and of a lockage: up from the low side to the high one, or down.
#[derive(Clone, Copy, PartialEq, Eq, Default)]
pub enum Way {
    #[default]
    Up,
    Down,
}

/// The side where a chamber stands: an upward lockage needs it low, a downward one high.
#[derive(Clone, Copy, PartialEq, Eq, Default)]
pub enum Stand {
    #[default]
    Low,
    High,
}
