//! What happens on a day at the lock.

/// What a chamber does, or what is done in it.
#[derive(Clone, Copy, Default)]
pub enum Act {
    /// The chamber begins an empty turn to its other side.
    #[default]
    Turn,
    /// The ship of this number in the instance is moored.
    Moor(u8),
    /// The lockage begins.
    Go,
    /// The lockage is over.
    Done,
}

/// One act: its minute, the chamber by its number in the instance, and the lockage by its place in
/// the plan, from 0. The lockage of a turn is that which it prepares.
#[derive(Clone, Copy, Default)]
pub struct Beat {
    pub minute: u64,
    pub chamber: u8,
    pub lockage: u8,
    pub act: Act,
}
