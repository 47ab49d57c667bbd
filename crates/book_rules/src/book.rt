//! Slots and entries of a book.

use closing_rules::Ground;

/// The state of a slot.
#[derive(Clone, Copy, PartialEq, Eq)]
pub enum SlotState {
    Fresh,
    Back,
    Held(u8),
    Parked(u8, u8),
    Split(u32),
    Closed(Ground),
}

/// What is shown of a slot: a cost in minutes, and the number of the prices by which its node reaches it.
#[derive(Clone, Copy, PartialEq, Eq)]
pub struct ShownLow {
    pub prices: u64,
    pub cost: u64,
}

/// An entry of the history: an event that was accepted, and its numbers.
#[derive(Clone, Copy, PartialEq, Eq)]
pub enum Entry {
    Take(u8),
    Split(u32),
    Close(u32, Ground),
    ShowLow(u32, ShownLow),
    Post,
    Prices,
    Park(u32, u8, u8),
    Replace,
    Release(u8),
}
