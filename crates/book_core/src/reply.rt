//! What a book answers to an event.

use master_branch::Node;
use mooring_rules::BrokenPlan;

/// The reply to an event.
#[derive(Drop)]
pub enum Reply {
    /// The slot that was taken, and its node.
    Node(u32, Node),
    /// The slot was split into so many children, those closed by their bound included.
    Made(u32),
    /// The slot was closed.
    Closed,
    /// The cost that was shown is kept.
    LowShown,
    /// The cut was kept under this number.
    Posted(u64),
    /// The prices were kept under this number.
    Priced(u64),
    /// The slot was parked.
    Parked,
    /// The plan is the best one; this is its cost in minutes.
    Replaced(u64),
    /// The worker has ended: 1 where it gave a slot back, else 0.
    Released(u32),
    /// The event was refused, and the book is as it was.
    Refused(Refusal),
}

/// Why an event was refused.
#[derive(Drop)]
pub enum Refusal {
    /// The worker has released before.
    Ended(u8),
    /// The worker holds this slot.
    Holds(u32),
    /// No slot is returned, one is fresh, and so many nodes were used: the whole budget.
    NodesSpent(u32),
    /// Nothing is open, and a slot is held.
    Idle,
    /// Nothing is open or held.
    Done,
    /// The slot isn't held, or, for closing, neither held nor parked, or, for showing a cost, not open
    /// either.
    NotHeld(u32),
    /// The slot's node holds all ships.
    Whole(u32),
    /// The bound, or the cost that was shown or swept, which is below the best cost, and the best
    /// cost, in minutes.
    Cheaper(u64, u64),
    /// No cut has this number, or it hits no group of the node.
    NoHit(u64),
    /// The deck isn't that of the chamber and ships of the instance, or the turns are too few.
    OtherDeck,
    /// The plan isn't legal; this is its first break.
    NotLegal(BrokenPlan),
    /// The plan's cost, which is at least the best cost, and the best cost, in minutes.
    NotCheaper(u64, u64),
    /// There was no memory; the event may be tried again.
    NoMemory,
    /// The ship isn't in the instance, or is among the node's ships.
    Absent(u8),
    /// Two ships of the named group of this slot clash.
    Clashes(u32),
    /// The prices aren't one for each ship, or a triple has another ship.
    OtherPrices,
    /// No prices have this number.
    NoPrices(u64),
    /// What was shown isn't of the instance, of the slot's node, of the prices of the number and of
    /// the first cuts of the book; or nothing was shown.
    NotShown,
    /// The slot isn't the root's, which alone a sweep closes.
    NotRoot,
    /// What was swept isn't of the instance and of the first cuts of the book; or nothing was swept.
    NotSwept,
    /// The cost that was shown, which is at most what is known of the slot, and that, in minutes.
    Lower(u64, u64),
}

/// The reply to a taking, but for the node of a slot that was given, which is in the worker's hand
/// (`Book::node_in_hand`).
#[derive(Clone, Copy)]
pub enum Grant {
    /// The slot that was taken.
    Slot(u32),
    /// The worker has released before.
    Ended(u8),
    /// The worker holds this slot.
    Holds(u32),
    /// No slot is returned, one is fresh, and so many nodes were used: the whole budget.
    NodesSpent(u32),
    /// Nothing is open, and a slot is held.
    Idle,
    /// Nothing is open or held.
    Done,
}
