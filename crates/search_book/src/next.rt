//! What comes after an event and a taking.

use book_core::Reply;

/// What came of an event that ends a slot in a worker's hand, and of the taking after it.
#[derive(Drop)]
pub enum Next {
    /// The event was refused with this reply, and nothing was taken.
    Refused(Reply),
    /// The event was accepted, and this is the reply to the taking.
    Taken(Reply),
}
