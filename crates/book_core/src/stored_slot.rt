//! Slots as a book stores them.
ghost use Rattle.std.specs.Prelude.{◌≡◌};
ghost use Rattle.book_rules.specs.Book.{low_by};

use book_rules::{ShownLow, SlotState};

// A slot of a book: the child of this number of its parent's node, 0 and 0 for the root, with its
// bound in minutes, what is shown of it, and its state. Its node isn't stored: it is found again from
// the parents.
#[derive(Clone, Copy)]
pub(crate) struct StoredSlot {
    pub(crate) bound: u64,
    pub(crate) shown: Option<ShownLow>,
    pub(crate) state: SlotState,
    pub(crate) parent: u32,
    pub(crate) number: u8,
}

impl StoredSlot {
    // What is known of its node: no plan under it costs less, in minutes.
    pub(crate) fn low(&self) -> u64
        ensures { result ≡ low_by self.now.bound self.now.shown }
    {
        match self.shown {
            Some(low) => self.bound.max(low.cost),
            None => self.bound,
        }
    }
}

// The bytes that a slot takes.
const _: () = prove!(size_of::<StoredSlot>() == 64);
