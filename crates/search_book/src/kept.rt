//! What lies under the lock.
ghost use Rattle.std.specs.Prelude.{◌≡◌, length};
ghost use Rattle.book_core.specs.Keeps.{IsSound};

use book_core::Book;
use std::sync::ledger::{Book as Tally, Ledger};

/// A book in a box, since it is large, the total of a ledger that counts its accepted events, and how many
/// threads wait to be told of the next one.
#[derive(Drop)]
pub struct Kept<L: Ledger> {
    pub book: Box<Book>,
    pub tally: Tally<L>,
    pub waiting: u64,
    pub ghost counted: { length book.value.history ≡ tally.total },
}

impl<L: Ledger> Kept<L> {
    /// The facts that the book keeps.
    pub fn keeps(&self)
        ensures { IsSound self.now.book.value }
    {
        self.book.keeps();
    }

    /// One thread more waits.
    pub(crate) fn begin_waiting(&mut self) {
        self.waiting = self.waiting.saturating_add(1);
    }

    /// One thread that waited was told.
    pub(crate) fn end_waiting(&mut self) {
        self.waiting = self.waiting.saturating_sub(1);
    }
}
