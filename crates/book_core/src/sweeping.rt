//! The event that closes the root by what was swept beside the book: as by what was shown, a book only
//! compares.
ghost use Rattle.std.specs.Prelude.{◌≡◌, ◌<◌, length, nat_eq};
ghost use Rattle.book_rules.specs.Book.{slot_at};
ghost use Rattle.book_rules.specs.Events.{close_swept};
ghost use Rattle.book_rules.specs.Step.{is_swept};
ghost use Rattle.book_core.specs.Keeps.{IsSound};
ghost use Rattle.book_core.specs.Replies.{Answers};
ghost use Rattle.book_core.specs.Telling.{told_swept};

use crate::book::Book;
use crate::reply::{Refusal, Reply};
use closing_rules::Ground;
use price_terms::Swept;

impl Book {
    // Whether a slot is the root's: no other has a node without ships.
    fn is_root(&self, id: u32) -> bool
        requires known { id < length self.now.slots }
        requires sound { IsSound self.now }
        ensures { result ≡ nat_eq (slot_at self.now id).node.depth 0 }
    {
        id == 0
    }

    // Whether what was swept is of the book's instance and of the first cuts of the book.
    fn is_swept(&self, swept: &Swept) -> bool
        ensures { result ≡ is_swept self.now (told_swept swept.now) }
    {
        if !self.is_of(swept.instance()) {
            return false;
        }
        self.has_first_cuts(swept.cuts())
    }

    /// Closes the root, held or parked, by a cost of at least the best cost below which the first cuts
    /// of the book leave no uncut plan; the sweep went by the prices of this number. Refuses `NotHeld`,
    /// then `NotRoot`, then `NoPrices` where no prices have this number, then `NotSwept` where the
    /// instance or the cuts that were swept are others, by value, then `Cheaper` with the cost that was
    /// swept. Takes no memory.
    pub fn close_swept(&mut self, id: u32, number: u64, swept: &Swept) -> Reply
        ensures { Answers self.old (close_swept id number (told_swept swept.now)) result self.new }
    {
        if !self.may_close(id) {
            return Reply::Refused(Refusal::NotHeld(id));
        }
        if !self.is_root(id) {
            return Reply::Refused(Refusal::NotRoot);
        }
        match self.prices_of(number) {
            Some(_) => {
                if !self.is_swept(swept) {
                    return Reply::Refused(Refusal::NotSwept);
                }
                self.shut_at(id, Ground::Swept(number), swept.cost())
            }
            None => Reply::Refused(Refusal::NoPrices(number)),
        }
    }
}
