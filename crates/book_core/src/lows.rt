//! The event that keeps what was shown of a slot beside the book, by prices: while the slot is left, the
//! low that a book tells isn't less by it.
ghost use Rattle.std.specs.Prelude.{◌≡◌, ◌<◌, length, true, IfOk, IfErr};
ghost use Rattle.std.specs.Bool.{OnTrue};
ghost use Rattle.book_rules.specs.Book.{slot_at, slot_low, is_live};
ghost use Rattle.book_rules.specs.Events.{show_low};
ghost use Rattle.book_rules.specs.Step.{low_shown};
ghost use Rattle.book_core.specs.Keeps.{IsSound};
ghost use Rattle.book_core.specs.Replies.{Does, IsLowAt};
ghost use Rattle.book_core.specs.Telling.{told_shown};

use crate::book::Book;
use crate::growing::widen;
use crate::reply::{Refusal, Reply};
use crate::summing::is_live;
use book_rules::{Entry, ShownLow};
use no_memory::NoMemory;
use price_terms::Shown;

impl Book {
    /// What is shown of a slot: a cost in minutes, and the number of the prices by which its node
    /// reaches it. None where nothing is shown of it, and where there is no such slot.
    pub fn shown_low(&self, id: u32) -> Option<ShownLow>
        ensures { result ≡ (slot_at self.now id).shown }
    {
        if (id as usize) < self.slots.len() {
            self.slots[id as usize].shown
        } else {
            None
        }
    }

    // Whether a slot is open, held or parked.
    fn is_live(&self, id: u32) -> bool
        ensures value { result ≡ is_live (slot_at self.now id).state }
        ensures known { OnTrue result (id < length self.now.slots) }
        ensures sound { IsSound self.now }
    {
        is_live(self.state_of(id))
    }

    // This is shown of a slot, in the place of what was.
    fn keep_low(&mut self, id: u32, low: ShownLow) -> Result<(), NoMemory>
        requires known { id < length self.old.slots }
        requires sound { IsSound (low_shown self.old id low) }
        ensures some { IfOk result (λ _. self.new ≡ low_shown self.old id low) }
        ensures none { IfErr result (λ _. self.new ≡ self.old) }
    {
        let Some(lows) = self.shown_lows.checked_add(1) else {
            return Err(NoMemory);
        };
        let needed = self.entries_needed()?;
        widen(&mut self.history, needed)?;
        self.slots[id as usize].shown = Some(low);
        self.shown_lows = lows;
        self.history.push_reserved(Entry::ShowLow(id, low));
        Ok(())
    }

    // The same where its cost, which is all that is left to ask, is more than is known of the slot.
    fn raise_low(&mut self, id: u32, low: ShownLow) -> Reply
        requires known { id < length self.old.slots }
        requires sound { slot_low (slot_at self.old id) < low.cost → IsSound (low_shown self.old id low) }
        ensures { IsLowAt self.old id low result self.new }
    {
        let known = self.stored(id).low();
        if low.cost <= known {
            return Reply::Refused(Refusal::Lower(low.cost, known));
        }
        match self.keep_low(id, low) {
            Ok(()) => Reply::LowShown,
            Err(NoMemory) => Reply::Refused(Refusal::NoMemory),
        }
    }

    /// Keeps a cost, in minutes, of which it was shown that the node of an open, held or parked slot
    /// reaches it by the prices of this number and by the first cuts of the book; it takes the place
    /// of what was shown of the slot before. Refuses `NotHeld`, then `NoPrices` where no prices have
    /// this number, then `NotShown` where the instance, the node, the prices or the cuts that were
    /// shown are others, by value, then `Lower` where the slot's bound or what is shown of it is at
    /// least the cost, and `NoMemory`, after which the book is as it was.
    pub fn show_low(&mut self, id: u32, number: u64, shown: &Shown) -> Reply
        ensures { Does self.old (show_low id number (told_shown shown.now)) result self.new }
    {
        if !self.is_live(id) {
            return Reply::Refused(Refusal::NotHeld(id));
        }
        match self.prices_of(number) {
            Some(prices) => {
                if !self.is_shown(id, prices, shown) {
                    return Reply::Refused(Refusal::NotShown);
                }
                let low = ShownLow {
                    prices: number,
                    cost: shown.cost(),
                };
                self.raise_low(id, low)
            }
            None => Reply::Refused(Refusal::NoPrices(number)),
        }
    }
}
