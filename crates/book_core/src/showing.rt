//! The event that closes a slot by what was shown of it beside the book: under its lock a book only
//! compares, and works nothing out.
ghost use Rattle.std.specs.Prelude.{◌≡◌, ◌<◌, length, map, Some, None, slice_get, IfSome, IfNone};
ghost use Rattle.book_rules.specs.Book.{slot_at};
ghost use Rattle.book_rules.specs.Events.{close_price};
ghost use Rattle.book_rules.specs.Same.{same_node};
ghost use Rattle.book_rules.specs.Shown.{are_first_cuts};
ghost use Rattle.book_rules.specs.Step.{is_shown};
ghost use Rattle.book_core.specs.Replies.{Answers};
ghost use Rattle.book_core.specs.Telling.{told_cut, told_shown};

use crate::book::Book;
use crate::reply::{Refusal, Reply};
use closing_rules::Ground;
use kept_prices::KeptPrices;
use master_branch::Node;
use price_terms::{ChamberCut, Shown};

impl Book {
    // The prices of this number; None exactly where there are none.
    pub(crate) fn prices_of(&self, number: u64) -> Option<&KeptPrices>
        ensures some { IfSome result (λ prices. slice_get self.now.prices number ≡ Some prices.now) }
        ensures none { IfNone result (slice_get self.now.prices number ≡ None) }
    {
        self.prices.get(number as usize)
    }

    // Whether the cuts are the first ones of the book.
    pub(crate) fn has_first_cuts(&self, shown: &[ChamberCut]) -> bool
        ensures { result ≡ are_first_cuts (map told_cut shown.now) self.now.cuts }
    {
        self.cuts.are_first(shown)
    }

    // Whether this is the node of a slot.
    fn has_node(&self, id: u32, node: &Node) -> bool
        requires { id < length self.now.slots }
        ensures { result ≡ same_node node.now (slot_at self.now id).node }
    {
        match self.hand_of(id) {
            Some(hand) => node.equals(&hand.node),
            None => node.equals(&self.node_of(id)),
        }
    }

    // Whether what was shown is of the book's instance, of this slot's node, of these prices and of
    // the first cuts of the book.
    pub(crate) fn is_shown(&self, id: u32, prices: &KeptPrices, shown: &Shown) -> bool
        requires { id < length self.now.slots }
        ensures { result ≡ is_shown self.now id prices.now (told_shown shown.now) }
    {
        if !self.is_of(shown.instance()) {
            return false;
        }
        if !self.has_node(id, shown.node()) {
            return false;
        }
        if !prices.equals(shown.prices()) {
            return false;
        }
        self.has_first_cuts(shown.cuts())
    }

    /// Closes a held or parked slot by the prices of this number, of which it was shown that its node
    /// reaches a cost of at least the best cost by them and by the first cuts of the book. Refuses
    /// `NotHeld`, then `NoPrices` where no prices have this number, then `NotShown` where the
    /// instance, the node, the prices or the cuts that were shown are others, by value, then `Cheaper`
    /// with the cost that was shown. Takes no memory.
    pub fn close_price(&mut self, id: u32, number: u64, shown: &Shown) -> Reply
        ensures { Answers self.old (close_price id number (told_shown shown.now)) result self.new }
    {
        if !self.may_close(id) {
            return Reply::Refused(Refusal::NotHeld(id));
        }
        match self.prices_of(number) {
            Some(prices) => {
                if !self.is_shown(id, prices, shown) {
                    return Reply::Refused(Refusal::NotShown);
                }
                self.shut_at(id, Ground::Price(number), shown.cost())
            }
            None => Reply::Refused(Refusal::NoPrices(number)),
        }
    }
}
