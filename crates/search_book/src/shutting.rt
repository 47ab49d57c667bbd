//! A slot that is closed by what was shown beside the book, and a taking after it.
ghost use Rattle.std.specs.Prelude.{◌≡◌, ◌+◌, ◌<◌, ◌≤◌, length};
ghost use Rattle.std.specs.Bool.{OnFalse};
ghost use Rattle.book_core.specs.Replies.{Answers};
ghost use Rattle.search_book.specs.Following.{counted};
ghost use Rattle.search_book.specs.Replies.{is_accepting, accepted};
ghost use Rattle.search_book.specs.Shutting.{Shuts, closing_event};

use crate::applying::apply;
use crate::event::Event;
use crate::kept::Kept;
use crate::next::Next;
use crate::replies::is_accepting;
use book_core::{Book, Reply};
use lock_model::WORKERS;
use price_terms::Shown;
use std::sync::ledger::{Ledger, Share};

/// How a slot is closed by prices: its number, that of the prices, and what its node was shown to reach
/// by them.
#[derive(Drop)]
pub struct Closing<'a> {
    pub id: u32,
    pub number: u64,
    pub shown: &'a Shown<'a>,
}

// Closes a slot by prices, and says how that changes the history.
fn close_counted(book: &mut Book, closing: &Closing<'_>) -> Reply
    ensures step { Answers book.old (closing_event closing.now) result book.new }
    ensures count { length book.new.history ≡ length book.old.history + accepted result }
    ensures refused { OnFalse (is_accepting result) (book.new ≡ book.old) }
{
    book.close_price(closing.id, closing.number, closing.shown)
}

// Closes a slot of the book that is kept by prices, and counts that where it is accepted.
fn shut<L: Ledger>(kept: &mut Kept<L>, share: &mut Share<L>, closing: &Closing<'_>) -> Reply
    requires part { 0 < share.old.parts }
    ensures step { Answers kept.old.book.value (closing_event closing.now) result kept.new.book.value }
    ensures refused { OnFalse (is_accepting result) (kept.new.book.value ≡ kept.old.book.value) }
    ensures total { kept.new.tally.total ≡ kept.old.tally.total + accepted result }
    ensures amount { share.new.amount ≡ share.old.amount + accepted result }
    ensures parts { share.new.parts ≡ share.old.parts }
{
    let reply = close_counted(&mut *kept.book, closing);
    if is_accepting(&reply) {
        kept.tally.add(share, 1);
    }
    reply
}

/// Closes a slot as `Book::close_price` does and, where that is accepted, makes
/// `Take` of this worker as `apply` does. The total and the amount of the share grow by one for each of
/// the two that is accepted.
pub fn close_and_take<L: Ledger>(
    kept: &mut Kept<L>,
    share: &mut Share<L>,
    worker: u8,
    closing: &Closing<'_>,
) -> Next
    requires part { 0 < share.old.parts }
    requires worker { worker ≤ WORKERS }
    ensures steps { Shuts kept.old.book.value closing.now worker result kept.new.book.value }
    ensures total { kept.new.tally.total ≡ kept.old.tally.total + counted result }
    ensures amount { share.new.amount ≡ share.old.amount + counted result }
    ensures parts { share.new.parts ≡ share.old.parts }
{
    let reply = shut(kept, share, closing);
    if !is_accepting(&reply) {
        return Next::Refused(reply);
    }
    Next::Taken(apply(kept, share, Event::Take(worker)))
}
