//! The book that threads share, and who waits for it.
ghost use Rattle.std.specs.Prelude.{◌≡◌, ◌+◌, ◌<◌, ◌≤◌, false, length};
ghost use Rattle.search_book.specs.Asked.{WasMade, WasFollowed, WasShut, WentAhead};
ghost use Rattle.search_book.specs.Events.{IsAllowed};
ghost use Rattle.search_book.specs.Following.{counted};
ghost use Rattle.search_book.specs.Going.{gone_count};
ghost use Rattle.search_book.specs.Replies.{accepted, is_idle};

use crate::ahead::Stretch;
use crate::applying::{apply, apply_and_take};
use crate::event::Event;
use crate::going::go_ahead;
use crate::gone::Gone;
use crate::kept::Kept;
use crate::learning::learn_cuts;
use crate::next::Next;
use crate::replies::{is_accepting, is_idle};
use crate::shutting::{Closing, close_and_take};
use book_core::Reply;
use lock_model::WORKERS;
use no_memory::NoMemory;
use price_terms::ChamberCut;
use std::hint::spin_loop;
use std::sync::ledger::{Ledger, Share};
use std::sync::{Condvar, Mutex, MutexGuard, Wait};

// How often a thread tries for the lock before it may sleep. The lock is held for about a
// microsecond, and sleeping and waking take fifty times that.
const TRIES: u32 = 200;

/// A share without parts, which gathers the others when the book is taken back.
#[derive(Drop)]
pub(crate) struct Nobody<L: Ledger> {
    pub(crate) share: Share<L>,
    pub(crate) ghost no_part: { share.parts ≡ 0 },
    pub(crate) ghost no_amount: { share.amount ≡ 0 },
}

/// A book under its lock. Threads may share it.
#[derive(Drop)]
pub struct SharedBook<L: Ledger> {
    pub(crate) lock: Mutex<Kept<L>>,
    pub(crate) told: Condvar,
    pub(crate) nobody: Mutex<Nobody<L>>,
}

// Whether the event before a taking was accepted.
fn has_ended(next: &Next) -> bool {
    match next {
        Next::Taken(_) => true,
        Next::Refused(_) => false,
    }
}

impl<L: Ledger> SharedBook<L> {
    // Takes the lock, and tries for a while before it may sleep.
    fn lock_soon<W: Wait>(&self, rt: &W) -> MutexGuard<'_, Kept<L>> {
        for _ in 0..TRIES {
            if let Some(kept) = self.lock.try_lock() {
                return kept;
            }
            spin_loop();
        }
        self.lock.lock(rt)
    }

    // Leaves the lock, and tells those who wait, if any do, where an event was accepted.
    fn leave(&self, kept: MutexGuard<'_, Kept<L>>, has_accepted: bool) {
        let must_tell = has_accepted && kept.waiting > 0;
        drop(kept);
        if must_tell {
            self.told.notify_all();
        }
    }

    // Leaves the lock until some event is accepted.
    fn wait<'k, W: Wait>(
        &self,
        rt: &W,
        mut kept: MutexGuard<'k, Kept<L>>,
    ) -> MutexGuard<'k, Kept<L>> {
        kept.begin_waiting();
        let mut kept = self.told.wait(rt, kept);
        kept.end_waiting();
        kept
    }

    /// Waits for the lock, and makes one event as `apply` does. The share grows by one exactly where
    /// the event is accepted, and then all who wait are told. The share needs a part, and keeps its
    /// parts. `Take` and `Release` need a worker of 0 to `WORKERS`, and `Park` a deck that is spot-hard for
    /// its turns.
    pub fn with_book<W: Wait>(&self, rt: &W, share: &mut Share<L>, event: Event) -> Reply
        requires part { 0 < share.old.parts }
        requires allowed { IsAllowed event }
        ensures amount { share.new.amount ≡ share.old.amount + accepted result }
        ensures parts { share.new.parts ≡ share.old.parts }
        ensures asked { WasMade event result }
    {
        let mut kept = self.lock_soon(rt);
        let inside = &mut *kept;
        inside.keeps();
        let reply = apply(inside, share, event);
        self.leave(kept, is_accepting(&reply));
        reply
    }

    /// Waits for the lock, and makes an event and, where it is accepted, `Take` of this worker, as
    /// `apply_and_take` does in one holding of the lock. The share grows by one for each of the two
    /// that is accepted, and then all who wait are told. The conditions are those of `with_book`.
    pub fn end_and_take<W: Wait>(
        &self,
        rt: &W,
        share: &mut Share<L>,
        worker: u8,
        ending: Event,
    ) -> Next
        requires part { 0 < share.old.parts }
        requires worker { worker ≤ WORKERS }
        requires allowed { IsAllowed ending }
        ensures amount { share.new.amount ≡ share.old.amount + counted result }
        ensures parts { share.new.parts ≡ share.old.parts }
        ensures asked { WasFollowed ending worker result }
    {
        let mut kept = self.lock_soon(rt);
        let inside = &mut *kept;
        inside.keeps();
        let next = apply_and_take(inside, share, worker, ending);
        self.leave(kept, has_ended(&next));
        next
    }

    /// Waits for the lock, and closes a slot by prices and, where that is accepted, takes one for
    /// this worker, as `close_and_take` does in one holding of the lock. The share grows by one for
    /// each of the two that is accepted, and then all who wait are told. The share needs a part, and
    /// keeps its parts.
    pub fn close_and_take<W: Wait>(
        &self,
        rt: &W,
        share: &mut Share<L>,
        worker: u8,
        closing: &Closing<'_>,
    ) -> Next
        requires part { 0 < share.old.parts }
        requires worker { worker ≤ WORKERS }
        ensures amount { share.new.amount ≡ share.old.amount + counted result }
        ensures parts { share.new.parts ≡ share.old.parts }
        ensures asked { WasShut closing.now worker result }
    {
        let mut kept = self.lock_soon(rt);
        let inside = &mut *kept;
        inside.keeps();
        let next = close_and_take(inside, share, worker, closing);
        self.leave(kept, has_ended(&next));
        next
    }

    /// Waits for the lock, and gives the slot whose child a slot is, as `Book::parent` does.
    pub fn parent<W: Wait>(&self, rt: &W, id: u32) -> Option<u32> {
        let kept = self.lock_soon(rt);
        kept.book.parent(id)
    }

    /// Waits for the lock, and appends the book's cuts to the known ones, as `learn_cuts` does.
    pub fn learn_cuts<W: Wait>(&self, rt: &W, known: &mut Vec<ChamberCut>) -> Result<(), NoMemory> {
        let kept = self.lock_soon(rt);
        learn_cuts(&*kept.book, known)
    }

    /// Waits for the lock, and hands nodes that were worked out ahead to the book as `go_ahead` does
    /// in one holding of the lock, the first with this slot, which the worker holds. The share grows
    /// by one for each event that is accepted, and then all who wait are told.
    pub fn go_ahead<W: Wait>(
        &self,
        rt: &W,
        share: &mut Share<L>,
        worker: u8,
        id: u32,
        stretch: &Stretch<'_>,
    ) -> Gone
        requires part { 0 < share.old.parts }
        requires worker { worker ≤ WORKERS }
        requires some { 0 < length stretch.now.nodes.items }
        ensures amount { share.new.amount ≡ share.old.amount + gone_count result }
        ensures parts { share.new.parts ≡ share.old.parts }
        ensures asked { WentAhead worker id stretch.now.nodes.items result }
    {
        let mut kept = self.lock_soon(rt);
        let inside = &mut *kept;
        inside.keeps();
        let gone = go_ahead(inside, share, worker, id, stretch);
        self.leave(kept, gone.place > 0 || has_ended(&gone.next));
        gone
    }

    /// The same as `with_book` for `Take` by a worker of 0 to `WORKERS`, but that it waits, while nothing is
    /// open and a slot is held, until some event is accepted: it never answers `Idle`.
    pub fn take_or_wait<W: Wait>(&self, rt: &W, share: &mut Share<L>, worker: u8) -> Reply
        requires part { 0 < share.old.parts }
        requires worker { worker ≤ WORKERS }
        ensures amount { share.new.amount ≡ share.old.amount + accepted result }
        ensures parts { share.new.parts ≡ share.old.parts }
        ensures waited { is_idle result ≡ false }
        ensures asked { WasMade (Event.Take worker) result }
    {
        let mut kept = self.lock_soon(rt);
        for _ in rt.forever() {
            let inside = &mut *kept;
            inside.keeps();
            let reply = apply(inside, share, Event::Take(worker));
            if !is_idle(&reply) {
                self.leave(kept, is_accepting(&reply));
                return reply;
            }
            kept = self.wait(rt, kept);
        }
        unreachable!()
    }
}

// What threads may share.
fn may_share<T: Sync>(_shared: &T) {}

// Threads may share a book.
pub(crate) fn may_share_book<L: Ledger + Send + Sync>(shared: &SharedBook<L>) {
    may_share(shared)
}
