//! The event that gives a slot to a worker.
ghost use Rattle.std.specs.Prelude.{◌≡◌, ◌≤◌, ◌+◌, false, None, Some, slice_index_or};
ghost use Rattle.book_rules.specs.declared.book.SlotState.TheVariants as slot;
ghost use Rattle.book_rules.specs.Book.{first_slot, is_back, is_held_by};
ghost use Rattle.book_rules.specs.Events.{take};
ghost use Rattle.book_rules.specs.NextSlot.{next_fresh};
ghost use Rattle.book_rules.specs.Step.{given};
ghost use Rattle.book_core.specs.Keeps.{IsSound};
ghost use Rattle.book_core.specs.Replies.{Answers, Grants, HasNode, IsInHand, grant_told, told};

use crate::book::Book;
use crate::reply::{Grant, Refusal, Reply};
use lock_model::WORKERS;

impl Book {
    // Gives a returned slot, the first, to a worker.
    fn take_back(&mut self, worker: u8, id: u32) -> Grant
        requires known { worker ≤ WORKERS }
        requires running { slice_index_or self.old.ended worker false ≡ false }
        requires empty { first_slot self.old (is_held_by worker) ≡ None }
        requires first { first_slot self.old is_back ≡ Some id }
        requires sound { IsSound self.old }
        ensures step { Grants self.old worker result self.new }
        ensures held { IsInHand self.new result }
    {
        let used = self.used();
        self.give(id, worker, used);
        Grant::Slot(id)
    }

    // Gives a fresh slot, the next, to a worker, unless the budget is spent.
    fn take_fresh(&mut self, worker: u8, id: u32) -> Grant
        requires known { worker ≤ WORKERS }
        requires running { slice_index_or self.old.ended worker false ≡ false }
        requires empty { first_slot self.old (is_held_by worker) ≡ None }
        requires back { first_slot self.old is_back ≡ None }
        requires next { next_fresh self.old ≡ Some id }
        requires sound { IsSound self.old }
        ensures step { Grants self.old worker result self.new }
        ensures held { IsInHand self.new result }
    {
        let used = self.used();
        if used == self.nodes() {
            return Grant::NodesSpent(used);
        }
        self.give(id, worker, used + 1);
        Grant::Slot(id)
    }

    // Nothing is open.
    fn take_none(&self, worker: u8) -> Grant
        requires running { slice_index_or self.now.ended worker false ≡ false }
        requires empty { first_slot self.now (is_held_by worker) ≡ None }
        requires back { first_slot self.now is_back ≡ None }
        requires next { next_fresh self.now ≡ None }
        ensures step { Grants self.now worker result self.now }
        ensures held { IsInHand self.now result }
    {
        let _ = worker;
        if self.has_held() {
            Grant::Idle
        } else {
            Grant::Done
        }
    }

    // Gives a slot to a worker who holds none and hasn't ended.
    fn take_open(&mut self, worker: u8) -> Grant
        requires known { worker ≤ WORKERS }
        requires running { slice_index_or self.old.ended worker false ≡ false }
        requires empty { first_slot self.old (is_held_by worker) ≡ None }
        requires sound { IsSound self.old }
        ensures step { Grants self.old worker result self.new }
        ensures held { IsInHand self.new result }
    {
        if let Some(id) = self.first_back() {
            return self.take_back(worker, id);
        }
        match self.next_fresh() {
            Some(id) => self.take_fresh(worker, id),
            None => self.take_none(worker),
        }
    }

    /// The same as `take`, but that the node of a slot that is given stays in the worker's hand.
    pub fn take_slot(&mut self, worker: u8) -> Grant
        requires { worker ≤ WORKERS }
        ensures step { Grants self.old worker result self.new }
        ensures held { IsInHand self.new result }
    {
        self.keeps();
        if self.ended(worker) {
            return Grant::Ended(worker);
        }
        match self.held_by(worker) {
            Some(id) => Grant::Holds(id),
            None => self.take_open(worker),
        }
    }

    /// The reply to the taking that left the book so, with a copy of the node of a slot that was
    /// given.
    pub fn grant_reply(&self, grant: Grant) -> Reply
        requires { IsInHand self.now grant }
        ensures told { told result ≡ Some (grant_told self.now grant) }
        ensures node { HasNode self.now.case.instance result }
    {
        match grant {
            Grant::Slot(id) => Reply::Node(id, self.held_node(id).copy()),
            Grant::Ended(worker) => Reply::Refused(Refusal::Ended(worker)),
            Grant::Holds(id) => Reply::Refused(Refusal::Holds(id)),
            Grant::NodesSpent(used) => Reply::Refused(Refusal::NodesSpent(used)),
            Grant::Idle => Reply::Refused(Refusal::Idle),
            Grant::Done => Reply::Refused(Refusal::Done),
        }
    }

    /// Gives a worker of 0 to `WORKERS`, the driver, a slot to work on, with its node: the returned one of the smallest
    /// number, else the root, else, of the fresh children of the split of the greatest first child,
    /// the one of the least bound. Refuses `Ended`, then `Holds`, `NodesSpent`, `Idle` and `Done`.
    /// Takes no memory.
    pub fn take(&mut self, worker: u8) -> Reply
        requires { worker ≤ WORKERS }
        ensures step { Answers self.old (take worker) result self.new }
        ensures node { HasNode self.old.case.instance result }
    {
        let grant = self.take_slot(worker);
        self.grant_reply(grant)
    }
}
