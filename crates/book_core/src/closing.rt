//! The events that close a slot.
ghost use Rattle.std.specs.Prelude.{◌≡◌, ◌≤◌, true, None};
ghost use Rattle.mooring_rules.specs.declared.breaks.BrokenPlan.{BrokenPlan};
ghost use Rattle.book_rules.specs.Book.{best_cost};
ghost use Rattle.book_rules.specs.Events.{close};
ghost use Rattle.book_rules.specs.Step.{may_close, refusal_of, cheaper_than, closed};
ghost use Rattle.book_core.specs.Keeps.{IsSound};
ghost use Rattle.book_core.specs.Replies.{Answers, IsShutAt};

use crate::book::Book;
use crate::reply::{Refusal, Reply};
use book_rules::{Entry, SlotState};
use closing_rules::Ground;

impl Book {
    // Closes a held or parked slot on this ground where this cost, which is all that is left to ask,
    // is at least the best cost.
    pub(crate) fn shut_at(&mut self, id: u32, why: Ground, cost: u64) -> Reply
        requires held { may_close self.old id ≡ true }
        requires sound { best_cost self.old ≤ cost → IsSound (closed self.old id why) }
        ensures { IsShutAt self.old id why cost result self.new }
    {
        let best = self.best_cost();
        if cost < best {
            return Reply::Refused(Refusal::Cheaper(cost, best));
        }
        self.settle(id, SlotState::Closed(why), Entry::Close(id, why));
        Reply::Closed
    }

    // Closes a slot that may be closed so.
    fn shut(&mut self, id: u32, why: Ground) -> Reply
        requires held { may_close self.old id ≡ true }
        requires unrefused { refusal_of {Break = BrokenPlan} self.old id why ≡ None }
        requires sound { IsSound self.old }
        ensures { Answers self.old (close id why) result self.new }
    {
        self.settle(id, SlotState::Closed(why), Entry::Close(id, why));
        Reply::Closed
    }

    // Closes a slot that may be closed where this number, which is all that is asked, is at least
    // the best cost.
    fn shut_from(&mut self, id: u32, why: Ground, number: u64) -> Reply
        requires held { may_close self.old id ≡ true }
        requires asked { refusal_of {Break = BrokenPlan} self.old id why ≡ cheaper_than (best_cost self.old) number }
        requires sound { IsSound self.old }
        ensures { Answers self.old (close id why) result self.new }
    {
        self.shut_at(id, why, number)
    }

    /// Closes a held or parked slot whose bound is at least the best cost. Refuses `NotHeld`, and
    /// `Cheaper` with the slot's bound. Takes no memory.
    pub fn close_bound(&mut self, id: u32) -> Reply
        ensures { Answers self.old (close id Ground.Bound) result self.new }
    {
        if !self.may_close(id) {
            return Reply::Refused(Refusal::NotHeld(id));
        }
        let bound = self.stored(id).bound;
        self.shut_from(id, Ground::Bound, bound)
    }

    /// Closes a held or parked slot where the throughput of the instance is at least the best
    /// cost. Refuses `NotHeld`, and `Cheaper` with the throughput. Takes no memory.
    pub fn close_throughput(&mut self, id: u32) -> Reply
        ensures { Answers self.old (close id Ground.Throughput) result self.new }
    {
        if !self.may_close(id) {
            return Reply::Refused(Refusal::NotHeld(id));
        }
        let throughput = self.throughput();
        self.shut_from(id, Ground::Throughput, throughput)
    }

    /// Closes a held or parked slot where the probe of its node and this ship is at least the best
    /// cost. Refuses `NotHeld`, then `Absent` where the ship isn't in the instance or is among the
    /// node's ships, then `Cheaper` with the probe. Takes no memory.
    pub fn close_probe(&mut self, id: u32, ship: u8) -> Reply
        ensures { Answers self.old (close id (Ground.Probe ship)) result self.new }
    {
        if !self.may_close(id) {
            return Reply::Refused(Refusal::NotHeld(id));
        }
        match self.probe_with(id, ship) {
            Some(least) => self.shut_from(id, Ground::Probe(ship), least),
            None => Reply::Refused(Refusal::Absent(ship)),
        }
    }

    /// Closes a held or parked slot by the cut of this number, which hits a group of its node.
    /// Refuses `NotHeld`, then `NoHit` where there is no such cut or it hits no group. Takes no
    /// memory.
    pub fn close_cut(&mut self, id: u32, number: u64) -> Reply
        ensures { Answers self.old (close id (Ground.Cut number)) result self.new }
    {
        if !self.may_close(id) {
            return Reply::Refused(Refusal::NotHeld(id));
        }
        if !self.hits(id, number) {
            return Reply::Refused(Refusal::NoHit(number));
        }
        self.shut(id, Ground::Cut(number))
    }

    // Refuses to close a slot by prices of which nothing was shown: `NotHeld`, then `NotShown`.
    fn close_unshown(&mut self, id: u32, number: u64) -> Reply
        ensures { Answers self.old (close id (Ground.Price number)) result self.new }
    {
        let _number = number;
        if !self.may_close(id) {
            return Reply::Refused(Refusal::NotHeld(id));
        }
        Reply::Refused(Refusal::NotShown)
    }

    // Refuses to close a slot where nothing was swept: `NotHeld`, then `NotSwept`.
    fn close_unswept(&mut self, id: u32, number: u64) -> Reply
        ensures { Answers self.old (close id (Ground.Swept number)) result self.new }
    {
        let _number = number;
        if !self.may_close(id) {
            return Reply::Refused(Refusal::NotHeld(id));
        }
        Reply::Refused(Refusal::NotSwept)
    }

    /// Closes a slot as the method of its ground does. Refuses `NotShown` where it is to be closed by
    /// prices and `NotSwept` where by a sweep, after `NotHeld`.
    pub fn close(&mut self, id: u32, why: Ground) -> Reply
        ensures { Answers self.old (close id why) result self.new }
    {
        match why {
            Ground::Bound => self.close_bound(id),
            Ground::Throughput => self.close_throughput(id),
            Ground::Probe(ship) => self.close_probe(id, ship),
            Ground::Cut(number) => self.close_cut(id, number),
            Ground::Price(number) => self.close_unshown(id, number),
            Ground::Swept(number) => self.close_unswept(id, number),
        }
    }
}
