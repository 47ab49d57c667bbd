//! The event that puts a cheaper plan in the place of the best one.
ghost use Rattle.std.specs.Prelude.{◌≡◌, ◌<◌, ◌∷◌, ◌++◌, [], ◌||◌, map, filter, IfOk, IfErr};
ghost use Rattle.lock_rules.specs.Plan.{cost_of};
ghost use Rattle.book_rules.specs.Book.{is_fresh, is_back, is_parked};
ghost use Rattle.book_rules.specs.Events.{replace};
ghost use Rattle.book_rules.specs.Step.{replaced};
ghost use Rattle.book_core.specs.Outdone.{outdone_stored, is_back_in};
ghost use Rattle.book_core.specs.Keeps.{IsSound};
ghost use Rattle.book_core.specs.Replies.{Does};

use crate::back_list::BackList;
use crate::book::Book;
use crate::growing::make_room;
use crate::opening::cost_of_legal;
use crate::reply::{Refusal, Reply};
use crate::stored_slot::StoredSlot;
use book_rules::{Entry, SlotState};
use closing_rules::Ground;
use lock_model::Plan;
use mooring_rules::judge_plan;
use no_memory::NoMemory;

// Whether a slot in this state is fresh, returned or parked.
fn may_be_outdone(state: SlotState) -> bool
    ensures { result ≡ (is_fresh state || is_back state || is_parked state) }
{
    match state {
        SlotState::Fresh | SlotState::Back | SlotState::Parked(_, _) => true,
        _ => false,
    }
}

// The slot once a plan of this cost is the best one.
fn outdone(slot: StoredSlot, cost: u64) -> StoredSlot
    ensures { result ≡ outdone_stored cost slot }
{
    if may_be_outdone(slot.state) && cost <= slot.bound {
        StoredSlot {
            state: SlotState::Closed(Ground::Bound),
            ..slot
        }
    } else {
        slot
    }
}

// Closes each fresh, returned or parked slot whose bound is at least this cost.
fn outdo(slots: &mut [StoredSlot], cost: u64)
    ensures { slots.new ≡ map (outdone_stored cost) slots.old }
{
    for id in 0..slots.len() {
        slots[id] = outdone(slots[id], cost);
    }
}

// Whether a slot is returned.
fn is_back(slots: &[StoredSlot], id: u32) -> bool
    ensures { result ≡ is_back_in slots.now id }
{
    if id as usize >= slots.len() {
        return false;
    }
    match slots[id as usize].state {
        SlotState::Back => true,
        _ => false,
    }
}

// Those of the slots that are returned still.
fn still_back(slots: &[StoredSlot], back: &BackList) -> BackList
    ensures { result ≡ filter (is_back_in slots.now) back.now }
{
    let mut kept = BackList::new();
    for &id in back.as_slice() {
        if is_back(slots, id) {
            kept.push(id);
        }
    }
    kept
}

impl Book {
    // A plan of this cost becomes the best one.
    fn put_plan(&mut self, plan: Plan, cost: u64) -> Result<(), NoMemory>
        requires cost { cost ≡ cost_of self.old.case.instance plan }
        requires sound { IsSound (replaced self.old plan) }
        ensures some { IfOk result (λ _. self.new ≡ replaced self.old plan) }
        ensures none { IfErr result (λ _. self.new ≡ self.old) }
    {
        let needed = self.entries_needed()?;
        make_room(&mut self.history, needed, &mut self.plans)?;
        outdo(self.slots.as_mut_slice(), cost);
        self.back = still_back(&self.slots, &self.back);
        self.plans.push_reserved(plan.copy());
        self.best = plan;
        self.best_cost = cost;
        self.history.push_reserved(Entry::Replace);
        Ok(())
    }

    /// Puts a legal plan that is cheaper in the place of the best one, and closes each fresh,
    /// returned or parked slot whose bound is at least its cost. Refuses `NotLegal` with the first
    /// break, then `NotCheaper`, and `NoMemory`, after which the book is as it was; a refused plan
    /// is dropped.
    pub fn replace(&mut self, plan: Plan) -> Reply
        ensures { Does self.old (replace plan) result self.new }
    {
        self.keeps();
        if let Some(found) = judge_plan(self.instance(), &plan) {
            return Reply::Refused(Refusal::NotLegal(found));
        }
        let cost = cost_of_legal(self.instance(), &plan);
        let best = self.best_cost();
        if cost >= best {
            return Reply::Refused(Refusal::NotCheaper(cost, best));
        }
        match self.put_plan(plan, cost) {
            Ok(()) => Reply::Replaced(cost),
            Err(NoMemory) => Reply::Refused(Refusal::NoMemory),
        }
    }
}
