//! The event that splits a slot into its children.
ghost use Rattle.std.specs.Prelude.{◌≡◌, ◌+◌, ◌≤◌, ◌<◌, ◌++◌, true, false, length, nat_le, IfOk, IfErr, IfSome, IfNone, vec_len, vec_capacity};
ghost use Rattle.book_rules.specs.Book.{slot_at, is_held};
ghost use Rattle.book_rules.specs.declared.book.SlotState.TheVariants as slot;
ghost use Rattle.book_rules.specs.Events.{split};
ghost use Rattle.book_core.specs.Growing.{stored_child, stored_children, with_kids};
ghost use Rattle.book_core.specs.Hands.{bounds_at, bounds_in, held_at};
ghost use Rattle.book_core.specs.Keeps.{IsSound};
ghost use Rattle.book_core.specs.Replies.{Does};

use crate::book::Book;
use crate::hand::{Hand, bounds_in};
use crate::hands::fill_hand;
use crate::reply::{Refusal, Reply};
use crate::stored_slot::StoredSlot;
use crate::waiting::Waiting;
use book_rules::{Entry, SlotState};
use closing_rules::Ground;
use lock_model::{CHILDREN, WORKERS, WORKERS_AND_DRIVER};
use no_memory::NoMemory;

// The slot of a child: closed where its bound is at least the best cost.
pub(crate) fn stored_child(parent: u32, number: u8, bound: u64, cost: u64) -> StoredSlot
    ensures { result ≡ stored_child cost parent number bound }
{
    let state = if cost <= bound {
        SlotState::Closed(Ground::Bound)
    } else {
        SlotState::Fresh
    };
    StoredSlot {
        bound,
        shown: None,
        state,
        parent,
        number,
    }
}

// Appends the slots of children with these bounds.
fn push_children(slots: &mut Vec<StoredSlot>, parent: u32, bounds: &[u64], cost: u64)
    requires room { vec_len slots.old + length bounds.now ≤ vec_capacity slots.old }
    requires few { length bounds.now ≤ CHILDREN }
    ensures { slots.new.items ≡ slots.old.items ++ stored_children cost parent 0 bounds.now }
{
    for (number, &bound) in bounds.iter().enumerate() {
        slots.push_reserved(stored_child(parent, number as u8, bound, cost));
    }
}

// Appends those of the children whose bounds are in a worker's hand.
fn push_held(
    slots: &mut Vec<StoredSlot>,
    parent: u32,
    hands: &[Option<Hand>; WORKERS_AND_DRIVER],
    worker: u8,
    cost: u64,
)
    requires worker { worker ≤ WORKERS }
    requires room { vec_len slots.old + length (bounds_in (held_at hands.now worker)) ≤ vec_capacity slots.old }
    ensures { slots.new.items ≡ slots.old.items ++ stored_children cost parent 0 (bounds_in (held_at hands.now worker)) }
{
    push_children(slots, parent, bounds_in(&hands[worker as usize]), cost);
}

// Room for so many slots, and for one more split.
fn make_space(
    slots: &mut Vec<StoredSlot>,
    count: usize,
    waiting: &mut Vec<Waiting>,
) -> Result<(), NoMemory>
    ensures slots { slots.new.items ≡ slots.old.items }
    ensures waiting { waiting.new.items ≡ waiting.old.items }
    ensures room { IfOk result (λ _. vec_len slots.new + count ≤ vec_capacity slots.new) }
    ensures one { IfOk result (λ _. vec_len waiting.new < vec_capacity waiting.new) }
{
    slots.try_reserve(count)?;
    waiting.try_reserve(1)?;
    Ok(())
}

impl Book {
    // The slot that this worker holds is split into its node's children; tells how many. Their
    // bounds are those in the hand, from which the slot goes then.
    fn grow(&mut self, id: u32, worker: u8) -> Result<u32, NoMemory>
        requires held { (slot_at self.old id).state ≡ slot.Held worker }
        requires lacks { (slot_at self.old id).node.depth < length self.old.case.instance.ships }
        requires sound { IsSound (with_kids self.old id) }
        ensures some { IfOk result (λ _. self.new ≡ with_kids self.old id) }
        ensures count { IfOk result (λ count. count ≡ length (bounds_at self.old id)) }
        ensures none { IfErr result (λ _. self.new ≡ self.old) }
    {
        let case = &self.case;
        fill_hand(&mut self.hands, worker, &case.instance, &self.roster);
        let count = bounds_in(&self.hands[worker as usize]).len();
        make_space(&mut self.slots, count, &mut self.waiting)?;
        let first = self.slots.len() as u32;
        self.slots[id as usize].state = SlotState::Split(first);
        push_held(&mut self.slots, id, &self.hands, worker, self.best_cost);
        self.hands[worker as usize] = None;
        self.waiting.push_reserved(Waiting {
            split: id,
            first,
            end: first + count as u32,
        });
        self.history.push_reserved(Entry::Split(id));
        Ok(count as u32)
    }

    // The worker who holds a slot; None exactly where no worker does.
    fn holder(&self, id: u32) -> Option<u8>
        ensures some { IfSome result (λ worker. (slot_at self.now id).state ≡ slot.Held worker) }
        ensures none { IfNone result (is_held (slot_at self.now id).state ≡ false) }
    {
        match self.state_of(id) {
            SlotState::Held(worker) => Some(worker),
            _ => None,
        }
    }

    // Whether the node of a held slot holds all ships.
    fn is_whole(&self, id: u32) -> bool
        requires { is_held (slot_at self.now id).state ≡ true }
        ensures { result ≡ nat_le (length self.now.case.instance.ships) (slot_at self.now id).node.depth }
    {
        let depth = self.held_node(id).depth();
        self.instance().ships.as_slice().len() <= depth as usize
    }

    /// Splits a held slot, whose node lacks a ship: its children are appended in order, those closed
    /// whose bound is at least the best cost. Refuses `NotHeld`, then `Whole`, and `NoMemory`, after
    /// which the book is as it was.
    pub fn split(&mut self, id: u32) -> Reply
        ensures { Does self.old (split id) result self.new }
    {
        self.keeps();
        let worker = match self.holder(id) {
            Some(worker) => worker,
            None => return Reply::Refused(Refusal::NotHeld(id)),
        };
        if self.is_whole(id) {
            return Reply::Refused(Refusal::Whole(id));
        }
        match self.grow(id, worker) {
            Ok(count) => Reply::Made(count),
            Err(NoMemory) => Reply::Refused(Refusal::NoMemory),
        }
    }
}
