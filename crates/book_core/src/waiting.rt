//! The splits that may have a fresh child, and the fresh child that is taken next.
ghost use Rattle.std.specs.Prelude.{◌≡◌, ◌+◌, ◌≤◌, ◌<◌, length, IfSome, IfNone};
ghost use Rattle.book_rules.specs.Book.{slot_at, is_fresh};
ghost use Rattle.book_rules.specs.NextSlot.{next_fresh};
ghost use Rattle.book_core.specs.Next.{IsLeastUpTo, IsNext, HasNoneFresh};
ghost use Rattle.book_core.specs.Stored.{slots_of};
ghost use Rattle.book_core.specs.Tables.{AreWaiting};

use crate::book::Book;
use crate::stored_slot::StoredSlot;
use book_rules::SlotState;
use lock_model::Instance;

// A split and the slots of its children: from `first` up to `end`, which is left out.
#[derive(Clone, Copy)]
pub(crate) struct Waiting {
    pub(crate) split: u32,
    pub(crate) first: u32,
    pub(crate) end: u32,
}

// Of the fresh slots from `first` on, the one of the least bound before slot `id`, by the one
// before it.
fn better(slots: &[StoredSlot], first: u32, least: Option<u32>, id: u32) -> Option<u32>
    requires from { first ≤ id }
    requires known { id < length slots.now }
    requires least { IsLeastUpTo slots.now first id least }
    ensures { IsLeastUpTo slots.now first (id + 1) result }
{
    let _ = first;
    if slots[id as usize].state != SlotState::Fresh {
        return least;
    }
    match least {
        Some(other) if slots[other as usize].bound <= slots[id as usize].bound => Some(other),
        _ => Some(id),
    }
}

// Of the fresh slots from `first` up to `end`, the one of the least bound, the smallest on a tie.
fn least_fresh(slots: &[StoredSlot], first: u32, end: u32) -> Option<u32>
    requires { end ≤ length slots.now }
    ensures { IsLeastUpTo slots.now first end result }
{
    let mut least = None;
    for id in first..end {
        least = better(slots, first, least, id);
    }
    least
}

// The fresh child that is taken next. Splits that have none leave the list.
fn next_waiting(
    instance: &Instance,
    slots: &[StoredSlot],
    waiting: &mut Vec<Waiting>,
) -> Option<u32>
    requires { AreWaiting (slots_of instance.now slots.now) waiting.old.items }
    ensures kept { AreWaiting (slots_of instance.now slots.now) waiting.new.items }
    ensures some { IfSome result (IsNext (slots_of instance.now slots.now)) }
    ensures none { IfNone result (HasNoneFresh (slots_of instance.now slots.now)) }
{
    let _ = instance;
    while !waiting.is_empty() {
        let last = waiting[waiting.len() - 1];
        if let Some(id) = least_fresh(slots, last.first, last.end) {
            return Some(id);
        }
        waiting.truncate(waiting.len() - 1);
    }
    None
}

impl Book {
    // Whether the root is fresh.
    fn is_root_fresh(&self) -> bool
        ensures { result ≡ is_fresh (slot_at self.now 0).state }
    {
        match self.state_of(0) {
            SlotState::Fresh => true,
            _ => false,
        }
    }

    // The fresh slot that is taken next.
    pub(crate) fn next_fresh(&mut self) -> Option<u32>
        ensures same { self.new ≡ self.old }
        ensures value { result ≡ next_fresh self.old }
    {
        if self.is_root_fresh() {
            return Some(0);
        }
        let case = &self.case;
        next_waiting(&case.instance, &self.slots, &mut self.waiting)
    }
}
