//! What a book finds of its slots.
ghost use Rattle.std.specs.Prelude.{◌≡◌, ◌<◌, ◌≤◌, length};
ghost use Rattle.std.specs.Bool.{OnTrue};
ghost use Rattle.lock_rules.specs.Throughput.{throughput_of};
ghost use Rattle.book_rules.specs.Book.{slot_at, first_slot, has_slot, is_back, is_held, is_held_by};
ghost use Rattle.book_rules.specs.Step.{may_close};
ghost use Rattle.book_core.specs.Keeps.{IsSound};
ghost use Rattle.book_core.specs.Stored.{IsStoredAs};
ghost use Rattle.book_core.specs.Changes.{has_some};

use crate::book::Book;
use crate::hand::{Hand, id_of};
use crate::stored_slot::StoredSlot;
use book_rules::SlotState;
use closing_rules::Ground;
use lock_model::{Instance, WORKERS};

impl Book {
    // The state of a slot; closed by its bound where there is no such slot.
    pub(crate) fn state_of(&self, id: u32) -> SlotState
        ensures state { result ≡ (slot_at self.now id).state }
        ensures sound { IsSound self.now }
    {
        if (id as usize) < self.slots.len() {
            self.slots[id as usize].state
        } else {
            SlotState::Closed(Ground::Bound)
        }
    }

    // The instance of the book.
    pub(crate) fn instance(&self) -> &Instance
        ensures { result.now ≡ self.now.case.instance }
    {
        let case = &self.case;
        &case.instance
    }

    // The budget of nodes.
    pub(crate) fn nodes(&self) -> u32
        ensures { result ≡ self.now.case.nodes }
    {
        let case = &self.case;
        case.nodes
    }

    // The turns of the placers.
    pub(crate) fn turns(&self) -> u32
        ensures { result ≡ self.now.case.turns }
    {
        let case = &self.case;
        case.turns
    }

    // Whether a slot is held.
    pub(crate) fn is_held(&self, id: u32) -> bool
        ensures value { result ≡ is_held (slot_at self.now id).state }
        ensures known { OnTrue result (id < length self.now.slots) }
        ensures sound { IsSound self.now }
    {
        match self.state_of(id) {
            SlotState::Held(_) => true,
            _ => false,
        }
    }

    // The throughput of the instance.
    pub(crate) fn throughput(&self) -> u64
        ensures { result ≡ throughput_of self.now.case.instance }
    {
        self.throughput
    }

    // What is stored of a slot.
    pub(crate) fn stored(&self, id: u32) -> StoredSlot
        requires { id < length self.now.slots }
        ensures is { IsStoredAs result (slot_at self.now id) }
        ensures sound { IsSound self.now }
    {
        self.slots[id as usize]
    }

    // Whether a slot is held or parked.
    pub(crate) fn may_close(&self, id: u32) -> bool
        ensures value { result ≡ may_close self.now id }
        ensures known { OnTrue result (id < length self.now.slots) }
        ensures sound { IsSound self.now }
    {
        match self.state_of(id) {
            SlotState::Held(_) | SlotState::Parked(_, _) => true,
            _ => false,
        }
    }

    /// The slot that the worker holds; None exactly where it holds none.
    pub fn held_by(&self, worker: u8) -> Option<u32>
        ensures { result ≡ first_slot self.now (is_held_by worker) }
    {
        if worker as usize <= WORKERS {
            id_of(&self.hands[worker as usize])
        } else {
            None
        }
    }

    // The returned slot of the smallest number.
    pub(crate) fn first_back(&self) -> Option<u32>
        ensures { result ≡ first_slot self.now is_back }
    {
        let back = self.back.as_slice();
        if back.is_empty() { None } else { Some(back[0]) }
    }

    // Whether a slot is held.
    pub(crate) fn has_held(&self) -> bool
        ensures { result ≡ has_slot self.now is_held }
    {
        has_some(&self.hands)
    }
}

// Whether a hand holds a slot.
fn has_some(hands: &[Option<Hand>]) -> bool
    ensures { result ≡ has_some hands.now }
{
    let mut i = hands.len();
    let mut some = false;
    while i > 0 {
        i -= 1;
        some = hands[i].is_some() || some;
    }
    some
}
