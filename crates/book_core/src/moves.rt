//! What events change of a book.
ghost use Rattle.std.specs.Prelude.{◌≡◌, ◌≤◌, true, false, slice_index_or, Some, None};
ghost use Rattle.book_rules.specs.Book.{first_slot, is_held_by};
ghost use Rattle.book_rules.specs.History.{is_show_low};
ghost use Rattle.book_rules.specs.Step.{may_close, noted, with_state};
ghost use Rattle.book_core.specs.Changes.{IsSettled, IsNextFree, handed, returned, finished};
ghost use Rattle.book_core.specs.Keeps.{IsSound};

use crate::book::Book;
use crate::hand::Hand;
use crate::hands::{leave_back, let_go};
use book_rules::{Entry, SlotState};
use lock_model::WORKERS;

impl Book {
    // A held or parked slot is parked or closed; the entry isn't of a cost that was shown.
    pub(crate) fn settle(&mut self, id: u32, state: SlotState, entry: Entry)
        requires from { may_close self.old id ≡ true }
        requires to { IsSettled state }
        requires other { is_show_low entry ≡ false }
        requires sound { IsSound (noted (with_state self.old id state) entry) }
        ensures { self.new ≡ noted (with_state self.old id state) entry }
    {
        let_go(&mut self.hands, self.slots[id as usize].state);
        self.slots[id as usize].state = state;
        self.history.push_reserved(entry);
    }

    // An open slot goes to a worker who holds none, with its node.
    pub(crate) fn give(&mut self, id: u32, worker: u8, used: u32)
        requires known { worker ≤ WORKERS }
        requires empty { first_slot self.old (is_held_by worker) ≡ None }
        requires open { IsNextFree self.old id }
        requires sound { IsSound (handed self.old id worker used) }
        ensures { self.new ≡ handed self.old id worker used }
    {
        leave_back(&mut self.back, self.slots[id as usize].state);
        let case = &self.case;
        self.path
            .lead_to(&case.instance, &self.roster, self.slots.as_slice(), id);
        self.hands[worker as usize] = Some(Hand {
            id,
            node: self.path.last().copy(),
            bounds: None,
        });
        self.slots[id as usize].state = SlotState::Held(worker);
        self.used = used;
        self.history.push_reserved(Entry::Take(worker));
    }

    // A worker gives back the slot that it holds, and ends.
    pub(crate) fn put_back(&mut self, id: u32, worker: u8)
        requires known { worker ≤ WORKERS }
        requires running { slice_index_or self.old.ended worker false ≡ false }
        requires held { first_slot self.old (is_held_by worker) ≡ Some id }
        requires sound { IsSound (returned self.old id worker) }
        ensures { self.new ≡ returned self.old id worker }
    {
        self.hands[worker as usize] = None;
        self.slots[id as usize].state = SlotState::Back;
        self.back.insert(id);
        self.ended[worker as usize] = true;
        self.history.push_reserved(Entry::Release(worker));
    }

    // A worker who holds no slot ends.
    pub(crate) fn end(&mut self, worker: u8)
        requires known { worker ≤ WORKERS }
        requires running { slice_index_or self.old.ended worker false ≡ false }
        requires sound { IsSound (finished self.old worker) }
        ensures { self.new ≡ finished self.old worker }
    {
        self.ended[worker as usize] = true;
        self.history.push_reserved(Entry::Release(worker));
    }
}
