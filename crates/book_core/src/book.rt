//! The book: its fields, its opening and its readers.
ghost use Rattle.std.specs.Prelude.{◌≡◌, ◌+◌, ◌*◌, ◌<◌, ◌≤◌, false, length, slice_index_or, slice_get, IfSome, IfNone};
ghost use Rattle.lock_rules.specs.Plan.{IsLegal};
ghost use Rattle.flow_bounds.specs.Roster.{IsRosterOf};
ghost use Rattle.book_rules.specs.Book.{best_cost, slot_at};
ghost use Rattle.book_rules.specs.Cheap.{opening_cost};

use crate::back_list::BackList;
use crate::case::Case;
use crate::cuts::KeptCuts;
use crate::hand::Hand;
use crate::path::Path;
use crate::stored_slot::StoredSlot;
use crate::waiting::Waiting;
use book_rules::{Entry, SlotState};
use deck_cuts::Cut;
use flow_bounds::Roster;
use kept_prices::KeptPrices;
use lock_model::{CHILDREN, Plan, WORKERS, WORKERS_AND_DRIVER};
use std::marker::Model;

/// The case, the opening plan, the slots, the cuts, the prices, the plans that replaced the opening
/// one, the best plan, the number of nodes used, which of nine workers ended, the history of accepted
/// events, and how many costs were shown.
/// It keeps all that `specs/Keeps` names. Slots are numbered from 0, the root; they store no nodes,
/// and take 64 bytes each. Of each cut the chamber and the ships lie in a row of their own too.
#[derive(Drop)]
pub struct Book {
    pub(crate) case: Case,
    pub(crate) opening: Plan,
    pub(crate) opening_cost: u64,
    pub(crate) throughput: u64,
    pub(crate) roster: Roster,
    pub(crate) slots: Vec<StoredSlot>,
    pub(crate) cuts: KeptCuts,
    pub(crate) prices: Vec<KeptPrices>,
    pub(crate) plans: Vec<Plan>,
    pub(crate) best: Plan,
    pub(crate) best_cost: u64,
    pub(crate) used: u32,
    pub(crate) ended: [bool; WORKERS_AND_DRIVER],
    pub(crate) history: Vec<Entry>,
    pub(crate) shown_lows: u32,
    pub(crate) hands: [Option<Hand>; WORKERS_AND_DRIVER],
    pub(crate) path: Path,
    pub(crate) back: BackList,
    pub(crate) waiting: Vec<Waiting>,
}

impl Model for Book {
    ghost use Rattle.book_rules.specs.Book.{Book as Told};

    ghost Value = { Told };

    ghost use Rattle.book_core.specs.Seen.{seen, IsKept};

    ghost view = { seen };

    ghost invariant = { IsKept };
}

impl Book {
    /// The case of the book.
    pub fn case(&self) -> &Case
        ensures { result.now ≡ self.now.case }
    {
        &self.case
    }

    /// The roster of the instance.
    pub fn roster(&self) -> &Roster
        ensures { IsRosterOf self.now.case.instance result.now }
    {
        &self.roster
    }

    /// The best plan.
    pub fn best(&self) -> &Plan
        ensures value { result.now ≡ self.now.best }
        ensures legal { IsLegal self.now.case.instance self.now.best }
    {
        &self.best
    }

    /// The cost of the best plan in minutes.
    pub fn best_cost(&self) -> u64
        ensures { result ≡ best_cost self.now }
    {
        self.best_cost
    }

    /// The cost of the opening plan in minutes.
    pub fn opening_cost(&self) -> u64
        ensures { result ≡ opening_cost self.now }
    {
        self.opening_cost
    }

    /// How many nodes were used.
    pub fn used(&self) -> u32
        ensures { result ≡ self.now.used }
    {
        self.used
    }

    /// How many events were accepted.
    pub fn history_len(&self) -> u64
        ensures { result ≡ length self.now.history }
    {
        self.history.len() as u64
    }

    /// How many slots there are: at most the root and `CHILDREN` for each node of the budget.
    pub fn slots(&self) -> u32
        ensures value { result ≡ length self.now.slots }
        ensures small { result ≤ 1 + CHILDREN * 1000000 }
    {
        self.slots.len() as u32
    }

    /// The state of a slot; None exactly where there is no such slot.
    pub fn slot_state(&self, id: u32) -> Option<SlotState>
        ensures some { IfSome result (λ state. (id < length self.now.slots) × ((slot_at self.now id).state ≡ state)) }
        ensures none { IfNone result (length self.now.slots ≤ id) }
    {
        if (id as usize) < self.slots.len() {
            Some(self.slots[id as usize].state)
        } else {
            None
        }
    }

    /// The slot whose child a slot is; 0 of the root. None exactly where there is no such slot.
    pub fn parent(&self, id: u32) -> Option<u32>
        ensures some { IfSome result (λ parent. (id < length self.now.slots) × ((slot_at self.now id).parent ≡ parent)) }
        ensures none { IfNone result (length self.now.slots ≤ id) }
    {
        if (id as usize) < self.slots.len() {
            Some(self.slots[id as usize].parent)
        } else {
            None
        }
    }

    /// The bound of a slot's node in minutes. None exactly where there is no such slot.
    pub fn bound(&self, id: u32) -> Option<u64>
        ensures some { IfSome result (λ bound. (id < length self.now.slots) × ((slot_at self.now id).bound ≡ bound)) }
        ensures none { IfNone result (length self.now.slots ≤ id) }
    {
        if (id as usize) < self.slots.len() {
            Some(self.slots[id as usize].bound)
        } else {
            None
        }
    }

    /// Whether the worker has released.
    pub fn ended(&self, worker: u8) -> bool
        ensures { result ≡ slice_index_or self.now.ended worker false }
    {
        worker as usize <= WORKERS && self.ended[worker as usize]
    }

    /// The cut of this number; None exactly where there is none.
    pub fn cut(&self, number: u64) -> Option<&Cut>
        ensures some { IfSome result (λ cut. slice_get self.now.cuts number ≡ Some cut.now) }
        ensures none { IfNone result (slice_get self.now.cuts number ≡ None) }
    {
        self.cuts.get(number)
    }

    /// The prices that were posted, in their order: lists of one price for each ship and of triples of
    /// these, in hundredths of a minute.
    pub fn prices(&self) -> &[KeptPrices]
        ensures { result.now ≡ self.now.prices }
    {
        self.prices.as_slice()
    }
}
