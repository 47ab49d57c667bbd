//! What a book says of its best plan.
ghost use Rattle.std.specs.Prelude.{◌≡◌, ◌∷◌, ◌||◌, List, Some, position};
ghost use Rattle.std.specs.List.{list_any};
ghost use Rattle.lock_rules.specs.Bound.{least_number};
ghost use Rattle.flow_bounds.specs.Least.{least_told};
ghost use Rattle.book_rules.specs.Book.{slot_at, is_fresh, is_back, is_held, is_parked, is_live, first_slot, has_slot};
ghost use Rattle.book_rules.specs.Verdict.{low_of, verdict_of, parked_verdict};
ghost use Rattle.book_core.specs.declared.stored_slot.StoredSlot.{StoredSlot as Stored};
ghost use Rattle.book_core.specs.Summing.{live_lows};

use crate::book::Book;
use crate::stored_slot::StoredSlot;
use book_rules::SlotState;
use lock_model::Verdict;

// Whether a slot in this state is open or held.
fn is_open(state: SlotState) -> bool
    ensures { result ≡ (is_fresh state || is_back state || is_held state) }
{
    match state {
        SlotState::Fresh | SlotState::Back | SlotState::Held(_) => true,
        _ => false,
    }
}

// Whether a slot in this state is parked.
fn is_parked(state: SlotState) -> bool
    ensures { result ≡ is_parked state }
{
    match state {
        SlotState::Parked(_, _) => true,
        _ => false,
    }
}

// Whether a slot in this state is open, held or parked.
pub(crate) fn is_live(state: SlotState) -> bool
    ensures { result ≡ is_live state }
{
    is_open(state) || is_parked(state)
}

// Whether a slot is open or held.
fn has_open(slots: &[StoredSlot]) -> bool
    ensures { result ≡ list_any (λ s. is_fresh s.state || is_back s.state || is_held s.state) slots.now }
{
    slots.iter().any(|slot| is_open(slot.state))
}

// The parked slot of the smallest number.
fn first_parked(slots: &[StoredSlot]) -> Option<usize>
    ensures { result ≡ position (λ s. is_parked s.state) slots.now }
{
    slots.iter().position(|slot| is_parked(slot.state))
}

// What is told of the least that is known of the live slots, with one slot more before them.
fn less(slot: StoredSlot, told: Option<u64>) -> Option<u64>
    ensures { (slots : List Stored) → told ≡ least_told (live_lows slots) → result ≡ least_told (live_lows (slot ∷ slots)) }
{
    if !is_live(slot.state) {
        return told;
    }
    match told {
        Some(other) => Some(slot.low().min(other)),
        None => Some(slot.low()),
    }
}

// The least that is known of the open, held and parked slots; 0 where there is none.
fn low(slots: &[StoredSlot]) -> u64
    ensures { result ≡ least_number (live_lows slots.now) }
{
    let mut told = None;
    let mut id = slots.len();
    while id > 0 {
        id -= 1;
        told = less(slots[id], told);
    }
    told.unwrap_or(0)
}

impl Book {
    // The least that is known of the open, held and parked slots, and less than the best cost.
    fn low(&self) -> u64
        ensures { result ≡ low_of self.now }
    {
        low(&self.slots).min(self.best_cost().saturating_sub(1))
    }

    // Whether a slot is open or held.
    fn has_open(&self) -> bool
        ensures { result ≡ has_slot self.now (λ state. is_fresh state || is_back state || is_held state) }
    {
        has_open(&self.slots)
    }

    // The parked slot of the smallest number.
    fn first_parked(&self) -> Option<u32>
        ensures { result ≡ first_slot self.now is_parked }
    {
        match first_parked(&self.slots) {
            Some(id) => Some(id as u32),
            None => None,
        }
    }

    // The verdict where this slot is the first parked one, and none is open or held.
    fn parked_verdict(&self, id: u32) -> Verdict
        requires { first_slot self.now is_parked ≡ Some id }
        ensures { result ≡ parked_verdict self.now (slot_at self.now id).node (slot_at self.now id).state }
    {
        self.keeps();
        match self.state_of(id) {
            SlotState::Parked(chamber, place) => {
                let node = self.node_of(id);
                Verdict::OpenTurns {
                    chamber,
                    ships: node.line(chamber)[place as usize].ships.copy(),
                    turns: self.turns(),
                    low: self.low(),
                }
            }
            _ => Verdict::Optimal,
        }
    }

    /// `OpenNodes` exactly where a slot is open or held; else `OpenTurns` with the named group of the
    /// parked slot of the smallest number exactly where one is parked; else `Optimal`. `low`, in
    /// minutes, is the least over the open, held and parked slots of the greater of the slot's bound
    /// and what was shown of it, and at most the best cost less one: while such a slot is left, the
    /// best plan isn't proved cheapest. Takes no memory.
    pub fn verdict(&self) -> Verdict
        ensures { result ≡ verdict_of self.now }
    {
        if self.has_open() {
            return Verdict::OpenNodes {
                used: self.used(),
                low: self.low(),
            };
        }
        match self.first_parked() {
            Some(id) => self.parked_verdict(id),
            None => Verdict::Optimal,
        }
    }
}
