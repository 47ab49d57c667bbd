//! Values that are remembered for states.
ghost use Rattle.std.specs.Prelude.{◌≡◌, ◌+◌, ◌<◌, ◌≤◌, length, IfSome, IfOk, OnOk};
ghost use Rattle.price_table.specs.Values.{IsRemembered, AreEmpty, Remembers, state_key};

use crate::state::State;
use lock_model::SHIPS_AND_ROOT;
use price_terms::PriceError;
use std::alloc::Global;
use std::collections::HashMap;

// How many states have a place in the row, at most: a row that is filled anew for each table stays in the
// near caches, and few states of a day are later.
const ROW_STATES: u64 = 24_000;

/// Values, in hundredths of a minute, by state, whose place is one of so many: those of the first
/// minutes in a row, which is asked most, and the others in a map.
#[derive(Drop)]
pub(crate) struct Values {
    pub(crate) places: u64,
    pub(crate) start: u64,
    pub(crate) row: Vec<Option<i64>>,
    pub(crate) others: HashMap<u64, i64>,
}

impl Values {
    // None yet, with room for the states of so many places from one minute up to another.
    pub(crate) fn new(alloc: Global, places: u64, from: u64, to: u64) -> Result<Values, PriceError>
        requires few { places ≤ SHIPS_AND_ROOT }
        requires from { from ≤ 14000000 }
        ensures { IfOk result (AreEmpty places) }
    {
        let minutes = to
            .saturating_sub(from)
            .min(ROW_STATES / (2 * places.max(1)));
        match vec![in alloc; None; (minutes * places * 2) as usize] {
            Ok(row) => Ok(Values {
                places,
                start: from * places * 2,
                row,
                others: HashMap::new(alloc),
            }),
            Err(_) => Err(PriceError::NoMemory),
        }
    }

    // The place in the row of the state that has the key, if it has one.
    #[inline(always)]
    fn place(&self, key: u64) -> Option<usize>
        ensures { IfSome result (λ place. (key ≡ self.now.start + place) × (place < length self.now.row.items)) }
    {
        if key < self.start {
            return None;
        }
        let place = key - self.start;
        if place < self.row.len() as u64 {
            Some(place as usize)
        } else {
            None
        }
    }

    // What is remembered for a state.
    #[inline(always)]
    pub(crate) fn find(&self, state: &State) -> Option<i64>
        requires few { self.now.places ≤ SHIPS_AND_ROOT }
        requires place { state.now.place < self.now.places }
        requires minute { state.now.minute ≤ 14000000 }
        ensures { IfSome result (IsRemembered self.now (state_key self.now.places state.now)) }
    {
        let key = state.key(self.places);
        match self.place(key) {
            Some(place) => self.row[place],
            None => self.others.get(&key).copied(),
        }
    }

    // What is remembered for a state in the row.
    #[inline(always)]
    pub(crate) fn in_row(&self, state: &State) -> Option<i64>
        requires few { self.now.places ≤ SHIPS_AND_ROOT }
        requires place { state.now.place < self.now.places }
        requires minute { state.now.minute ≤ 14000000 }
        ensures { IfSome result (IsRemembered self.now (state_key self.now.places state.now)) }
    {
        let place = self.place(state.key(self.places))?;
        self.row[place]
    }

    // Remembers a value for a state.
    pub(crate) fn keep(&mut self, state: &State, value: i64) -> Result<(), PriceError>
        requires few { self.old.places ≤ SHIPS_AND_ROOT }
        requires place { state.now.place < self.old.places }
        requires minute { state.now.minute ≤ 14000000 }
        ensures { OnOk result (Remembers self.old self.new (state_key self.old.places state.now) value) }
    {
        let key = state.key(self.places);
        match self.place(key) {
            Some(place) => {
                self.row[place] = Some(value);
                Ok(())
            }
            None => match self.others.insert(key, value) {
                Ok(_) => Ok(()),
                Err(_) => Err(PriceError::NoMemory),
            },
        }
    }
}
