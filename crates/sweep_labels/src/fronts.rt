//! Labels of the same ships, found by these.

use crate::label::{Label, are_no_later};
use crate::ready_times::ReadyTimes;
use crate::ship_set::ShipSet;
use lock_model::CHAMBERS;
use price_terms::{PriceError, append};
use std::alloc::Global;

// How many places the table begins with.
const FIRST_PLACES: usize = 1024;

/// A label of a front's ships: its minutes and its flow time, and its number among all.
#[derive(Clone, Copy)]
struct Entry {
    ready: [ReadyTimes; CHAMBERS],
    flow: u32,
    number: u32,
}

/// The labels of the same ships none of which dominates another.
#[derive(Drop)]
struct Front {
    served: ShipSet,
    entries: Vec<Entry>,
}

/// Fronts, and a table of their places by a number that spreads ships. They help speed alone: whoever finds
/// a label looks at it where it is kept.
#[derive(Drop)]
pub(crate) struct Fronts {
    alloc: Global,
    items: Vec<Front>,
    places: Vec<Option<u32>>,
}

// So many free places.
fn free(alloc: Global, places: usize) -> Result<Vec<Option<u32>>, PriceError> {
    match vec![in alloc; None; places] {
        Ok(free) => Ok(free),
        Err(_) => Err(PriceError::NoMemory),
    }
}

// The item at a place, if any.
fn item_at(list: &[Option<u32>], place: usize) -> Option<u32> {
    if place < list.len() {
        list[place]
    } else {
        None
    }
}

// Puts an item at a place, if there is one.
fn put_at(list: &mut [Option<u32>], place: usize, item: Option<u32>) {
    if place < list.len() {
        list[place] = item;
    }
}

impl Entry {
    #[inline(always)]
    // Whether its label is no worse than one of the same ships.
    fn is_no_worse(&self, label: &Label) -> bool {
        self.flow <= label.flow && are_no_later(&self.ready, &label.ready)
    }

    #[inline(always)]
    // Whether it is no better.
    fn is_no_better(&self, label: &Label) -> bool {
        label.flow <= self.flow && are_no_later(&label.ready, &self.ready)
    }
}

impl Front {
    // The number of a label that is no worse.
    fn dominating(&self, label: &Label) -> Option<u32> {
        for entry in &self.entries {
            if entry.is_no_worse(label) {
                return Some(entry.number);
            }
        }
        None
    }

    // The place of a label that is no better.
    fn outdone(&self, label: &Label) -> Option<usize> {
        for place in 0..self.entries.len() {
            if self.entries[place].is_no_better(label) {
                return Some(place);
            }
        }
        None
    }

    // Takes out a label that is no better; its number.
    fn take_dominated(&mut self, label: &Label) -> Option<u32> {
        match self.outdone(label) {
            None => None,
            Some(place) => {
                if place < self.entries.len() {
                    Some(self.entries.swap_remove(place).number)
                } else {
                    None
                }
            }
        }
    }
}

impl Fronts {
    // No labels.
    pub(crate) fn new(alloc: Global) -> Result<Fronts, PriceError> {
        Ok(Fronts {
            alloc,
            items: Vec::new(alloc),
            places: free(alloc, FIRST_PLACES)?,
        })
    }

    // Whether a front is of these ships.
    fn is_of(&self, number: u32, served: &ShipSet) -> bool {
        let front = number as usize;
        front < self.items.len() && self.items[front].served == *served
    }

    // Whether the place of the table is free, or of these ships.
    fn is_for(&self, place: usize, served: &ShipSet) -> bool {
        match item_at(&self.places, place) {
            None => true,
            Some(number) => self.is_of(number, served),
        }
    }

    // The place of these ships in the table, or a free one for them.
    fn place_of(&self, served: &ShipSet) -> usize {
        let places = self.places.len();
        let mut place = served.spread(places);
        for _ in 0..places {
            if self.is_for(place, served) {
                return place;
            }
            place = if place < places - 1 { place + 1 } else { 0 };
        }
        place
    }

    // Puts a front to where its ships are looked for.
    fn enter(&mut self, number: usize) {
        if number < self.items.len() {
            let place = self.place_of(&self.items[number].served);
            put_at(&mut self.places, place, u32::try_from(number).ok());
        }
    }

    // Makes the table twice as long, once half of it is taken.
    fn make_room(&mut self) -> Result<(), PriceError> {
        if self.items.len() < self.places.len() / 2 {
            return Ok(());
        }
        self.places = free(self.alloc, self.places.len().saturating_mul(2))?;
        for number in 0..self.items.len() {
            self.enter(number);
        }
        Ok(())
    }

    // Begins the front of ships; its number.
    fn begin(&mut self, served: ShipSet) -> Result<usize, PriceError> {
        let number = self.items.len();
        let entries = Vec::new(self.alloc);
        append(&mut self.items, Front { served, entries })?;
        self.enter(number);
        Ok(number)
    }

    // The number of the front of ships.
    pub(crate) fn find(&mut self, served: &ShipSet) -> Result<usize, PriceError> {
        self.make_room()?;
        match item_at(&self.places, self.place_of(served)) {
            Some(number) => Ok(number as usize),
            None => self.begin(*served),
        }
    }

    // The number of a label of a front that is no worse.
    pub(crate) fn dominating(&self, front: usize, label: &Label) -> Option<u32> {
        if front < self.items.len() {
            self.items[front].dominating(label)
        } else {
            None
        }
    }

    // Takes a label that is no better out of a front; its number.
    pub(crate) fn take_dominated(&mut self, front: usize, label: &Label) -> Option<u32> {
        if front < self.items.len() {
            let own = &mut self.items[front];
            own.take_dominated(label)
        } else {
            None
        }
    }

    // Puts a label into a front.
    pub(crate) fn put(
        &mut self,
        front: usize,
        label: Label,
        number: u32,
    ) -> Result<(), PriceError> {
        if front < self.items.len() {
            let own = &mut self.items[front];
            let Label { ready, flow, .. } = label;
            return append(
                &mut own.entries,
                Entry {
                    ready,
                    flow,
                    number,
                },
            );
        }
        Ok(())
    }
}
