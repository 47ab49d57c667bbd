//! What is kept by minute.
ghost use Rattle.std.specs.Prelude.{ℕ, ◌≡◌, ◌≢◌, ◌≤◌, ◌<◌, length, OnOk, slice_index_or, Some, None};
ghost use Rattle.sweep_labels.specs.Rows.{IsKeptAt, IsLonger};

use price_terms::{PriceError, append};
use std::alloc::Global;

// From here on minutes are refused.
const MOST_MINUTES: u64 = 4_000_000;

/// What is kept for minutes.
#[derive(Drop)]
pub struct MinuteRow<T> {
    pub items: Vec<Option<T>>,
}

impl<T: Copy + Drop> MinuteRow<T> {
    /// Nothing for any minute.
    pub fn new(alloc: Global) -> MinuteRow<T>
        ensures { (minute : ℕ) → slice_index_or result.items.items minute None ≡ None }
    {
        MinuteRow {
            items: Vec::new(alloc),
        }
    }

    /// What is kept for a minute.
    #[inline(always)]
    pub fn find(&self, minute: u64) -> Option<T>
        ensures { result ≡ slice_index_or self.now.items.items minute None }
    {
        let place = minute as usize;
        if place < self.items.len() {
            self.items[place]
        } else {
            None
        }
    }

    // Makes room for what is kept up to a minute.
    fn reach(&mut self, minute: u64) -> Result<(), PriceError>
        ensures { OnOk result (IsLonger minute self.old.items.items self.new.items.items) }
    {
        if minute >= MOST_MINUTES {
            return Err(PriceError::TooMany);
        }
        for place in self.items.len()..minute as usize + 1 {
            append(&mut self.items, None)?;
        }
        Ok(())
    }

    /// Keeps an item for a minute. Minutes from 4,000,000 on are refused.
    pub fn keep(&mut self, minute: u64, item: T) -> Result<(), PriceError>
        ensures { OnOk result (IsKeptAt minute item self.old.items.items self.new.items.items) }
    {
        self.reach(minute)?;
        self.items[minute as usize] = Some(item);
        Ok(())
    }
}
