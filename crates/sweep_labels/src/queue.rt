//! Open labels in the order of their starts and chambers.

use crate::minute_row::MinuteRow;
use lock_model::CHAMBERS;
use price_terms::{PriceError, append};
use std::alloc::Global;

/// By start and chamber the number of a label, behind which the others of that start and chamber are linked;
/// the start in hand, and the last one. In which order labels go on is a matter of speed alone, so nothing
/// is said of it.
#[derive(Drop)]
pub struct Queue {
    firsts: MinuteRow<[Option<u32>; CHAMBERS]>,
    after: Vec<Option<u32>>,
    minute: u64,
    last: u64,
}

impl Queue {
    /// No label.
    pub fn new(alloc: Global) -> Queue {
        Queue {
            firsts: MinuteRow::new(alloc),
            after: Vec::new(alloc),
            minute: 0,
            last: 0,
        }
    }

    // Links a label before another one.
    fn link(&mut self, number: usize, next: Option<u32>) -> Result<(), PriceError> {
        for _ in self.after.len()..number.saturating_add(1) {
            append(&mut self.after, None)?;
        }
        if number < self.after.len() {
            self.after[number] = next;
        }
        Ok(())
    }

    // The label behind another one.
    fn behind(&self, number: u32) -> Option<u32> {
        let place = number as usize;
        if place < self.after.len() {
            self.after[place]
        } else {
            None
        }
    }

    /// Puts the label of a number, which a chamber came to by a lockage that starts at a minute.
    pub fn put(&mut self, number: u32, minute: u32, chamber: u8) -> Result<(), PriceError> {
        let mut firsts = self.firsts.find(minute as u64).unwrap_or([None; CHAMBERS]);
        let place = (chamber as usize).min(CHAMBERS - 1);
        self.link(number as usize, firsts[place])?;
        firsts[place] = Some(number);
        self.last = self.last.max(minute as u64);
        self.firsts.keep(minute as u64, firsts)
    }

    // Takes the first label of the minute in hand.
    fn take_here(&mut self) -> Result<Option<u32>, PriceError> {
        let Some(mut firsts) = self.firsts.find(self.minute) else {
            return Ok(None);
        };
        for chamber in 0..CHAMBERS {
            if let Some(number) = firsts[chamber] {
                firsts[chamber] = self.behind(number);
                self.firsts.keep(self.minute, firsts)?;
                return Ok(Some(number));
            }
        }
        Ok(None)
    }

    /// Takes the first label; None where there is none.
    pub fn take(&mut self) -> Result<Option<u32>, PriceError> {
        for minute in self.minute..self.last.saturating_add(1) {
            self.minute = minute;
            if let Some(number) = self.take_here()? {
                return Ok(Some(number));
            }
        }
        Ok(None)
    }
}
