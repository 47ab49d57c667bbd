//! All labels of a sweep.
ghost use Rattle.std.specs.Prelude.{ℕ, ◌≡◌, ◌<◌, ◌↔◌, false, [], length, IsTrue, IfOk, IfSome, slice_index_or, slice_set};
ghost use Rattle.sweep_labels.specs.declared.label.KeptLabel.{KeptLabel};
ghost use Rattle.sweep_labels.specs.Putting.{open_at, Outdoes, IsDominatedIn, AreClosedBy, IsAdded, IsPut};

use crate::fronts::Fronts;
use crate::label::{KeptLabel, Label};
use price_terms::{PriceError, append};
use std::alloc::Global;

/// All labels that were made, which of them are open, and those of the same ships.
#[derive(Drop)]
pub struct Labels {
    pub items: Vec<KeptLabel>,
    pub are_open: Vec<bool>,
    fronts: Fronts,
}

// Whether the label of a number dominates one.
fn dominates_at(items: &[KeptLabel], number: usize, kept: &KeptLabel) -> bool
    ensures { IsTrue result → (number < length items.now) × Outdoes (slice_index_or items.now number kept.now) kept.now }
{
    number < items.len() && items[number].label.dominates(&kept.label)
}

// Whether one dominates the label of a number.
fn is_dominated_at(items: &[KeptLabel], number: usize, kept: &KeptLabel) -> bool
    ensures { IsTrue result → (number < length items.now) × Outdoes kept.now (slice_index_or items.now number kept.now) }
{
    number < items.len() && kept.label.dominates(&items[number].label)
}

// Closes the label of a number.
fn close_at(are_open: &mut [bool], number: usize)
    ensures { are_open.new ≡ slice_set are_open.old number false }
{
    if number < are_open.len() {
        are_open[number] = false;
    }
}

/// Whether no label is open.
pub fn are_closed(are_open: &[bool]) -> bool
    ensures { IsTrue result ↔ ((k : ℕ) → open_at are_open.now k ≡ false) }
{
    for &one in are_open {
        if one {
            return false;
        }
    }
    true
}

impl Labels {
    /// No labels.
    pub fn new(alloc: Global) -> Result<Labels, PriceError>
        ensures { IfOk result (λ labels. (labels.items.items ≡ []) × (labels.are_open.items ≡ [])) }
    {
        Ok(Labels {
            items: Vec::new(alloc),
            are_open: Vec::new(alloc),
            fronts: Fronts::new(alloc)?,
        })
    }

    /// Closes the label of a number.
    pub fn close(&mut self, number: usize)
        ensures items { self.new.items.items ≡ self.old.items.items }
        ensures closed { self.new.are_open.items ≡ slice_set self.old.are_open.items number false }
    {
        close_at(&mut self.are_open, number);
    }

    /// The label of a number, where it is open.
    pub fn open_label(&self, number: usize) -> Option<Label>
        ensures { IfSome result (λ l. (number < length self.now.items.items) × ((d : KeptLabel) → l ≡ (slice_index_or self.now.items.items number d).label)) }
    {
        if number < self.items.len() && number < self.are_open.len() && self.are_open[number] {
            Some(self.items[number].label)
        } else {
            None
        }
    }

    // Whether a label that is kept dominates this one, by its front.
    fn is_dominated(&self, front: usize, kept: &KeptLabel) -> bool
        ensures { IsTrue result → IsDominatedIn self.now.items.items kept.now }
    {
        match self.fronts.dominating(front, &kept.label) {
            None => false,
            Some(number) => dominates_at(&self.items, number as usize, kept),
        }
    }

    // Closes the label of a number where one dominates it.
    fn close_dominated(&mut self, number: usize, kept: &KeptLabel)
        ensures items { self.new.items.items ≡ self.old.items.items }
        ensures closed { AreClosedBy self.old.items.items kept.now self.old.are_open.items self.new.are_open.items }
    {
        if is_dominated_at(&self.items, number, kept) {
            self.close(number);
        }
    }

    // Closes the labels of a front that one dominates.
    fn thin(&mut self, front: usize, kept: &KeptLabel)
        ensures items { self.new.items.items ≡ self.old.items.items }
        ensures closed { AreClosedBy self.old.items.items kept.now self.old.are_open.items self.new.are_open.items }
    {
        for _ in 0..self.items.len() {
            let Some(number) = self.fronts.take_dominated(front, &kept.label) else {
                return;
            };
            self.close_dominated(number as usize, kept);
        }
    }

    // Appends an open label; its number.
    fn add(&mut self, front: usize, kept: KeptLabel) -> Result<u32, PriceError>
        requires { length self.old.are_open.items ≡ length self.old.items.items }
        ensures { IfOk result (λ n. (n ≡ length self.old.items.items) × IsAdded kept self.old.items.items self.old.are_open.items self.new.items.items self.new.are_open.items) }
    {
        let Ok(number) = u32::try_from(self.items.len()) else {
            return Err(PriceError::TooMany);
        };
        append(&mut self.items, kept)?;
        append(&mut self.are_open, true)?;
        self.fronts.put(front, kept.label, number)?;
        Ok(number)
    }

    // Appends a label that none of the others dominates, and closes those that it dominates; its number.
    fn put_new(&mut self, front: usize, kept: KeptLabel) -> Result<u32, PriceError>
        requires { length self.old.are_open.items ≡ length self.old.items.items }
        ensures { IfOk result (λ n. (n ≡ length self.old.items.items) × IsAdded kept self.old.items.items self.old.are_open.items self.new.items.items self.new.are_open.items) }
    {
        self.thin(front, &kept);
        self.add(front, kept)
    }

    /// Puts an open label to the others, unless one of them dominates it, and closes those that it
    /// dominates; its number. Refused are only want of memory and more labels than a number counts.
    pub fn put(&mut self, kept: KeptLabel) -> Result<Option<u32>, PriceError>
        requires { length self.old.are_open.items ≡ length self.old.items.items }
        ensures { IfOk result (IsPut kept self.old.items.items self.old.are_open.items self.new.items.items self.new.are_open.items) }
    {
        let front = self.fronts.find(&kept.label.served)?;
        if self.is_dominated(front, &kept) {
            return Ok(None);
        }
        Ok(Some(self.put_new(front, kept)?))
    }
}
