//! The cuts of a book.
ghost use Rattle.std.specs.Prelude.{◌≡◌, ◌++◌, ◌∷◌, [], length, map, slice_get, Some, None, IfSome, IfNone, OnOk, IfErr};
ghost use Rattle.book_rules.specs.Shown.{are_first_cuts};
ghost use Rattle.book_core.specs.Telling.{told_cut};

use deck_cuts::Cut;
use no_memory::NoMemory;
use price_terms::{ChamberCut, same_cuts};
use std::alloc::Global;
use std::marker::Model;

/// Cuts in the order in which they were kept. Beside them stand the chamber and the ships of each, a
/// tenth as long: costs that were shown are compared with these under the lock.
#[derive(Drop)]
pub(crate) struct KeptCuts {
    cuts: Vec<Cut>,
    chamber_cuts: Vec<ChamberCut>,
}

impl Model for KeptCuts {
    ghost use Rattle.std.specs.Prelude.{◌≡◌, List, map};
    ghost use Rattle.refute_rules.specs.Cuts.{Cut as Told};
    ghost use Rattle.book_core.specs.Telling.{bare_cut};

    ghost Value = { List Told };

    ghost view = { λ a. a.cuts.items };

    ghost invariant = { λ a. a.chamber_cuts.items ≡ map bare_cut a.cuts.items };
}

impl KeptCuts {
    // None yet.
    pub(crate) fn new(alloc: Global) -> KeptCuts
        ensures { result ≡ [] }
    {
        KeptCuts {
            cuts: Vec::new(alloc),
            chamber_cuts: Vec::new(alloc),
        }
    }

    // How many they are.
    pub(crate) fn len(&self) -> usize
        ensures { result ≡ length self.now }
    {
        self.cuts.len()
    }

    // The cut of this number; None exactly where there is none.
    pub(crate) fn get(&self, number: u64) -> Option<&Cut>
        ensures some { IfSome result (λ cut. slice_get self.now number ≡ Some cut.now) }
        ensures none { IfNone result (slice_get self.now number ≡ None) }
    {
        self.cuts.get(number as usize)
    }

    // Whether these are the first ones.
    pub(crate) fn are_first(&self, shown: &[ChamberCut]) -> bool
        ensures { result ≡ are_first_cuts (map told_cut shown.now) self.now }
    {
        let count = shown.len();
        count <= self.chamber_cuts.len() && same_cuts(shown, &self.chamber_cuts[..count])
    }

    // Appends a cut. After want of memory they are as they were, and the cut is dropped.
    pub(crate) fn push(&mut self, cut: Cut) -> Result<(), NoMemory>
        ensures some { OnOk result (self.new ≡ self.old ++ cut ∷ []) }
        ensures none { IfErr result (λ _. self.new ≡ self.old) }
    {
        self.cuts.try_reserve(1)?;
        self.chamber_cuts.try_reserve(1)?;
        self.chamber_cuts.push_reserved(ChamberCut {
            chamber: cut.chamber,
            ships: cut.ships.copy(),
        });
        self.cuts.push_reserved(cut);
        Ok(())
    }
}
