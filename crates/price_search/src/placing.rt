//! Groups that prices propose, placed.
ghost use Rattle.std.specs.Prelude.{◌≡◌, ◌<◌, length, All};

use crate::appending::append;
use crate::round::Asked;
use deck_cuts::{Cut, cut_hits};
use lock_model::{Instance, Ships, Spots};
use near_plan::Fitting;
use no_memory::NoMemory;
use node_work::{FirstPlacer, KnownCuts, Search, Settled, settle_known};
use placed_groups::Memory;
use std::alloc::Global;

/// The placers, as prices ask them. What was found before is remembered, and cuts are looked at first;
/// new cuts are kept.
#[derive(Drop)]
pub struct Placer<'p, 'm, K: KnownCuts> {
    pub(crate) alloc: Global,
    pub search: &'p Search<'p>,
    pub(crate) known: &'p K,
    pub(crate) memory: &'m mut Memory,
    pub found: Vec<Cut>,
}

// Whether one of these cuts hits the ships in this chamber.
fn is_hit(cuts: &[Cut], instance: &Instance, chamber: u8, ships: &Ships) -> bool
    requires chamber_in { chamber < length instance.now.chambers }
    requires ships_in { All (λ s. s < length instance.now.ships) ships.now }
{
    for cut in cuts {
        if cut_hits(cut, instance, chamber, ships) {
            return true;
        }
    }
    false
}

impl<'p, 'm, K: KnownCuts> Placer<'p, 'm, K> {
    /// A placer that has found no cut yet.
    pub fn new(alloc: Global, asked: &Asked<'p, K>, memory: &'m mut Memory) -> Placer<'p, 'm, K>
        ensures { result.search.now ≡ asked.now.search.now }
    {
        Placer {
            alloc,
            search: asked.search,
            known: asked.known,
            memory,
            found: Vec::new(alloc),
        }
    }

    // Whether a cut hits the ships in this chamber, of which nothing is remembered.
    fn is_cut(&self, chamber: u8, ships: &Ships) -> bool
        requires chamber_in { chamber < length self.now.search.now.instance.now.chambers }
        requires ships_in { All (λ s. s < length self.now.search.now.instance.now.ships) ships.now }
    {
        let instance = self.search.instance;
        self.memory.find(chamber, ships).is_none()
            && (self.known.find(instance, chamber, ships).is_some()
                || is_hit(self.found.as_slice(), instance, chamber, ships))
    }
}

impl<K: KnownCuts> Fitting for Placer<'_, '_, K> {
    ghost instance = { λ placer. placer.search.now.instance.now };

    // The placers may give up too.
    fn spots(&mut self, chamber: u8, ships: &Ships) -> Result<Option<Spots>, NoMemory> {
        if self.is_cut(chamber, ships) {
            return Ok(None);
        }
        let first = FirstPlacer::Berths;
        match settle_known(self.alloc, self.search, first, chamber, ships, self.memory)? {
            Settled::Fits(spots) => Ok(Some(spots)),
            Settled::Spent(_, _) => Ok(None),
            Settled::Refuted(cut) => {
                append(&mut self.found, cut)?;
                Ok(None)
            }
        }
    }
}
