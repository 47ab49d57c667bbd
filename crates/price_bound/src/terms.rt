//! What a least line depends on besides its chamber and the chamber's line.
ghost use Rattle.std.specs.Prelude.{◌≡◌, ◌↔◌, IfOk, OnOk, IsTrue};
ghost use Rattle.std.specs.Bool.{OnTrue};
ghost use Rattle.price_bound.specs.Keeping.{AreTerms, AreFirst, LeadTo};

use lock_model::Instance;
use price_groups::LineCase;
use price_terms::{ChamberCut, PriceError, Prices, append, same_cuts};
use std::alloc::Global;

/// An instance, a depth of its nodes, prices and cuts.
#[derive(Drop)]
pub(crate) struct Terms {
    pub(crate) instance: Instance,
    pub(crate) depth: u8,
    pub(crate) prices: Prices,
    pub(crate) cuts: Vec<ChamberCut>,
}

// The same cuts.
fn copied(alloc: Global, cuts: &[ChamberCut]) -> Result<Vec<ChamberCut>, PriceError>
    ensures { IfOk result (λ copies. copies.items ≡ cuts.now) }
{
    let mut copies = Vec::new(alloc);
    for cut in cuts {
        append(&mut copies, cut.copy())?;
    }
    Ok(copies)
}

impl Terms {
    // Those of a case.
    pub(crate) fn new(alloc: Global, case: &LineCase) -> Result<Terms, PriceError>
        ensures { IfOk result (AreTerms case.now.instance.now case.now.depth case.now.prices.now case.now.cuts.now) }
    {
        Ok(Terms {
            instance: case.instance.copy(),
            depth: case.depth,
            prices: case.prices.copy(),
            cuts: copied(alloc, case.cuts)?,
        })
    }

    // Whether their prices are these.
    fn have_prices(&self, prices: &Prices) -> bool
        ensures { IsTrue result ↔ self.now.prices ≡ prices.now }
    {
        self.prices == *prices
    }

    #[tactic(auto, using(price_terms::proofs::CutLemmas::same_row))]
    // Whether their cuts are these.
    fn have_cuts(&self, cuts: &[ChamberCut]) -> bool
        ensures { IsTrue result ↔ self.now.cuts.items ≡ cuts.now }
    {
        same_cuts(&self.cuts, cuts)
    }

    // Whether they are those of a case. What differs most often is compared first.
    pub(crate) fn are_of(&self, case: &LineCase) -> bool
        ensures { OnTrue result (AreTerms case.now.instance.now case.now.depth case.now.prices.now case.now.cuts.now self.now) }
    {
        self.depth == case.depth
            && self.have_prices(case.prices)
            && self.have_cuts(case.cuts)
            && self.instance.equals(case.instance)
    }

    #[tactic(auto, using(price_terms::proofs::CutLemmas::same_row))]
    // Whether the cuts are the first of these.
    fn are_first(&self, cuts: &[ChamberCut]) -> bool
        ensures { OnTrue result (AreFirst self.now.cuts.items cuts.now) }
    {
        self.cuts.len() <= cuts.len() && same_cuts(&self.cuts, &cuts[..self.cuts.len()])
    }

    // Whether only prices differ from those of a case, or cuts came behind the others.
    pub(crate) fn lead_to(&self, case: &LineCase) -> bool
        ensures { OnTrue result (LeadTo case.now.instance.now case.now.depth case.now.cuts.now self.now) }
    {
        self.depth == case.depth && self.are_first(case.cuts) && self.instance.equals(case.instance)
    }

    // Takes the prices of a case, and the cuts that came behind the others.
    pub(crate) fn go_on(&mut self, case: &LineCase) -> Result<(), PriceError>
        requires { LeadTo case.now.instance.now case.now.depth case.now.cuts.now self.old }
        ensures leads { LeadTo case.now.instance.now case.now.depth case.now.cuts.now self.new }
        ensures more { AreFirst self.old.cuts.items self.new.cuts.items }
        ensures are { OnOk result (AreTerms case.now.instance.now case.now.depth case.now.prices.now case.now.cuts.now self.new) }
    {
        self.prices = case.prices.copy();
        for place in self.cuts.len()..case.cuts.len() {
            match self.cuts.push(case.cuts[place].copy()) {
                Ok(()) => {}
                Err(_) => return Err(PriceError::NoMemory),
            }
        }
        Ok(())
    }
}
