//! Cuts as the bound sees them.
ghost use Rattle.std.specs.Prelude.{◌≡◌};
ghost use Rattle.std.specs.Cmp.Lexicographic.{pointwise};
ghost use Rattle.price_terms.specs.Cuts.{same_cut};

use lock_model::Ships;

/// Ships that don't fit a chamber together. What a cut hits depends on these alone, whatever refutes
/// it and whoever keeps it: the chamber itself, and those that are no roomier.
#[derive(PartialEq, Eq, Drop)]
pub struct ChamberCut {
    pub chamber: u8,
    pub ships: Ships,
}

impl ChamberCut {
    /// The same cut.
    pub fn copy(&self) -> ChamberCut
        ensures { result ≡ self.now }
    {
        ChamberCut {
            chamber: self.chamber,
            ships: self.ships.copy(),
        }
    }
}

// Whether two cuts are the same.
fn same_cut(one: &ChamberCut, other: &ChamberCut) -> bool
    ensures { result ≡ same_cut one.now other.now }
{
    one.chamber == other.chamber && one.ships == other.ships
}

#[tactic(auto, using(crate::proofs::CutLemmas::as_many))]
/// Whether two lists of cuts are the same. Thousands may be compared under a lock, and mostly they are
/// the same: no cut is a reason to stop.
pub fn same_cuts(some: &[ChamberCut], others: &[ChamberCut]) -> bool
    ensures { result ≡ pointwise same_cut some.now others.now }
{
    if some.len() != others.len() {
        return false;
    }
    let mut same = true;
    for i in 0..some.len() {
        same &= same_cut(&some[i], &others[i]);
    }
    same
}
