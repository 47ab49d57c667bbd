//! Where the ships of each group of a node lie.
ghost use Rattle.std.specs.Prelude.{◌≡◌, ◌<◌, ◌≤◌, ◌&&◌, [], ◌∷◌, ◌++◌, length, nat_eq};
ghost use Rattle.node_work.specs.Moorings.{same_ships, spots_in};

use arrayvec::ArrayVec;
use lock_model::{SHIPS, Ships, Spots};
use std::marker::Model;

/// The spots of ships that are served together by a chamber, one spot for each ship in the ships'
/// order.
#[derive(Default, Drop)]
pub struct Mooring {
    pub chamber: u8,
    pub ships: Ships,
    pub spots: Spots,
}

/// Up to `SHIPS` moorings.
#[derive(Drop)]
pub struct Moorings {
    items: ArrayVec<Mooring, SHIPS>,
}

impl Model for Moorings {
    ghost use Rattle.std.specs.Prelude.{List};
    ghost use Rattle.node_work.specs.declared.moorings.Mooring.{Mooring};

    ghost Value = { List Mooring };

    ghost view = { λ a. a.items.items };

    ghost inverse = { λ xs. record { items = record { items = xs } } };
}

impl Moorings {
    /// No moorings.
    pub fn new() -> Moorings
        ensures { result ≡ [] }
    {
        Moorings {
            items: ArrayVec::new(),
        }
    }

    /// The moorings in order.
    pub fn as_slice(&self) -> &[Mooring]
        ensures value { result.now ≡ self.now }
        ensures fits { length result.now ≤ SHIPS }
    {
        self.items.as_slice()
    }

    /// Appends a mooring.
    pub fn push(&mut self, mooring: Mooring)
        requires { length self.old < SHIPS }
        ensures { self.new ≡ self.old ++ mooring ∷ [] }
    {
        self.items.push(mooring);
    }

    #[tactic(auto, using(crate::proofs::MooringLemmas::spots_hit, crate::proofs::MooringLemmas::spots_miss))]
    /// The spots of the first mooring of this chamber and these ships; none where there is no such
    /// mooring.
    pub fn spots(&self, chamber: u8, ships: &Ships) -> Spots
        ensures { result ≡ spots_in self.now chamber ships.now }
    {
        for mooring in self.as_slice() {
            if is_of(mooring, chamber, ships) {
                return mooring.spots.copy();
            }
        }
        Spots::new()
    }
}

// Whether two lists of ships are the same.
#[tactic(auto, using(crate::proofs::MooringLemmas::same_length, crate::proofs::MooringLemmas::same_differ, crate::proofs::MooringLemmas::same_all))]
fn are_same(ships: &[u8], others: &[u8]) -> bool
    ensures { result ≡ same_ships ships.now others.now }
{
    if ships.len() != others.len() {
        return false;
    }
    for i in 0..ships.len() {
        if ships[i] != others[i] {
            return false;
        }
    }
    true
}

// Whether a mooring is of this chamber and these ships.
fn is_of(mooring: &Mooring, chamber: u8, ships: &Ships) -> bool
    ensures { result ≡ (nat_eq mooring.now.chamber chamber && same_ships mooring.now.ships ships.now) }
{
    mooring.chamber == chamber && are_same(mooring.ships.as_slice(), ships.as_slice())
}
