//! Cuts that are known before a placer is asked.
ghost use Rattle.std.specs.Prelude.{ℕ, ◌<◌, List, length, All, IfSome};
ghost use Rattle.lock_model.specs.declared.instance.Instance.{Instance as AnyInstance};
ghost use Rattle.node_work.specs.Known.{HitsShips};
ghost use Rattle.std.specs.Prelude.{◌≡◌};

use book_core::Book;
use deck_cuts::cut_hits;
use lock_model::{Instance, Ships};

/// Cuts under their numbers, in which a search looks before it asks a placer.
pub trait KnownCuts {
    /// What the number of a cut that was found tells of a chamber and ships of the instance.
    ghost tells: { Self → AnyInstance → ℕ → List ℕ → ℕ → Type 0 };

    /// The number of a known cut that hits this chamber with these ships.
    fn find(&self, instance: &Instance, chamber: u8, ships: &Ships) -> Option<u64>
        requires chamber_in { chamber < length instance.now.chambers }
        requires ships_in { All (λ s. s < length instance.now.ships) ships.now }
        ensures { IfSome result (tells self.now instance.now chamber ships.now) };
}

impl KnownCuts for Book {
    ghost tells = { HitsShips };

    fn find(&self, instance: &Instance, chamber: u8, ships: &Ships) -> Option<u64> {
        for number in 0..u64::MAX {
            match self.cut(number) {
                Some(cut) if cut_hits(cut, instance, chamber, ships) => return Some(number),
                Some(_) => {}
                None => return None,
            }
        }
        None
    }
}
