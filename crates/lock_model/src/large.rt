//! Instances of more ships than texts of the first two formats may have.
ghost use Rattle.std.specs.Prelude.{◌≡◌, ◌≤◌};
ghost use Rattle.lock_model.specs.Fleet.{is_large, most_lockages};

use crate::instance::Instance;
use crate::limits::{FEW_SHIPS, SHIPS};

impl Instance {
    /// Whether it has more ships than a text of the first two formats may have.
    #[tactic(auto, unfolding(crate::specs::Fleet::is_large))]
    pub fn is_large(&self) -> bool
        ensures { result ≡ is_large self.now.ships }
    {
        FEW_SHIPS < self.ships.as_slice().len()
    }

    /// The lockages of a plan of it that is written down, at most: one for each ship where it is
    /// large, and else `FEW_SHIPS`, however few ships it has.
    #[tactic(auto, unfolding(crate::specs::Fleet::most_lockages, crate::specs::Fleet::is_large))]
    pub fn most_lockages(&self) -> usize
        ensures value { result ≡ most_lockages self.now.ships }
        ensures fits { result ≤ SHIPS }
    {
        if self.is_large() {
            self.ships.as_slice().len()
        } else {
            FEW_SHIPS
        }
    }
}
