//! What the types of a plan keep.
ghost use Rattle.std.specs.Prelude.{◌≡◌};
ghost use Rattle.day_play.specs.Rising.{AreRising};

use lock_model::Plan;

/// Reads the ships of each lockage, which rise by their type. It does nothing else: the callers'
/// proofs take the fact from here.
pub(crate) fn learn_rising(plan: &Plan)
    ensures { AreRising plan.now }
{
    for lockage in plan.lockages.as_slice() {
        let _ships = lockage.ships.as_slice();
    }
}
