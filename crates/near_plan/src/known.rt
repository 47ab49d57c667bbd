//! What is of the instance.
ghost use Rattle.std.specs.Prelude.{◌<◌, length, All};
ghost use Rattle.std.specs.Bool.{OnTrue};
ghost use Rattle.near_plan.specs.Groups.{IsGroupOf};

use lock_model::{Group, Instance, Ships};
use mooring_rules::has_ships;

/// Whether a chamber and ships are of the instance, and there is a ship.
pub(crate) fn are_known(instance: &Instance, chamber: u8, ships: &Ships) -> bool
    ensures { OnTrue result (IsGroupOf instance.now chamber ships.now) }
{
    (chamber as usize) < instance.chambers.as_slice().len()
        && ships.len() > 0
        && has_ships(instance, ships.as_slice())
}

/// Whether all groups are of the instance, and none is without ships.
pub(crate) fn are_all_known(instance: &Instance, chamber: u8, groups: &[Group]) -> bool
    ensures { OnTrue result (All (λ g. All (λ s. s < length instance.now.ships) g.ships) groups.now) }
{
    for group in groups {
        if !are_known(instance, chamber, &group.ships) {
            return false;
        }
    }
    true
}
