//! Whether a lockage is made of what the instance has.
ghost use Rattle.std.specs.Prelude.{◌<◌, ◌↔◌, ℕ, length, All, IsTrue, IfNone, IfSome};
ghost use Rattle.std.specs.List.Sorted.{IsStrictlyIncreasing};
ghost use Rattle.lock_rules.specs.Lines.{lockage_at};
ghost use Rattle.mooring_rules.specs.PlanBreaks.{GoesThisWay, HasShape, AreShaped, IsFirstMisshapen};

use lock_model::{Instance, Lockage, Plan, Way};

/// Whether the instance has all these ships.
pub fn has_ships(instance: &Instance, ships: &[u8]) -> bool
    ensures { IsTrue result ↔ All (λ s. s < length instance.now.ships) ships.now }
{
    let count = instance.ships.as_slice().len();
    for &ship in ships {
        if ship as usize >= count {
            return false;
        }
    }
    true
}

/// Whether the instance has the ship, and it goes this way.
fn goes_this_way(instance: &Instance, way: Way, ship: u8) -> bool
    ensures { IsTrue result ↔ GoesThisWay instance.now way ship }
{
    let ships = instance.ships.as_slice();
    (ship as usize) < ships.len() && ships[ship as usize].way == way
}

/// Whether the instance has all these ships, and all go this way.
fn all_go_this_way(instance: &Instance, way: Way, ships: &[u8]) -> bool
    ensures { IsTrue result ↔ All (GoesThisWay instance.now way) ships.now }
{
    for &ship in ships {
        if !goes_this_way(instance, way, ship) {
            return false;
        }
    }
    true
}

/// Whether the lockage names a chamber of the instance, has one to `most` ships of the instance
/// and of its way, and a spot for each. Its ships rise by their type.
fn has_shape(instance: &Instance, lockage: &Lockage) -> bool
    ensures shape { IsTrue result ↔ HasShape instance.now lockage.now }
    ensures rising { IsStrictlyIncreasing lockage.now.ships }
{
    let chambers = instance.chambers.as_slice();
    let ships = lockage.ships.as_slice();
    (lockage.chamber as usize) < chambers.len()
        && !ships.is_empty()
        && ships.len() <= chambers[lockage.chamber as usize].most as usize
        && lockage.spots.as_slice().len() == ships.len()
        && all_go_this_way(instance, lockage.way, ships)
}

/// The first lockage that hasn't its shape.
pub(crate) fn first_misshapen(instance: &Instance, plan: &Plan) -> Option<u8>
    ensures none { IfNone result (AreShaped instance.now plan.now) }
    ensures rising { IfNone result ((p : ℕ) → p < length plan.now.lockages
        → IsStrictlyIncreasing (lockage_at plan.now p).ships) }
    ensures some { IfSome result (IsFirstMisshapen instance.now plan.now) }
{
    let lockages = plan.lockages.as_slice();
    for p in 0..lockages.len() as u8 {
        if !has_shape(instance, &lockages[p as usize]) {
            return Some(p);
        }
    }
    None
}
