//! How often a plan serves a ship.
ghost use Rattle.std.specs.Prelude.{◌≡◌, ◌≤◌, length, IfNone, IfSome};
ghost use Rattle.lock_rules.specs.Plan.{times_in, served_in};
ghost use Rattle.mooring_rules.specs.PlanBreaks.{HasNoDouble, HasNoMissing, IsFirstDouble, IsFirstMissing};

use lock_model::{Instance, Plan};

/// How often a ship stands among these.
fn times_in(ships: &[u8], ship: u8) -> usize
    ensures value { result ≡ times_in ships.now ship }
    ensures bound { result ≤ length ships.now }
{
    let mut times = 0;
    for &other in ships {
        if other == ship {
            times += 1;
        }
    }
    times
}

/// How many lockages of the plan serve the ship.
pub fn served_in(plan: &Plan, ship: u8) -> usize
    ensures { result ≡ served_in plan.now.lockages ship }
{
    let mut served = 0;
    for lockage in plan.lockages.as_slice() {
        served += times_in(lockage.ships.as_slice(), ship);
    }
    served
}

/// The first ship that lies in more than one lockage.
pub(crate) fn first_double(instance: &Instance, plan: &Plan) -> Option<u8>
    ensures none { IfNone result (HasNoDouble instance.now plan.now) }
    ensures some { IfSome result (IsFirstDouble instance.now plan.now) }
{
    let count = instance.ships.as_slice().len() as u8;
    for ship in 0..count {
        if served_in(plan, ship) > 1 {
            return Some(ship);
        }
    }
    None
}

/// The first ship that lies in no lockage.
pub(crate) fn first_missing(instance: &Instance, plan: &Plan) -> Option<u8>
    ensures none { IfNone result (HasNoMissing instance.now plan.now) }
    ensures some { IfSome result (IsFirstMissing instance.now plan.now) }
{
    let count = instance.ships.as_slice().len() as u8;
    for ship in 0..count {
        if served_in(plan, ship) == 0 {
            return Some(ship);
        }
    }
    None
}
