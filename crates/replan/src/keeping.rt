//! The lockages that start before a minute.
ghost use Rattle.std.specs.Prelude.{◌≡◌};
ghost use Rattle.replan.specs.Kept.{kept_of, kept_places};

use arrayvec::ArrayVec;
use lock_model::{Lockages, Plan, SHIPS};

/// The kept plan: the lockages that start before the minute, in the plan's order.
pub(crate) fn kept_of(plan: &Plan, from: u32) -> Plan
    ensures { result ≡ kept_of plan.now from }
{
    let mut lockages = Lockages::new();
    for lockage in plan.lockages.as_slice() {
        if lockage.start < from {
            lockages.push(lockage.copy());
        }
    }
    Plan { lockages }
}

/// The places of these lockages in the plan.
pub(crate) fn kept_places(plan: &Plan, from: u32) -> ArrayVec<u8, SHIPS>
    ensures { result.items ≡ kept_places plan.now from }
{
    let lockages = plan.lockages.as_slice();
    let mut places = ArrayVec::new();
    for p in 0..lockages.len() as u8 {
        if lockages[p as usize].start < from {
            places.push(p);
        }
    }
    places
}
