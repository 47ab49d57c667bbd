//! What is left of an instance once a part of a plan is kept.
ghost use Rattle.std.specs.Prelude.{◌≡◌, ◌≤◌, ◌↔◌, [], IfOk, IfErr, IsOk, IfSome, IsNone};
ghost use Rattle.replan.specs.Kept.{kept_of, kept_places, CanBeKept};
ghost use Rattle.replan.specs.PartBreaks.{IsPartRefusal};
ghost use Rattle.replan.specs.Rest.{ships_left, IsRest, IsLeft};

use crate::keeping::{kept_of, kept_places};
use crate::late::refusal;
use crate::left::{delays, ships_from, ships_left};
use crate::numbers::ShipNumbers;
use crate::refusal::ReplanError;
use crate::remainder::Residual;
use crate::standing::chambers_after;
use chamber_times::cost;
use lock_model::{Instance, Plan};

/// The rest after the kept plan and the minute, where these ships are left.
fn rest_of(instance: &Instance, kept: &Plan, from: u32, numbers: &ShipNumbers) -> Option<Instance>
    requires can { CanBeKept instance.now kept.now }
    requires early { from ≤ 1000000 }
    requires left { numbers.now ≡ ships_left instance.now kept.now }
    ensures rest { IfSome result (IsRest instance.now kept.now from) }
    ensures done { IsNone result ↔ (numbers.now ≡ []) }
{
    let chambers = chambers_after(instance, kept);
    Instance::new(chambers, ships_from(instance, from, numbers))
}

/// What is left after a plan that can be kept.
fn left_after(instance: &Instance, kept: Plan, from: u32) -> Residual
    requires can { CanBeKept instance.now kept }
    requires early { from ≤ 1000000 }
    ensures { IsLeft instance.now kept from result }
{
    let numbers = ships_left(instance, &kept);
    let rest = rest_of(instance, &kept, from, &numbers);
    let added = cost(instance, &kept) + delays(instance, from, &numbers);
    Residual {
        kept,
        rest,
        numbers,
        added,
    }
}

/// Keeps the lockages of the plan that start before the minute, and gives what is left of the
/// instance.
///
/// Refuses with `Kept` exactly where the kept lockages have a break; it is their first, in the
/// order `Shape`, `Double`, `Deck`, `Clash`, `Time`. Refuses with `Late` exactly where they have
/// none and one of them ends after minute 1,000,000; it is the first that does. Lockages are told
/// by their places in the given plan. Takes no memory.
pub fn residual(instance: &Instance, plan: &Plan, from: u32) -> Result<Residual, ReplanError>
    requires { from ≤ 1000000 }
    ensures can { IsOk result ↔ CanBeKept instance.now (kept_of plan.now from) }
    ensures ok { IfOk result (IsLeft instance.now (kept_of plan.now from) from) }
    ensures err { IfErr result
        (IsPartRefusal instance.now (kept_of plan.now from) (kept_places plan.now from)) }
{
    let kept = kept_of(plan, from);
    let places = kept_places(plan, from);
    if let Some(error) = refusal(instance, &kept, places.as_slice()) {
        return Err(error);
    }
    Ok(left_after(instance, kept, from))
}
