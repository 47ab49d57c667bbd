//! The rest of a day as it is lived.
ghost use Rattle.std.specs.Prelude.{◌≡◌, ◌≤◌, ◌↔◌, [], IfOk, IfErr, IfSome, IsOk, IsNone};
ghost use Rattle.replan.specs.Kept.{kept_of, CanBeKept};
ghost use Rattle.replan.specs.Lived.{opened_from, chambers_lived, IsLivedRest, IsLivedLeft, CanBeLived, IsLivedRefusal};
ghost use Rattle.replan.specs.Rest.{ships_left};

use crate::keeping::{kept_of, kept_places};
use crate::late::refusal;
use crate::left::{delays, ships_from, ships_left};
use crate::numbers::ShipNumbers;
use crate::refusal::ReplanError;
use crate::remainder::Residual;
use crate::turning::{chamber_begun, first_late_turn};
use chamber_times::cost;
use lock_model::{Chamber, Chambers, Instance, Plan};

/// The chamber, which opens at the minute or later.
fn opened_from(chamber: Chamber, minute: u32) -> Chamber
    ensures { result ≡ opened_from minute chamber }
{
    Chamber {
        opens: chamber.opens.max(minute),
        ..chamber
    }
}

/// All chambers as what has begun leaves them, none of which opens before the minute.
fn chambers_lived(instance: &Instance, plan: &Plan, kept: &Plan, minute: u32) -> Chambers
    requires kept { kept.now ≡ kept_of plan.now minute }
    requires can { CanBeKept instance.now kept.now }
    ensures { result ≡ chambers_lived instance.now plan.now minute }
{
    let count = instance.chambers.as_slice().len() as u8;
    let mut chambers = Chambers::new();
    for chamber in 0..count {
        let begun = chamber_begun(instance, plan, kept, minute, chamber);
        chambers.push(opened_from(begun, minute));
    }
    chambers
}

/// The rest as lived, where these ships are left.
fn lived_rest(
    instance: &Instance,
    plan: &Plan,
    kept: &Plan,
    minute: u32,
    numbers: &ShipNumbers,
) -> Option<Instance>
    requires can { CanBeLived instance.now plan.now minute }
    requires early { minute ≤ 1000000 }
    requires kept { kept.now ≡ kept_of plan.now minute }
    requires left { numbers.now ≡ ships_left instance.now kept.now }
    ensures rest { IfSome result (IsLivedRest instance.now plan.now minute) }
    ensures done { IsNone result ↔ (numbers.now ≡ []) }
{
    let chambers = chambers_lived(instance, plan, kept, minute);
    Instance::new(chambers, ships_from(instance, minute, numbers))
}

/// What is left after a plan at a minute, where what has begun can be gone on from.
fn left_as_lived(instance: &Instance, plan: &Plan, kept: Plan, minute: u32) -> Residual
    requires can { CanBeLived instance.now plan.now minute }
    requires early { minute ≤ 1000000 }
    requires kept { kept ≡ kept_of plan.now minute }
    ensures { IsLivedLeft instance.now plan.now minute result }
{
    let numbers = ships_left(instance, &kept);
    let rest = lived_rest(instance, plan, &kept, minute, &numbers);
    let added = cost(instance, &kept) + delays(instance, minute, &numbers);
    Residual {
        kept,
        rest,
        numbers,
        added,
    }
}

/// Keeps what has begun at the minute, and gives what is left of the instance: the rest of a day as
/// it is lived. The lockages of the plan that start before the minute have begun; in a chamber the
/// empty turn has begun that its next lockage in the plan needs, where the least lawful minute of the
/// turn is before the minute. No chamber of the rest opens before the minute.
///
/// Refuses as `residual` does. Where that doesn't, it refuses with `Late` exactly where a begun turn
/// ends after minute 1,000,000, for the first chamber of which one does; it names the lockage for
/// which the turn has begun. Takes no memory.
pub fn rest_as_lived(instance: &Instance, plan: &Plan, minute: u32) -> Result<Residual, ReplanError>
    requires { minute ≤ 1000000 }
    ensures can { IsOk result ↔ CanBeLived instance.now plan.now minute }
    ensures ok { IfOk result (IsLivedLeft instance.now plan.now minute) }
    ensures err { IfErr result (IsLivedRefusal instance.now plan.now minute) }
{
    let kept = kept_of(plan, minute);
    let places = kept_places(plan, minute);
    if let Some(error) = refusal(instance, &kept, places.as_slice()) {
        return Err(error);
    }
    if let Some(place) = first_late_turn(instance, plan, &kept, minute) {
        return Err(ReplanError::Late(place));
    }
    Ok(left_as_lived(instance, plan, kept, minute))
}
