//! The empty turns that have begun at a minute.
ghost use Rattle.std.specs.Prelude.{◌≡◌, ◌<◌, ◌≤◌, ℕ, length, Some, IfSome, IfNone};
ghost use Rattle.replan.specs.Begun.{next_place, needs_turn, turn_for, begun_turn, turned, chamber_begun};
ghost use Rattle.replan.specs.Kept.{kept_of, last_opening, CanBeKept};
ghost use Rattle.replan.specs.Lived.{IsOverInTime, IsTurnRefusal};

use crate::standing::chamber_after;
use chamber_times::{first_free, line_places};
use lock_model::{Chamber, Instance, Plan, Stand, Way};

/// The last minute at which a chamber may open.
const LAST_OPENING: u32 = 1_000_000;

/// The place of the chamber's first lockage, by start, that has not begun at the minute.
fn next_place(plan: &Plan, chamber: u8, minute: u32) -> Option<u8>
    ensures place { result ≡ next_place plan.now minute chamber }
    ensures known { IfSome result (λ p. p < length plan.now.lockages) }
{
    let places = line_places(plan, chamber);
    for &p in places.as_slice() {
        if plan.lockages.as_slice()[p as usize].start >= minute {
            return Some(p);
        }
    }
    None
}

/// A chamber that stands so has to turn for a lockage of this way.
fn needs_turn(stand: Stand, way: Way) -> bool
    ensures { result ≡ needs_turn stand way }
{
    match (stand, way) {
        (Stand::Low, Way::Up) | (Stand::High, Way::Down) => false,
        (Stand::Low, Way::Down) | (Stand::High, Way::Up) => true,
    }
}

/// The place of the lockage for which the chamber, as its begun lockages leave it, has begun a turn.
fn turn_for(plan: &Plan, left: &Chamber, chamber: u8, minute: u32) -> Option<u8>
    ensures { result ≡ turn_for plan.now minute left.now (next_place plan.now minute chamber) }
{
    let Some(place) = next_place(plan, chamber, minute) else {
        return None;
    };
    let way = plan.lockages.as_slice()[place as usize].way;
    let begins = first_free(&left.closures, left.turn as u64, left.opens as u64);
    if needs_turn(left.stands, way) && begins < minute as u64 {
        Some(place)
    } else {
        None
    }
}

/// The chamber as an empty turn leaves it that begins as early as may be.
fn turned(left: Chamber) -> Chamber
    requires opens_small { left.opens ≤ 1000000 }
    requires turn_small { left.turn ≤ 1000000 }
    ensures { result ≡ turned left }
{
    let begins = first_free(&left.closures, left.turn as u64, left.opens as u64);
    Chamber {
        stands: match left.stands {
            Stand::Low => Stand::High,
            Stand::High => Stand::Low,
        },
        opens: (begins + left.turn as u64) as u32,
        ..left
    }
}

/// The chamber as the last that has begun in it leaves it, lockage or turn. The kept lockages are
/// those of the plan that start before the minute.
pub(crate) fn chamber_begun(
    instance: &Instance,
    plan: &Plan,
    kept: &Plan,
    minute: u32,
    chamber: u8,
) -> Chamber
    requires chamber_in { chamber < length instance.now.chambers }
    requires kept { kept.now ≡ kept_of plan.now minute }
    requires can { CanBeKept instance.now kept.now }
    ensures { result ≡ chamber_begun instance.now plan.now minute chamber }
{
    let left = chamber_after(instance, kept, chamber);
    match turn_for(plan, &left, chamber, minute) {
        None => left,
        Some(_) => turned(left),
    }
}

/// The place of the lockage for which the chamber has begun a turn that ends too late.
fn late_turn(instance: &Instance, plan: &Plan, kept: &Plan, minute: u32, chamber: u8) -> Option<u8>
    requires chamber_in { chamber < length instance.now.chambers }
    requires kept { kept.now ≡ kept_of plan.now minute }
    requires can { CanBeKept instance.now kept.now }
    ensures none { IfNone result (IsOverInTime instance.now plan.now minute chamber) }
    ensures some { IfSome result (λ p. begun_turn instance.now plan.now minute chamber ≡ Some p) }
    ensures late { IfSome result (λ p. last_opening < (chamber_begun instance.now plan.now minute chamber).opens) }
{
    let left = chamber_after(instance, kept, chamber);
    let Some(place) = turn_for(plan, &left, chamber, minute) else {
        return None;
    };
    if turned(left).opens > LAST_OPENING {
        Some(place)
    } else {
        None
    }
}

/// The place of the lockage for which the first begun turn that ends too late has begun, chamber by
/// chamber.
pub(crate) fn first_late_turn(
    instance: &Instance,
    plan: &Plan,
    kept: &Plan,
    minute: u32,
) -> Option<u8>
    requires kept { kept.now ≡ kept_of plan.now minute }
    requires can { CanBeKept instance.now kept.now }
    ensures none { IfNone result ((c : ℕ) → c < length instance.now.chambers → IsOverInTime instance.now plan.now minute c) }
    ensures some { IfSome result (IsTurnRefusal instance.now plan.now minute) }
{
    let count = instance.chambers.as_slice().len() as u8;
    for chamber in 0..count {
        if let Some(place) = late_turn(instance, plan, kept, minute, chamber) {
            return Some(place);
        }
    }
    None
}
