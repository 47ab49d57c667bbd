//! The judge of the starts of a chamber's line.
ghost use Rattle.std.specs.Prelude.{◌≡◌, ◌^◌, ◌<◌, ◌≤◌, ◌↔◌, length, All, IsNone, IfSome};
ghost use Rattle.std.specs.Bool.{OnTrue, OnFalse};
ghost use Rattle.lock_rules.specs.Lawful.{IsLawfulStart};
ghost use Rattle.lock_rules.specs.Lines.{group_of};
ghost use Rattle.lock_rules.specs.Plan.{IsTimely};
ghost use Rattle.chamber_times.specs.FirstBreak.{IsEarly, IsNotEarly, Breaks, IsFirstBreak};

use crate::breaks::BrokenTime;
use crate::service::{duration, ready, stand_after};
use crate::spans::is_free;
use crate::walk::line_places;
use lock_model::{Instance, Lockage, Plan, Stand};

/// Whether a ship of the lockage arrives after its start.
#[inline]
fn is_early(instance: &Instance, lockage: &Lockage) -> bool
    requires { All (λ s. s < length instance.now.ships) lockage.now.ships }
    ensures early { OnTrue result (IsEarly instance.now lockage.now) }
    ensures on_time { OnFalse result (IsNotEarly instance.now lockage.now) }
{
    for &ship in lockage.ships.as_slice() {
        if lockage.start < instance.ships.as_slice()[ship as usize].arrival {
            return true;
        }
    }
    false
}

/// What the start of the lockage at this place breaks, where the chamber stands so and is done
/// with all before at `from`.
#[inline]
fn judge_start(
    instance: &Instance,
    chamber: u8,
    stand: Stand,
    from: u64,
    lockage: &Lockage,
    place: u8,
) -> Option<BrokenTime>
    requires chamber_in { chamber < length instance.now.chambers }
    requires ships_in { All (λ s. s < length instance.now.ships) lockage.now.ships }
    requires from_small { from ≤ 2 ^ 61 }
    ensures none { IsNone result
        ↔ IsLawfulStart instance.now chamber stand from (group_of lockage.now) lockage.now.start }
    ensures some { IfSome result (Breaks instance.now chamber stand from lockage.now place) }
{
    if is_early(instance, lockage) {
        return Some(BrokenTime::Early(place));
    }
    let lock = &instance.chambers.as_slice()[chamber as usize];
    let start = lockage.start as u64;
    let end = start + duration(instance, chamber, &lockage.ships);
    if start < ready(lock, stand, from, lockage.way) {
        return Some(BrokenTime::Soon(place));
    }
    if !is_free(&lock.closures, start, end) {
        return Some(BrokenTime::Shut(place));
    }
    None
}

/// The first break of the starts of the chamber's lockages, walked by start, equal starts by
/// place in the plan. `None` exactly where the starts of the line are lawful.
pub fn judge_line(instance: &Instance, chamber: u8, plan: &Plan) -> Option<BrokenTime>
    requires chamber_in { chamber < length instance.now.chambers }
    requires ships_in { All (λ l. All (λ s. s < length instance.now.ships) l.ships) plan.now.lockages }
    ensures none { IsNone result ↔ IsTimely instance.now plan.now chamber }
    ensures some { IfSome result (IsFirstBreak instance.now plan.now chamber) }
{
    let lock = &instance.chambers.as_slice()[chamber as usize];
    let mut stand = lock.stands;
    let mut from = lock.opens as u64;
    let places = line_places(plan, chamber);
    for &place in places.as_slice() {
        let lockage = &plan.lockages.as_slice()[place as usize];
        if let Some(broken) = judge_start(instance, chamber, stand, from, lockage, place) {
            return Some(broken);
        }
        stand = stand_after(lockage.way);
        from = lockage.start as u64 + duration(instance, chamber, &lockage.ships);
    }
    None
}
