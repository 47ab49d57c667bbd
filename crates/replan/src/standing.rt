//! How the kept lockages leave the chambers.
ghost use Rattle.std.specs.Prelude.{◌≡◌, ◌+◌, ◌<◌, length, All};
ghost use Rattle.replan.specs.Kept.{CanBeKept, EndsInTime};
ghost use Rattle.replan.specs.Rest.{chamber_after, chambers_after};
ghost use Rattle.replan.specs.Last.{IsLastFrom, left_by};

use chamber_times::{lockage_end, stand_after};
use lock_model::{Chamber, Chambers, Instance, Lockage, Plan};

/// Of the lockage at a place and the last one of those behind it, the last of the chamber by start.
fn later(plan: &Plan, chamber: u8, place: u8, last: Option<u8>) -> Option<u8>
    requires place_in { place < length plan.now.lockages }
    requires behind { IsLastFrom plan.now chamber (place + 1) last }
    ensures { IsLastFrom plan.now chamber place result }
{
    let lockages = plan.lockages.as_slice();
    if lockages[place as usize].chamber != chamber {
        return last;
    }
    match last {
        None => Some(place),
        Some(other) => {
            if lockages[place as usize].start <= lockages[other as usize].start {
                Some(other)
            } else {
                Some(place)
            }
        }
    }
}

/// The place of the chamber's last lockage by start, equal starts by place.
fn last_on(plan: &Plan, chamber: u8) -> Option<u8>
    ensures { IsLastFrom plan.now chamber 0 result }
{
    let mut last = None;
    let mut left = plan.lockages.as_slice().len();
    while left > 0 {
        left -= 1;
        last = later(plan, chamber, left as u8, last);
    }
    last
}

/// The chamber when the lockage is over.
fn left_by(instance: &Instance, chamber: u8, lockage: &Lockage) -> Chamber
    requires chamber_in { chamber < length instance.now.chambers }
    requires own { lockage.now.chamber ≡ chamber }
    requires ships_in { All (λ s. s < length instance.now.ships) lockage.now.ships }
    requires in_time { EndsInTime instance.now lockage.now }
    ensures { result ≡ left_by instance.now chamber lockage.now }
{
    let lock = instance.chambers.as_slice()[chamber as usize].copy();
    Chamber {
        stands: stand_after(lockage.way),
        opens: lockage_end(instance, lockage) as u32,
        ..lock
    }
}

/// The chamber when its kept lockages are over.
pub(crate) fn chamber_after(instance: &Instance, kept: &Plan, chamber: u8) -> Chamber
    requires chamber_in { chamber < length instance.now.chambers }
    requires can { CanBeKept instance.now kept.now }
    ensures { result ≡ chamber_after instance.now kept.now chamber }
{
    match last_on(kept, chamber) {
        None => instance.chambers.as_slice()[chamber as usize].copy(),
        Some(p) => left_by(instance, chamber, &kept.lockages.as_slice()[p as usize]),
    }
}

/// All chambers when the kept lockages are over.
pub(crate) fn chambers_after(instance: &Instance, kept: &Plan) -> Chambers
    requires { CanBeKept instance.now kept.now }
    ensures { result ≡ chambers_after instance.now kept.now }
{
    let count = instance.chambers.as_slice().len() as u8;
    let mut chambers = Chambers::new();
    for chamber in 0..count {
        chambers.push(chamber_after(instance, kept, chamber));
    }
    chambers
}
