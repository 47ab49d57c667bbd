//! The beats of lockages, put into a day.
ghost use Rattle.std.specs.Prelude.{◌≡◌, ◌+◌, ◌^◌, ◌<◌, ◌≤◌, length, All};
ghost use Rattle.lock_rules.specs.Plan.{IsLegal};
ghost use Rattle.day_play.specs.Order.{put_each, minute_of};
ghost use Rattle.day_play.specs.Lawful.{IsWholeLockage};
ghost use Rattle.day_play.specs.Playing.{turn_beats, moor_beats, lockage_beats, chamber_beats, day_of};

use crate::beat::{Act, Beat};
use crate::day::{BEATS, Day};
use crate::order::moor_order;
use chamber_times::{duration, first_free, line_places, stand_after};
use lock_model::{Instance, Lockage, Plan, Stand, Way};

/// Puts the empty turn, where the lockage at place `p` needs one and its chamber stands so and is
/// free at `from`. It begins at the least lawful minute.
fn put_turn(day: &mut Day, instance: &Instance, p: u8, lockage: &Lockage, stand: Stand, from: u64)
    requires whole { IsWholeLockage instance.now lockage.now }
    requires from_small { from ≤ 2 ^ 61 }
    requires room { length day.old + length (turn_beats instance.now p lockage.now from stand lockage.now.way) ≤ BEATS }
    ensures { day.new ≡ put_each minute_of day.old (turn_beats instance.now p lockage.now from stand lockage.now.way) }
{
    match (stand, lockage.way) {
        (Stand::Low, Way::Up) | (Stand::High, Way::Down) => {}
        (Stand::Low, Way::Down) | (Stand::High, Way::Up) => {
            let lock = &instance.chambers.as_slice()[lockage.chamber as usize];
            day.put(Beat {
                minute: first_free(&lock.closures, lock.turn as u64, from),
                chamber: lockage.chamber,
                lockage: p,
                act: Act::Turn,
            });
        }
    }
}

/// Puts the moorings of the ships at these places of the lockage's deck, in this order.
fn put_moors(day: &mut Day, p: u8, lockage: &Lockage, places: &[u8])
    requires known { All (λ k. k < length lockage.now.ships) places.now }
    requires room { length day.old + length places.now ≤ BEATS }
    ensures { day.new ≡ put_each minute_of day.old (moor_beats p lockage.now places.now) }
{
    for &place in places {
        day.put(Beat {
            minute: lockage.start as u64,
            chamber: lockage.chamber,
            lockage: p,
            act: Act::Moor(lockage.ships.as_slice()[place as usize]),
        });
    }
}

/// Puts all beats of the lockage at place `p`, where its chamber stands so and is free at `from`.
fn put_lockage(
    day: &mut Day,
    instance: &Instance,
    p: u8,
    lockage: &Lockage,
    stand: Stand,
    from: u64,
)
    requires whole { IsWholeLockage instance.now lockage.now }
    requires from_small { from ≤ 2 ^ 61 }
    requires room { length day.old + length (lockage_beats instance.now p lockage.now stand from) ≤ BEATS }
    ensures { day.new ≡ put_each minute_of day.old (lockage_beats instance.now p lockage.now stand from) }
{
    put_turn(day, instance, p, lockage, stand, from);
    let order = moor_order(instance, lockage);
    put_moors(day, p, lockage, order.as_slice());
    let (minute, chamber) = (lockage.start as u64, lockage.chamber);
    day.put(Beat {
        minute,
        chamber,
        lockage: p,
        act: Act::Go,
    });
    day.put(Beat {
        minute: minute + duration(instance, chamber, &lockage.ships),
        chamber,
        lockage: p,
        act: Act::Done,
    });
}

/// Puts the beats of a chamber's lockages.
fn put_line(day: &mut Day, instance: &Instance, plan: &Plan, chamber: u8)
    requires chamber_in { chamber < length instance.now.chambers }
    requires whole { All (IsWholeLockage instance.now) plan.now.lockages }
    requires room { length day.old + length (chamber_beats instance.now plan.now chamber) ≤ BEATS }
    ensures { day.new ≡ put_each minute_of day.old (chamber_beats instance.now plan.now chamber) }
{
    let lock = &instance.chambers.as_slice()[chamber as usize];
    let mut stand = lock.stands;
    let mut from = lock.opens as u64;
    let places = line_places(plan, chamber);
    for &p in places.as_slice() {
        let lockage = &plan.lockages.as_slice()[p as usize];
        put_lockage(day, instance, p, lockage, stand, from);
        stand = stand_after(lockage.way);
        from = lockage.start as u64 + duration(instance, lockage.chamber, &lockage.ships);
    }
}

/// The day of a legal plan: the beats of all chambers by minute, then by chamber, then by their
/// order in the chamber.
pub(crate) fn day_of(instance: &Instance, plan: &Plan) -> Day
    requires { IsLegal instance.now plan.now }
    ensures { result ≡ day_of instance.now plan.now }
{
    let mut day = Day::new();
    let count = instance.chambers.as_slice().len() as u8;
    for chamber in 0..count {
        put_line(&mut day, instance, plan, chamber);
    }
    day
}
