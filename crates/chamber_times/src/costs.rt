//! What a plan costs.
ghost use Rattle.std.specs.Prelude.{◌≡◌, ◌^◌, ◌*◌, ◌-◌, ◌<◌, ◌≤◌, length, sum_by, All};
ghost use Rattle.lock_model.specs.Fleet.{ship_at};
ghost use Rattle.lock_rules.specs.Lines.{end_of};
ghost use Rattle.lock_rules.specs.Plan.{flow_in, cost_of};

use crate::service::duration;
use lock_model::{Instance, Lockage, MOST, Plan, SHIPS, Ships};

/// The minute at which a lockage ends.
#[inline]
pub fn lockage_end(instance: &Instance, lockage: &Lockage) -> u64
    requires chamber_in { lockage.now.chamber < length instance.now.chambers }
    requires ships_in { All (λ s. s < length instance.now.ships) lockage.now.ships }
    ensures value { result ≡ end_of instance.now lockage.now }
    ensures small { result < 2 ^ 33 }
{
    lockage.start as u64 + duration(instance, lockage.chamber, &lockage.ships)
}

/// The flow times of ships whose lockage ends at minute `end`, added, in minutes. A ship that arrives
/// later adds nothing.
#[inline]
pub fn flow_until(instance: &Instance, ships: &Ships, end: u64) -> u64
    requires ships_in { All (λ s. s < length instance.now.ships) ships.now }
    requires end_small { end ≤ 2 ^ 60 }
    ensures value { result ≡ sum_by (λ s. end - (ship_at instance.now s).arrival) ships.now }
    ensures small { result ≤ MOST * end }
{
    let mut sum = 0;
    for &ship in ships.as_slice() {
        sum += end.saturating_sub(instance.ships.as_slice()[ship as usize].arrival as u64);
    }
    sum
}

/// The flow time of a lockage: its end minus the arrival, added over its ships. It starts no
/// earlier than they arrive.
#[inline]
pub fn flow_time(instance: &Instance, lockage: &Lockage) -> u64
    requires chamber_in { lockage.now.chamber < length instance.now.chambers }
    requires ships_in { All (λ s. s < length instance.now.ships) lockage.now.ships }
    requires arrived { All (λ s. (ship_at instance.now s).arrival ≤ lockage.now.start) lockage.now.ships }
    ensures value { result ≡ flow_in instance.now lockage.now }
    ensures small { result ≤ 2 ^ 36 }
{
    flow_until(instance, &lockage.ships, lockage_end(instance, lockage))
}

/// The cost of a plan, its total flow time in minutes: over the ships, the end of their lockage
/// minus their arrival. No lockage starts before the arrival of one of its ships.
pub fn cost(instance: &Instance, plan: &Plan) -> u64
    requires chambers_in { All (λ l. l.chamber < length instance.now.chambers) plan.now.lockages }
    requires ships_in { All (λ l. All (λ s. s < length instance.now.ships) l.ships) plan.now.lockages }
    requires arrived { All (λ l. All (λ s. (ship_at instance.now s).arrival ≤ l.start) l.ships) plan.now.lockages }
    ensures value { result ≡ cost_of instance.now plan.now }
    ensures small { result ≤ SHIPS * 2 ^ 36 }
{
    let mut sum = 0;
    for lockage in plan.lockages.as_slice() {
        sum += flow_time(instance, lockage);
    }
    sum
}
