//! The earliest timetable of a line.
ghost use Rattle.std.specs.Prelude.{◌≡◌, ◌^◌, ◌<◌, ◌≤◌, length, All};
ghost use Rattle.lock_rules.specs.Lawful.{AreEarliest};
ghost use Rattle.lock_rules.specs.Timetable.{timetable_of, starts_of};

use crate::service::{group_times, stand_after};
use lock_model::{Group, Instance, SHIPS, Times};

/// The start and the end of each group of a chamber's line, as early as they can be: the starts
/// are lawful, and in every lawful list each start is at least as large.
pub fn earliest(instance: &Instance, chamber: u8, line: &[Group]) -> Times
    requires chamber_in { chamber < length instance.now.chambers }
    requires few { length line.now ≤ SHIPS }
    requires ships_in { All (λ g. All (λ s. s < length instance.now.ships) g.ships) line.now }
    ensures table { result ≡ timetable_of instance.now chamber line.now }
    ensures starts { AreEarliest instance.now chamber line.now (starts_of result) }
    ensures each { length result ≡ length line.now }
    ensures fit { All (λ t. (t.0 < 2 ^ 32) × (t.1 < 2 ^ 32)) result }
{
    let lock = &instance.chambers.as_slice()[chamber as usize];
    let mut stand = lock.stands;
    let mut from = lock.opens as u64;
    let mut times = Times::new();
    for group in line {
        let (start, end) = group_times(instance, chamber, stand, from, group);
        times.push(start, end);
        stand = stand_after(group.way);
        from = end;
    }
    times
}
