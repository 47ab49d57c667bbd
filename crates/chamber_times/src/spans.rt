//! Spans of minutes that are free of a chamber's closures.
ghost use Rattle.std.specs.Prelude.{◌≡◌, ◌+◌, ◌^◌, ◌≤◌, ◌↔◌, ◌||◌, IsTrue, max, nat_eq, nat_le};
ghost use Rattle.lock_rules.specs.Lawful.{Misses, IsFree};
ghost use Rattle.lock_rules.specs.Timetable.{first_free};

use lock_model::{Closure, Closures};

/// Whether a span of `long` minutes from `at` on is empty or over before a closure begins.
#[inline]
fn ends_before(closure: &Closure, long: u64, at: u64) -> bool
    requires at_small { at ≤ 2 ^ 62 }
    requires long_small { long ≤ 2 ^ 62 }
    ensures { result ≡ (nat_eq long 0 || nat_le (at + long) closure.now.from) }
{
    long == 0 || at + long <= closure.from as u64
}

/// The first minute from `from` on at which `long` minutes free of closures begin. An empty span
/// is free at once.
#[inline]
pub fn first_free(closures: &Closures, long: u64, from: u64) -> u64
    requires from_small { from ≤ 2 ^ 62 }
    requires long_small { long ≤ 2 ^ 62 }
    ensures value { result ≡ first_free closures.now long from }
    ensures small { result ≤ max from 1000000 }
{
    let mut at = from;
    for closure in closures.as_slice() {
        if ends_before(closure, long, at) {
            return at;
        }
        at = at.max(closure.to as u64);
    }
    at
}

/// Whether the span from `from` up to but without `to` is empty, or ends before the closure
/// begins, or begins after it ends.
#[inline]
fn misses(closure: &Closure, from: u64, to: u64) -> bool
    ensures { IsTrue result ↔ Misses from to closure.now }
{
    to <= from || to <= closure.from as u64 || closure.to as u64 <= from
}

/// Whether no minute from `from` up to but without `to` lies in a closure.
#[inline]
pub fn is_free(closures: &Closures, from: u64, to: u64) -> bool
    ensures { IsTrue result ↔ IsFree closures.now from to }
{
    for closure in closures.as_slice() {
        if !misses(closure, from, to) {
            return false;
        }
    }
    true
}
