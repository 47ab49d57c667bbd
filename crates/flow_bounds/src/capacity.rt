//! The throughput: what any plan costs, by how many ships the chambers can end by each minute.
ghost use Rattle.std.specs.Prelude.{◌≡◌, ◌*◌, ◌+◌, ◌≤◌, ◌<◌, ℕ, length, All, sum_by};
ghost use Rattle.lock_model.specs.declared.plan.Plan.{Plan as AnyPlan};
ghost use Rattle.lock_rules.specs.Plan.{IsLegal, cost_of};
ghost use Rattle.lock_rules.specs.Throughput.{first_arrival, sum_of_least, places_on, throughput_of};
ghost use Rattle.flow_bounds.specs.Places.{all_minutes, all_places, minute_at, IsEnough};

use crate::least::less;
use crate::places::{Places, places_on, without_first};
use arrayvec::ArrayVec;
use lock_model::{CHAMBERS, Instance, SHIPS};

// The least arrival of all ships.
fn first_arrival(instance: &Instance) -> u64
    ensures value { result ≡ first_arrival instance.now }
    ensures small { result ≤ 1000000 }
{
    let ships = instance.ships.as_slice();
    let mut told = None;
    let mut i = ships.len();
    while i > 0 {
        i -= 1;
        told = less(ships[i].arrival as u64, told);
    }
    told.unwrap_or(0)
}

// The number of a chamber whose next minute is least.
fn first_of(all: &[Places]) -> usize
    requires { 0 < length all.now }
    ensures within { result < length all.now }
    ensures least { (k : ℕ) → k < length all.now → minute_at all.now result ≤ minute_at all.now k }
{
    let mut first = 0;
    for (k, places) in all.iter().enumerate() {
        if places.minute < all[first].minute {
            first = k;
        }
    }
    first
}

// The sum of the `count` least minutes of all chambers.
fn sum_of_least(all: &mut [Places], count: u8) -> u64
    requires some { 0 < length all.old }
    requires enough { All (IsEnough count) all.old }
    ensures value { result ≡ sum_of_least count (all_minutes all.old) }
    ensures small { result ≤ (SHIPS + 1) * 1000000 * count }
{
    let mut sum = 0;
    for _ in 0..count {
        let first = first_of(all);
        let places = all[first];
        sum += places.minute;
        all[first] = without_first(places);
    }
    sum
}

// The minutes of all chambers.
fn all_places(instance: &Instance) -> ArrayVec<Places, CHAMBERS>
    ensures value { all_minutes result.items ≡ all_places instance.now }
    ensures each { length result.items ≡ length instance.now.chambers }
    ensures enough { All (IsEnough (length instance.now.ships)) result.items }
{
    let first = first_arrival(instance);
    let mut all = ArrayVec::new();
    for chamber in 0..instance.chambers.as_slice().len() as u8 {
        all.push(places_on(instance, chamber, first));
    }
    all
}

// All handling times, added.
fn handling(instance: &Instance) -> u64
    ensures value { result ≡ sum_by (λ s. s.handling) instance.now.ships }
    ensures small { result ≤ SHIPS * 1000000 }
{
    let mut sum = 0;
    for ship in instance.ships.as_slice() {
        sum += ship.handling as u64;
    }
    sum
}

// All arrivals, added.
fn arrivals(instance: &Instance) -> u64
    ensures value { result ≡ sum_by (λ s. s.arrival) instance.now.ships }
    ensures small { result ≤ SHIPS * 1000000 }
{
    let mut sum = 0;
    for ship in instance.ships.as_slice() {
        sum += ship.arrival as u64;
    }
    sum
}

/// The throughput, in minutes: every legal plan costs at least this. A chamber can end `most`
/// ships no earlier than a passage after its opening and the first arrival, `most` more no earlier
/// than a passage later, and so on. The least of these minutes of all chambers, one for each ship,
/// and all handling times, added, minus all arrivals; 0 where that is below 0. Closures don't
/// count. Takes no memory.
pub fn throughput(instance: &Instance) -> u64
    ensures value { result ≡ throughput_of instance.now }
    ensures holds { (P : AnyPlan) → IsLegal instance.now P → result ≤ cost_of instance.now P }
    ensures small { result ≤ SHIPS * (SHIPS + 2) * 1000000 }
{
    let mut all = all_places(instance);
    let count = instance.ships.as_slice().len() as u8;
    let ends = sum_of_least(all.as_mut_slice(), count) + handling(instance);
    ends.saturating_sub(arrivals(instance))
}
