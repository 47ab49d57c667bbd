//! The largest ships of a group, which often can't lie together, so that a small tree refutes all.
ghost use Rattle.std.specs.Prelude.{◌<◌, ◌≤◌, length, All, Contains, IfOk, IfSome};
ghost use Rattle.node_work.specs.Settling.{IsPartOf};

use crate::cutting::{GroupAsked, Part, add_kept, berth_part};
use lock_model::{Instance, Ships};
use no_memory::NoMemory;
use std::alloc::Global;

// The fewest ships that are asked about without the others.
const FEWEST: usize = 5;

// The area of a ship in square decimetres.
fn area(instance: &Instance, ship: u8) -> u64
    requires { ship < length instance.now.ships }
{
    let own = &instance.ships.as_slice()[ship as usize];
    own.length as u64 * own.width as u64
}

// Whether a ship is larger than another, or as large and comes before it.
fn is_larger(instance: &Instance, ship: u8, other: u8) -> bool
    requires ship { ship < length instance.now.ships }
    requires other { other < length instance.now.ships }
{
    let own = area(instance, ship);
    let its = area(instance, other);
    own > its || (own == its && ship < other)
}

// How many of the ships are larger than this one.
fn larger_count(asked: &GroupAsked<'_>, ship: u8) -> usize
    requires ships_in { All (λ s. s < length asked.now.instance.now.ships) asked.now.ships.now }
    requires ship { ship < length asked.now.instance.now.ships }
{
    let mut count = 0;
    for &other in asked.ships.as_slice() {
        if is_larger(asked.instance, other, ship) {
            count += 1;
        }
    }
    count
}

// So many of the largest ships.
fn largest(asked: &GroupAsked<'_>, most: usize) -> Ships
    requires ships_in { All (λ s. s < length asked.now.instance.now.ships) asked.now.ships.now }
    ensures { All (Contains asked.now.ships.now) result }
{
    let mut large = Ships::new();
    for ship in 0..asked.instance.ships.as_slice().len() as u8 {
        let is_kept = larger_count(asked, ship) < most;
        add_kept(asked.ships, is_kept, ship, &mut large);
    }
    large
}

// The part of so many of the largest ships, where the placer by berths refutes them.
fn largest_part(
    alloc: Global,
    asked: &GroupAsked<'_>,
    most: usize,
    tries: u32,
) -> Result<Option<Part>, NoMemory>
    requires chamber_in { asked.now.chamber < length asked.now.instance.now.chambers }
    requires ships_in { All (λ s. s < length asked.now.instance.now.ships) asked.now.ships.now }
    ensures { IfOk result (λ found. IfSome found (λ part. IsPartOf asked.now.instance.now asked.now.chamber asked.now.ships.now part.ships part.refutation)) }
{
    let large = largest(asked, most);
    if large.len() == 0 {
        return Ok(None);
    }
    berth_part(alloc, asked, large, tries)
}

/// The part of the fewest largest ships that the placer by berths refutes within so many tries, from
/// five ships up to all but one. Refuses want of memory alone.
pub(crate) fn large_part(
    alloc: Global,
    asked: &GroupAsked<'_>,
    tries: u32,
) -> Result<Option<Part>, NoMemory>
    requires chamber_in { asked.now.chamber < length asked.now.instance.now.chambers }
    requires ships_in { All (λ s. s < length asked.now.instance.now.ships) asked.now.ships.now }
    ensures { IfOk result (λ found. IfSome found (λ part. IsPartOf asked.now.instance.now asked.now.chamber asked.now.ships.now part.ships part.refutation)) }
{
    for most in FEWEST..asked.ships.len() {
        if let Some(part) = largest_part(alloc, asked, most, tries)? {
            return Ok(Some(part));
        }
    }
    Ok(None)
}
