//! What each ship takes at the least.
ghost use Rattle.std.specs.Prelude.{◌≡◌, ◌+◌, ◌*◌, ◌<◌, ◌≤◌, length, sum_by, IfSome};
ghost use Rattle.lock_rules.specs.Arrival.{order_of, missing_ships};
ghost use Rattle.lock_rules.specs.Bound.{fits_alone, passage_on, least_passage};
ghost use Rattle.lock_rules.specs.Plan.{IsLegal, cost_of};
ghost use Rattle.lock_rules.specs.Children.{single};
ghost use Rattle.lock_model.specs.Fleet.{ship_at};
ghost use Rattle.flow_bounds.specs.Least.{first_end, passages_from, least_told};
ghost use Rattle.lock_model.specs.declared.plan.Plan.{Plan as AnyPlan};

use crate::least::less;
use chamber_times::group_times;
use lock_model::{Group, Instance, SHIPS, Ships, fits_alone};
use master_branch::arrival_order;

// The ship as a group of its own.
fn alone(instance: &Instance, ship: u8) -> Group
    requires { ship < length instance.now.ships }
    ensures { result ≡ single (ship_at instance.now ship).way ship }
{
    Group {
        way: instance.ships.as_slice()[ship as usize].way,
        ships: Ships::single(ship),
    }
}

// The end of the ship, where the chamber serves it first and alone: no earlier than it arrives.
#[tactic(auto, using(crate::proofs::PassageLemmas::ends_after_arrival))]
fn first_end(instance: &Instance, ship: u8, chamber: u8) -> u64
    requires ship_in { ship < length instance.now.ships }
    requires chamber_in { chamber < length instance.now.chambers }
    ensures value { result ≡ first_end instance.now ship chamber }
    ensures late { (ship_at instance.now ship).arrival ≤ result }
    ensures small { result ≤ 13000000 }
{
    let lock = &instance.chambers.as_slice()[chamber as usize];
    let group = alone(instance, ship);
    let (_, end) = group_times(instance, chamber, lock.stands, lock.opens as u64, &group);
    end
}

// The minutes from the ship's arrival to that end.
#[tactic(auto, using(crate::proofs::PassageLemmas::passage_is))]
fn passage(instance: &Instance, ship: u8, chamber: u8) -> u64
    requires ship_in { ship < length instance.now.ships }
    requires chamber_in { chamber < length instance.now.chambers }
    ensures value { result ≡ passage_on instance.now ship chamber }
    ensures small { result ≤ 13000000 }
{
    let end = first_end(instance, ship, chamber);
    end - instance.ships.as_slice()[ship as usize].arrival as u64
}

// Whether the ship fits the chamber alone.
fn fits(instance: &Instance, ship: u8, chamber: u8) -> bool
    requires ship_in { ship < length instance.now.ships }
    requires chamber_in { chamber < length instance.now.chambers }
    ensures { result ≡ fits_alone instance.now ship chamber }
{
    fits_alone(
        &instance.chambers.as_slice()[chamber as usize],
        &instance.ships.as_slice()[ship as usize],
    )
}

// What is told of the chambers from this one on, by what is told of those after it.
fn told_from(instance: &Instance, ship: u8, chamber: u8, told: Option<u64>) -> Option<u64>
    requires ship_in { ship < length instance.now.ships }
    requires chamber_in { chamber < length instance.now.chambers }
    requires after { told ≡ least_told (passages_from instance.now ship (chamber + 1)) }
    requires few { IfSome told (λ minutes. minutes ≤ 13000000) }
    ensures value { result ≡ least_told (passages_from instance.now ship chamber) }
    ensures small { IfSome result (λ minutes. minutes ≤ 13000000) }
{
    if fits(instance, ship, chamber) {
        less(passage(instance, ship, chamber), told)
    } else {
        told
    }
}

/// Over the chambers that the ship fits alone, the least minutes from its arrival to its end where
/// the chamber serves it first and alone; 0 where it fits none.
pub fn least_passage(instance: &Instance, ship: u8) -> u64
    requires { ship < length instance.now.ships }
    ensures value { result ≡ least_passage instance.now ship }
    ensures small { result ≤ 13000000 }
{
    let mut told = None;
    let mut chamber = instance.chambers.as_slice().len() as u8;
    while chamber > 0 {
        chamber -= 1;
        told = told_from(instance, ship, chamber, told);
    }
    told.unwrap_or(0)
}

// The least passages of the ships that a node of this depth lacks, added.
pub(crate) fn passages_from(instance: &Instance, depth: u8) -> u64
    requires { depth ≤ length instance.now.ships }
    ensures value { result ≡ sum_by (least_passage instance.now) (missing_ships instance.now depth) }
    ensures small { result ≤ SHIPS * 13000000 }
{
    let order = arrival_order(instance);
    let missing = &order.as_slice()[depth as usize..];
    let mut sum = 0;
    for &ship in missing {
        sum += least_passage(instance, ship);
    }
    sum
}

/// The least passages of all ships, added: no legal plan costs less. It is the bound of the node
/// that holds no ship.
pub fn least_passages(instance: &Instance) -> u64
    ensures value { result ≡ sum_by (least_passage instance.now) (order_of instance.now) }
    ensures bound { (P : AnyPlan) → IsLegal instance.now P → result ≤ cost_of instance.now P }
{
    passages_from(instance, 0)
}
