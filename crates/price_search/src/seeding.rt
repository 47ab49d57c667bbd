//! Cuts that are found before prices propose groups.
ghost use Rattle.std.specs.Prelude.{◌≡◌, ◌<◌, ◌↔◌, length, Contains, IsTrue};

use crate::placing::Placer;
use lock_model::{Group, Instance, MOST, Ships};
use master_branch::{arrival_order, with_ship};
use near_plan::fits;
use no_memory::NoMemory;
use node_work::KnownCuts;

// Whether a ship is among these.
fn is_among(ship: u8, ships: &[u8]) -> bool
    ensures { IsTrue result ↔ Contains ships.now ship }
{
    ships.contains(&ship)
}

// A group with a ship more, where it has room and lacks the ship.
fn joined(group: &Group, ship: u8) -> Option<Group> {
    if group.ships.len() >= MOST || is_among(ship, group.ships.as_slice()) {
        return None;
    }
    Some(with_ship(group, ship))
}

// Whether a ship goes the way of a group to which the chamber may take one more.
fn may_join(instance: &Instance, chamber: u8, group: &Group, ship: u8) -> bool {
    let Some(own) = instance.chambers.as_slice().get(chamber as usize) else {
        return false;
    };
    match instance.ships.as_slice().get(ship as usize) {
        Some(ship) => ship.way == group.way && group.ships.len() < own.most as usize,
        None => false,
    }
}

// Has a ship join a group where it fits with it. Where it doesn't, that gives a cut.
fn join<K: KnownCuts>(
    instance: &Instance,
    chamber: u8,
    group: &mut Group,
    ship: u8,
    placer: &mut Placer<'_, '_, K>,
) -> Result<(), NoMemory>
    requires { placer.old.search.now.instance.now ≡ instance.now }
    ensures { placer.new.search.now.instance.now ≡ instance.now }
{
    if !may_join(instance, chamber, group, ship) {
        return Ok(());
    }
    if let Some(more) = joined(group, ship)
        && fits(instance, chamber, &more.ships, placer)?.is_some()
    {
        *group = more;
    }
    Ok(())
}

// Has these ships join a group in turn, each where it fits with those that joined before.
fn join_all<K: KnownCuts>(
    instance: &Instance,
    chamber: u8,
    group: &mut Group,
    ships: &[u8],
    placer: &mut Placer<'_, '_, K>,
) -> Result<(), NoMemory>
    requires { placer.old.search.now.instance.now ≡ instance.now }
    ensures { placer.new.search.now.instance.now ≡ instance.now }
{
    for &ship in ships {
        join(instance, chamber, group, ship, placer)?;
    }
    Ok(())
}

// Grows a group from the ship at this place, by those that come later and then by the others.
fn grow<K: KnownCuts>(
    instance: &Instance,
    chamber: u8,
    order: &[u8],
    place: usize,
    placer: &mut Placer<'_, '_, K>,
) -> Result<(), NoMemory>
    requires place_in { place < length order.now }
    requires same { placer.old.search.now.instance.now ≡ instance.now }
    ensures same { placer.new.search.now.instance.now ≡ instance.now }
{
    let Some(first) = instance.ships.as_slice().get(order[place] as usize) else {
        return Ok(());
    };
    let mut group = Group {
        way: first.way,
        ships: Ships::single(order[place]),
    };
    join_all(instance, chamber, &mut group, &order[place..], placer)?;
    join_all(instance, chamber, &mut group, &order[..place], placer)
}

// Grows a group of a chamber from each ship.
fn grow_from_each<K: KnownCuts>(
    instance: &Instance,
    chamber: u8,
    order: &[u8],
    placer: &mut Placer<'_, '_, K>,
) -> Result<(), NoMemory>
    requires { placer.old.search.now.instance.now ≡ instance.now }
    ensures { placer.new.search.now.instance.now ≡ instance.now }
{
    for place in 0..order.len() {
        grow(instance, chamber, order, place, placer)?;
    }
    Ok(())
}

/// Grows groups for each chamber and ship until no other ship fits with them; what doesn't fit is among the
/// placer's cuts then.
pub(crate) fn seed_cuts<K: KnownCuts>(
    instance: &Instance,
    placer: &mut Placer<'_, '_, K>,
) -> Result<(), NoMemory>
    requires { placer.old.search.now.instance.now ≡ instance.now }
    ensures { placer.new.search.now.instance.now ≡ instance.now }
{
    let order = arrival_order(instance);
    for chamber in 0..instance.chambers.as_slice().len() as u8 {
        grow_from_each(instance, chamber, order.as_slice(), placer)?;
    }
    Ok(())
}
