//! A ship that enters a row.
ghost use Rattle.std.specs.Prelude.{◌<◌, ◌≤◌, length, IfSome};
ghost use Rattle.flow_bounds.specs.Entering.{IsEntered};
ghost use Rattle.near_plan.specs.Rows.{IsRow};

use crate::lines::Place;
use crate::row::Row;
use flow_bounds::{Entered, flow_below, joined, opened};
use lock_model::{Instance, SHIPS};

// A ship joins group `i`, where the chamber serves both.
#[inline]
fn join(instance: &Instance, chamber: u8, row: &Row, ship: u8, i: usize) -> Option<Entered>
    requires chamber_in { chamber < length instance.now.chambers }
    requires ship_in { ship < length instance.now.ships }
    requires row { IsRow instance.now chamber row.now }
    requires place { i < length row.now.line }
    ensures { IfSome result (IsEntered instance.now chamber row.now.line row.now.walks.walks) }
{
    let most = instance.chambers.as_slice()[chamber as usize].most;
    let way = instance.ships.as_slice()[ship as usize].way;
    let line = row.line().as_slice();
    let load = &row.walks().loads[i];
    if load.way != way || load.count >= most {
        return None;
    }
    Some(joined(instance, chamber, line, row.walks(), ship, i as u8))
}

// A ship stands alone before group `i`, or behind the last one, where the line has room.
#[inline]
fn open(instance: &Instance, chamber: u8, row: &Row, ship: u8, i: usize) -> Option<Entered>
    requires chamber_in { chamber < length instance.now.chambers }
    requires ship_in { ship < length instance.now.ships }
    requires row { IsRow instance.now chamber row.now }
    requires place { i ≤ length row.now.line }
    ensures { IfSome result (IsEntered instance.now chamber row.now.line row.now.walks.walks) }
{
    let line = row.line().as_slice();
    if line.len() >= SHIPS {
        return None;
    }
    Some(opened(instance, chamber, line, row.walks(), ship, i as u8))
}

/// The flow times of a row with a ship at a place, where the ship can be put there and they stay below so
/// many minutes.
pub(crate) fn flow_with(
    instance: &Instance,
    chamber: u8,
    row: &Row,
    ship: u8,
    place: Place,
    below: u64,
) -> Option<u64>
    requires chamber_in { chamber < length instance.now.chambers }
    requires ship_in { ship < length instance.now.ships }
    requires row { IsRow instance.now chamber row.now }
{
    let line = row.line().as_slice();
    let entered = match place {
        Place::Into(i) if i < line.len() => join(instance, chamber, row, ship, i)?,
        Place::Before(i) if i <= line.len() => open(instance, chamber, row, ship, i)?,
        _ => return None,
    };
    flow_below(instance, chamber, line, row.walks(), entered, below)
}

/// Whether a ship that enters a row at group `i` or behind takes so long itself that the row doesn't stay
/// below so many minutes.
pub(crate) fn is_too_late(
    instance: &Instance,
    chamber: u8,
    row: &Row,
    ship: u8,
    i: usize,
    below: u64,
) -> bool
    requires chamber_in { chamber < length instance.now.chambers }
    requires ship_in { ship < length instance.now.ships }
    requires place { i ≤ SHIPS }
{
    let pass = instance.chambers.as_slice()[chamber as usize].pass as u64;
    let ship = &instance.ships.as_slice()[ship as usize];
    let waits = row.done(i).saturating_sub(ship.arrival as u64);
    let own = waits.saturating_add(pass + ship.handling as u64);
    row.flow().saturating_add(own) >= below
}
