//! Lines with a ship more, or without it.
ghost use Rattle.std.specs.Prelude.{◌<◌, ◌↔◌, length, Contains, IsTrue};

use crate::sets::without;
use lock_model::{Group, Instance, Line, MOST, SHIPS, Ships};
use master_branch::with_ship;

/// Where a ship may be put into a line.
#[derive(Clone, Copy)]
pub(crate) enum Place {
    /// Into the group of this number.
    Into(usize),
    /// Into a group of its own before that of this number, or behind the last one.
    Before(usize),
}

// Whether a ship is among these.
fn is_among(ship: u8, ships: &[u8]) -> bool
    ensures { IsTrue result ↔ Contains ships.now ship }
{
    ships.contains(&ship)
}

// A group that a ship has joined, where it has room and lacks the ship.
fn joined(group: &Group, ship: u8) -> Option<Group> {
    if group.ships.len() >= MOST || is_among(ship, group.ships.as_slice()) {
        return None;
    }
    Some(with_ship(group, ship))
}

/// The group of a ship at a place of a line.
pub(crate) fn group_with(instance: &Instance, line: &Line, ship: u8, place: Place) -> Option<Group>
    requires { ship < length instance.now.ships }
{
    match place {
        Place::Into(i) => joined(line.as_slice().get(i)?, ship),
        Place::Before(_) => Some(Group {
            way: instance.ships.as_slice()[ship as usize].way,
            ships: Ships::single(ship),
        }),
    }
}

/// A line with the group of a ship at its place.
pub(crate) fn line_with(line: &Line, place: Place, group: Group) -> Option<Line> {
    let groups = line.as_slice().len();
    let mut longer = line.copy();
    match place {
        Place::Into(i) if i < groups => longer.set(i, group),
        Place::Before(i) if i <= groups && groups < SHIPS => longer.insert(i, group),
        _ => return None,
    }
    Some(longer)
}

/// The number of the group of a line that has a ship.
pub(crate) fn group_of(line: &Line, ship: u8) -> Option<usize> {
    for (i, group) in line.as_slice().iter().enumerate() {
        if group.ships.as_slice().contains(&ship) {
            return Some(i);
        }
    }
    None
}

/// A line without a ship of the group of this number, which goes if it had no other.
pub(crate) fn line_without(line: &Line, number: usize, ship: u8) -> Line {
    let mut rest = Line::new();
    for (i, group) in line.as_slice().iter().enumerate() {
        let ships = if i == number {
            without(&group.ships, ship)
        } else {
            group.ships.copy()
        };
        if ships.len() > 0 && rest.as_slice().len() < SHIPS {
            rest.push(Group {
                way: group.way,
                ships,
            });
        }
    }
    rest
}
