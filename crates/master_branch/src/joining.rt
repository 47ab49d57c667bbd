//! Groups with one ship more.
ghost use Rattle.std.specs.Prelude.{◌≡◌, ◌<◌, ◌≤◌, length, slice_index, slice_set, insert};
ghost use Rattle.lock_rules.specs.Plan.{times_in};
ghost use Rattle.lock_rules.specs.Node.{line_at};
ghost use Rattle.lock_rules.specs.Children.{insert_number, with_ship};
ghost use Rattle.master_branch.specs.Steps.{group_in, joined_line};

use crate::lines::Lines;
use lock_model::{CHAMBERS, Group, MOST, Ships};

// The place of a ship among rising numbers: before the first that is greater.
fn place_among(ships: &[u8], ship: u8) -> usize
    ensures within { result ≤ length ships.now }
    ensures value { insert ships.now result ship ≡ insert_number ship ships.now }
{
    for (place, &other) in ships.iter().enumerate() {
        if ship < other {
            return place;
        }
    }
    ships.len()
}

// Number `i` of the ships once another ship has been put at a place.
fn ship_after(ships: &[u8], place: usize, ship: u8, i: usize) -> u8
    requires place { place ≤ length ships.now }
    requires within { i ≤ length ships.now }
    ensures { result ≡ slice_index (insert ships.now place ship) i }
{
    if i < place {
        ships[i]
    } else if i == place {
        ship
    } else {
        ships[i - 1]
    }
}

/// The group with a ship more, its ships in rising number. It holds fewer than `MOST` ships, and not
/// this one.
pub fn with_ship(group: &Group, ship: u8) -> Group
    requires room { length group.now.ships < MOST }
    requires absent { times_in group.now.ships ship ≡ 0 }
    ensures { result ≡ with_ship ship group.now }
{
    let old = group.ships.as_slice();
    let place = place_among(old, ship);
    let mut ships = Ships::new();
    for i in 0..old.len() + 1 {
        ships.push(ship_after(old, place, ship, i));
    }
    Group {
        way: group.way,
        ships,
    }
}

// Puts a ship into the group at a place of a chamber's line.
pub(crate) fn join(lines: &mut Lines, chamber: u8, place: u8, ship: u8)
    requires chamber { chamber < CHAMBERS }
    requires place { place < length (line_at lines.old chamber) }
    requires room { length (group_in (line_at lines.old chamber) place).ships < MOST }
    requires absent { times_in (group_in (line_at lines.old chamber) place).ships ship ≡ 0 }
    ensures { lines.new ≡ slice_set lines.old chamber (joined_line ship (line_at lines.old chamber) place) }
{
    let joined = with_ship(&lines.line(chamber)[place as usize], ship);
    lines.set(chamber, place, joined);
}
