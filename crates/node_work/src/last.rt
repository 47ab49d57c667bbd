//! The group that a node's last ship is in.
ghost use Rattle.std.specs.Prelude.{◌≡◌, ◌<◌, ◌≤◌, ◌↔◌, length, Contains, IsTrue, IfSome, IfNone};
ghost use Rattle.lock_rules.specs.Node.{line_at};
ghost use Rattle.master_branch.specs.Node.{IsNodeOf};
ghost use Rattle.node_work.specs.Fates.{IsGroupAt};
ghost use Rattle.node_work.specs.Last.{IsInGroup, IsLacked, IsLackedBelow};

use lock_model::{Group, Instance, SHIPS};
use master_branch::Node;

/// Whether a ship is among these.
pub(crate) fn is_among(ship: u8, ships: &[u8]) -> bool
    ensures { IsTrue result ↔ Contains ships.now ship }
{
    ships.contains(&ship)
}

// The place of the group of a line that this ship is in.
fn place_in(line: &[Group], ship: u8) -> Option<u8>
    requires { length line.now ≤ SHIPS }
    ensures some { IfSome result (IsInGroup line.now ship) }
    ensures none { IfNone result (IsLacked line.now ship (length line.now)) }
{
    for place in 0..line.len() {
        if is_among(ship, line[place].ships.as_slice()) {
            return Some(place as u8);
        }
    }
    None
}

/// The chamber and the place in its line of the group that this ship is in; of a node's last ship
/// it is the only group that the node's parent doesn't have. None exactly where no group of the
/// node has the ship. Takes no memory.
pub fn last_group(instance: &Instance, node: &Node, ship: u8) -> Option<(u8, u8)>
    requires { IsNodeOf instance.now node.now }
    ensures at { IfSome result (λ at. IsGroupAt instance.now node.now at.0 at.1) }
    ensures has { IfSome result (λ at. IsInGroup (line_at node.now.lines at.0) ship at.1) }
    ensures none { IfNone result (IsLackedBelow node.now.lines ship (length instance.now.chambers)) }
{
    for chamber in 0..instance.chambers.as_slice().len() as u8 {
        if let Some(place) = place_in(node.line(chamber), ship) {
            return Some((chamber, place));
        }
    }
    None
}
