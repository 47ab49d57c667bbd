//! Which nodes a cut of a certificate closes.
ghost use Rattle.std.specs.Prelude.{◌≡◌, ◌<◌, ◌↔◌, length, Contains, IsTrue};
ghost use Rattle.lock_model.specs.Fitting.{deck_of, IsNoRoomier};
ghost use Rattle.lock_model.specs.Fleet.{chamber_at};
ghost use Rattle.lock_rules.specs.Cut.{HitsNode};
ghost use Rattle.cert_check.specs.Hitting.{AreTogether, HitsLine, HitsAt};

use certificate_parts::CertCut;
use lock_model::{Group, Instance};
use master_branch::Node;

// Whether a ship is among these.
fn is_among(ship: u8, ships: &[u8]) -> bool
    ensures { IsTrue result ↔ Contains ships.now ship }
{
    ships.contains(&ship)
}

// Whether all these ships are in the group.
fn are_together(ships: &[u8], group: &Group) -> bool
    ensures { IsTrue result ↔ AreTogether ships.now group.now }
{
    for &ship in ships {
        if !is_among(ship, group.ships.as_slice()) {
            return false;
        }
    }
    true
}

// Whether all these ships are in one group of the line.
fn hits_line(ships: &[u8], line: &[Group]) -> bool
    ensures { IsTrue result ↔ HitsLine ships.now line.now }
{
    for group in line {
        if are_together(ships, group) {
            return true;
        }
    }
    false
}

// Whether a chamber has no more room than the chamber of the cut.
fn is_tight(instance: &Instance, cut: &CertCut, chamber: u8) -> bool
    requires chamber_in { chamber < length instance.now.chambers }
    requires own_in { cut.now.chamber < length instance.now.chambers }
    ensures { IsTrue result ↔ IsNoRoomier (chamber_at instance.now chamber) (deck_of instance.now cut.now.chamber cut.now.ships) }
{
    let chambers = instance.chambers.as_slice();
    let own = &chambers[cut.chamber as usize];
    let other = &chambers[chamber as usize];
    other.end == own.end
        && other.gap == own.gap
        && other.side == own.side
        && other.length <= own.length
        && other.width <= own.width
}

// Whether the cut hits a group of this chamber.
fn hits_at(instance: &Instance, cut: &CertCut, node: &Node, chamber: u8) -> bool
    requires chamber_in { chamber < length instance.now.chambers }
    requires own_in { cut.now.chamber < length instance.now.chambers }
    ensures { IsTrue result ↔ HitsAt instance.now cut.now.chamber cut.now.ships node.now.lines chamber }
{
    is_tight(instance, cut, chamber) && hits_line(cut.ships.as_slice(), node.line(chamber))
}

// Whether the cut hits a group of the node.
pub(crate) fn hits_node(instance: &Instance, cut: &CertCut, node: &Node) -> bool
    requires { cut.now.chamber < length instance.now.chambers }
    ensures { IsTrue result ↔ HitsNode cut.now.ships (deck_of instance.now cut.now.chamber cut.now.ships) instance.now node.now.lines }
{
    for chamber in 0..instance.chambers.as_slice().len() as u8 {
        if hits_at(instance, cut, node, chamber) {
            return true;
        }
    }
    false
}
