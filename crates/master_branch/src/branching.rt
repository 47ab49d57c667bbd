//! The children of a node.
ghost use Rattle.std.specs.Prelude.{◌≡◌, ◌+◌, ◌<◌, ℕ, length, slice_get, Contains};
ghost use Rattle.lock_rules.specs.Arrival.{next_ship};
ghost use Rattle.lock_rules.specs.Node.{times_on, line_at};
ghost use Rattle.master_branch.specs.Node.{IsNodeOf, children};
ghost use Rattle.master_branch.specs.Row.{groups_held};
ghost use Rattle.master_branch.specs.Steps.{steps_by, lines_after, IsStep};

use crate::arrival::next_ship;
use crate::joining::join;
use crate::lines::Lines;
use crate::node::Node;
use crate::step::{Step, steps_by};
use lock_model::{Group, Instance, SHIPS, Ships};

// Puts a ship that stands in no line into the lines by a step.
fn enter(lines: &mut Lines, instance: &Instance, ship: u8, step: Step)
    requires known { ship < length instance.now.ships }
    requires step { IsStep instance.now ship lines.old step }
    requires absent { (c : ℕ) → times_on ship (line_at lines.old c) ≡ 0 }
    requires room { groups_held lines.old < SHIPS }
    ensures { lines.new ≡ lines_after instance.now ship lines.old step }
{
    match step {
        Step::Join { chamber, place } => join(lines, chamber, place, ship),
        Step::Open { chamber, place } => {
            let group = Group {
                way: instance.ships.as_slice()[ship as usize].way,
                ships: Ships::single(ship),
            };
            lines.insert(chamber, place, group);
        }
    }
}

/// Puts the next ship into a node by one of its steps: the node becomes the child that takes this
/// step. Takes no memory.
pub fn take_step(instance: &Instance, node: &mut Node, ship: u8, step: Step)
    requires node { IsNodeOf instance.now node.old }
    requires lacks { node.old.depth < length instance.now.ships }
    requires next { ship ≡ next_ship instance.now node.old.depth }
    requires step { Contains (steps_by instance.now ship node.old.lines) step }
    ensures depth { node.new.depth ≡ node.old.depth + 1 }
    ensures lines { node.new.lines ≡ lines_after instance.now ship node.old.lines step }
    ensures node { IsNodeOf instance.now node.new }
{
    enter(&mut node.lines, instance, ship, step);
    node.depth += 1;
}

/// How many children a node has that lacks a ship. Takes no memory.
pub fn child_count(instance: &Instance, node: &Node) -> u32
    requires node { IsNodeOf instance.now node.now }
    requires lacks { node.now.depth < length instance.now.ships }
    ensures { result ≡ length (children instance.now node.now) }
{
    let ship = next_ship(instance, node.depth());
    steps_by(instance, node, ship).as_slice().len() as u32
}

/// Makes a node that lacks a ship its child number `i`; `ship` is the one that it lacks first. Takes
/// no memory.
pub fn descend(instance: &Instance, node: &mut Node, ship: u8, i: u32)
    requires node { IsNodeOf instance.now node.old }
    requires lacks { node.old.depth < length instance.now.ships }
    requires next { ship ≡ next_ship instance.now node.old.depth }
    requires within { i < length (children instance.now node.old) }
    ensures depth { node.new.depth ≡ node.old.depth + 1 }
    ensures lines { slice_get (children instance.now node.old) i ≡ Some node.new.lines }
    ensures node { IsNodeOf instance.now node.new }
{
    let step = steps_by(instance, node, ship).as_slice()[i as usize];
    take_step(instance, node, ship, step);
}

/// Child number `i` of a node that lacks a ship: chamber by chamber, first the nodes in which the
/// next ship joins a group of its way that has room, in order of service, then those in which it
/// stands alone in a new group at place 0, 1, .. up to the number of groups. Whether the ship fits
/// plays no part. Takes no memory.
pub fn child(instance: &Instance, node: &Node, i: u32) -> Node
    requires node { IsNodeOf instance.now node.now }
    requires lacks { node.now.depth < length instance.now.ships }
    requires within { i < length (children instance.now node.now) }
    ensures depth { result.depth ≡ node.now.depth + 1 }
    ensures lines { slice_get (children instance.now node.now) i ≡ Some result.lines }
    ensures node { IsNodeOf instance.now result }
{
    let ship = next_ship(instance, node.depth());
    let mut child = node.copy();
    descend(instance, &mut child, ship, i);
    child
}
