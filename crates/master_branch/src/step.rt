//! The steps by which a ship enters a node: one for each child, in the order of children.
ghost use Rattle.std.specs.Prelude.{◌≡◌, ◌+◌, ◌*◌, ◌<◌, ◌≤◌, [], ◌∷◌, ◌++◌, length, map, All};
ghost use Rattle.lock_rules.specs.Children.{children_by};
ghost use Rattle.master_branch.specs.Node.{IsNodeOf};
ghost use Rattle.master_branch.specs.Steps.{may_join, joins_at, opens_at, steps_at, steps_by, lines_after, IsStep};

use crate::node::Node;
use arrayvec::ArrayVec;
use lock_model::{CHILDREN, Group, Instance, SHIPS, Way};
use std::marker::Model;

/// What a child does with the ship that it places.
#[derive(Clone, Copy)]
pub enum Step {
    /// The ship joins the group at this place of the chamber's line.
    Join { chamber: u8, place: u8 },
    /// The ship stands alone in a new group at this place, before the group that was there.
    Open { chamber: u8, place: u8 },
}

impl Default for Step {
    fn default() -> Step
        ensures { result ≡ Step.Open 0 0 }
    {
        Step::Open {
            chamber: 0,
            place: 0,
        }
    }
}

/// Up to `CHILDREN` steps: as many as a node of an instance can have children.
#[derive(Drop)]
pub struct Steps {
    items: ArrayVec<Step, CHILDREN>,
}

impl Model for Steps {
    ghost use Rattle.std.specs.Prelude.{List};
    ghost use Rattle.master_branch.specs.declared.step.Step.{Step};

    ghost Value = { List Step };

    ghost view = { λ a. a.items.items };

    ghost inverse = { λ xs. record { items = record { items = xs } } };
}

impl Steps {
    // No steps.
    fn new() -> Steps
        ensures { result ≡ [] }
    {
        Steps {
            items: ArrayVec::new(),
        }
    }

    /// The steps in the order of the children.
    pub fn as_slice(&self) -> &[Step]
        ensures value { result.now ≡ self.now }
        ensures fits { length result.now ≤ CHILDREN }
    {
        self.items.as_slice()
    }

    // Appends a step.
    fn push(&mut self, step: Step)
        requires { length self.old < CHILDREN }
        ensures { self.new ≡ self.old ++ step ∷ [] }
    {
        self.items.push(step);
    }
}

// Whether a ship of this way may join the group.
fn may_join(most: u8, way: Way, group: &Group) -> bool
    ensures { result ≡ may_join most way group.now }
{
    group.way == way && group.ships.len() < most as usize
}

// Appends a step for each group of a line that the ship may join.
fn push_joins(steps: &mut Steps, most: u8, way: Way, chamber: u8, line: &[Group])
    requires few { length line.now ≤ SHIPS }
    requires room { length steps.old + length (joins_at most way chamber line.now) ≤ CHILDREN }
    ensures { steps.new ≡ steps.old ++ joins_at most way chamber line.now }
{
    for (place, group) in line.iter().enumerate() {
        if may_join(most, way, group) {
            steps.push(Step::Join {
                chamber,
                place: place as u8,
            });
        }
    }
}

// Appends a step for each of the first `count` places of a new group.
fn push_opens(steps: &mut Steps, chamber: u8, count: u8)
    requires { length steps.old + count ≤ CHILDREN }
    ensures { steps.new ≡ steps.old ++ opens_at chamber count }
{
    for place in 0..count {
        steps.push(Step::Open { chamber, place });
    }
}

// Appends the steps of a ship in one chamber.
fn push_steps(steps: &mut Steps, instance: &Instance, node: &Node, ship: u8, chamber: u8)
    requires ship_in { ship < length instance.now.ships }
    requires chamber_in { chamber < length instance.now.chambers }
    requires room { length steps.old + length (steps_at instance.now ship node.now.lines chamber) ≤ CHILDREN }
    ensures { steps.new ≡ steps.old ++ steps_at instance.now ship node.now.lines chamber }
{
    let way = instance.ships.as_slice()[ship as usize].way;
    let most = instance.chambers.as_slice()[chamber as usize].most;
    let line = node.line(chamber);
    push_joins(steps, most, way, chamber, line);
    push_opens(steps, chamber, line.len() as u8 + 1);
}

/// The steps by which a ship may enter a node that lacks a ship: chamber by chamber, first the
/// groups that it joins, in order of service, then the new groups at place 0, 1, .. up to the
/// number of groups. Whether it fits plays no part. Takes no memory.
pub fn steps_by(instance: &Instance, node: &Node, ship: u8) -> Steps
    requires node { IsNodeOf instance.now node.now }
    requires lacks { node.now.depth < length instance.now.ships }
    requires known { ship < length instance.now.ships }
    ensures value { result ≡ steps_by instance.now ship node.now.lines }
    ensures children { map (lines_after instance.now ship node.now.lines) result ≡ children_by instance.now ship node.now.lines }
    ensures each { All (IsStep instance.now ship node.now.lines) result }
    ensures few { length result ≤ 2 * node.now.depth + length instance.now.chambers }
{
    let mut steps = Steps::new();
    for chamber in 0..instance.chambers.as_slice().len() as u8 {
        push_steps(&mut steps, instance, node, ship, chamber);
    }
    steps
}
