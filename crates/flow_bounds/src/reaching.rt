//! Which bounds of a node's children are at least a cost.
ghost use Rattle.std.specs.Prelude.{◌≡◌, ◌+◌, ◌<◌, ◌≤◌, ◌↔◌, ◌∷◌, ◌++◌, [], length, map, All, IsTrue, nat_le};
ghost use Rattle.lock_rules.specs.Arrival.{next_ship};
ghost use Rattle.lock_rules.specs.Node.{line_at};
ghost use Rattle.lock_rules.specs.Children.{children_by};
ghost use Rattle.lock_rules.specs.Bound.{node_flow, bound_of, probe_of};
ghost use Rattle.master_branch.specs.Node.{IsNodeOf, children};
ghost use Rattle.master_branch.specs.Steps.{lines_after, steps_by, IsStep};
ghost use Rattle.flow_bounds.specs.Roster.{IsRosterOf};
ghost use Rattle.flow_bounds.specs.Walk.{chamber_of};
ghost use Rattle.flow_bounds.specs.Along.{IsAlong};

use crate::entering::{chamber_of, enter};
use crate::line_walks::{LineWalks, reaches};
use crate::node_walks::{NodeWalks, walk_all};
use crate::probing::other_flows;
use crate::roster::Roster;
use arrayvec::ArrayVec;
use lock_model::{CHILDREN, Instance};
use master_branch::{Node, Step, Steps};
use std::marker::Model;

/// For up to `CHILDREN` children of a node, in their order, whether each one's bound is at least a cost.
#[derive(Drop)]
pub struct Reached {
    items: ArrayVec<bool, CHILDREN>,
}

impl Model for Reached {
    ghost use Rattle.std.specs.Prelude.{Bool, List};

    ghost Value = { List Bool };

    ghost view = { λ a. a.items.items };

    ghost inverse = { λ xs. record { items = record { items = xs } } };
}

impl Reached {
    // No children.
    fn new() -> Reached
        ensures { result ≡ [] }
    {
        Reached {
            items: ArrayVec::new(),
        }
    }

    /// The answers in the order of the children.
    pub fn as_slice(&self) -> &[bool]
        ensures value { result.now ≡ self.now }
        ensures fits { length result.now ≤ CHILDREN }
    {
        self.items.as_slice()
    }

    /// Whether the bounds of all children are at least the cost.
    pub fn all(&self) -> bool
        ensures { IsTrue result ↔ All (λ reached. IsTrue reached) self.now }
    {
        for &reached in self.items.as_slice() {
            if !reached {
                return false;
            }
        }
        true
    }

    // Appends an answer.
    fn push(&mut self, reached: bool)
        requires { length self.old < CHILDREN }
        ensures { self.new ≡ self.old ++ reached ∷ [] }
    {
        self.items.push(reached);
    }
}

// Whether the flow times of a node's ships are at least `need` once a ship that it lacks has entered
// it by a step, by the walks along the line of the step's chamber; `total` are those of the node.
fn reaches_after(
    instance: &Instance,
    node: &Node,
    along: &LineWalks,
    total: u64,
    ship: u8,
    step: Step,
    need: u64,
) -> bool
    requires node { IsNodeOf instance.now node.now }
    requires ship_in { ship < length instance.now.ships }
    requires step { IsStep instance.now ship node.now.lines step }
    requires along { IsAlong instance.now (chamber_of step) (line_at node.now.lines (chamber_of step)) along.now }
    requires total { total ≡ node_flow instance.now node.now.lines }
    ensures { result ≡ nat_le need (node_flow instance.now (lines_after instance.now ship node.now.lines step)) }
{
    let chamber = chamber_of(step);
    let line = node.line(chamber);
    let entered = enter(instance, node, along, ship, step);
    let others = other_flows(instance, node, along, total, chamber);
    reaches(
        instance,
        chamber,
        line,
        along,
        entered,
        need.saturating_sub(others),
    )
}

#[tactic(auto, using(crate::proofs::ProbeLemmas::step_chamber))]
// For each way in which a ship that a node lacks may enter it, whether the flow times of the node's
// ships and the ship are at least `need`.
fn reached_by(
    instance: &Instance,
    node: &Node,
    steps: &Steps,
    ship: u8,
    need: u64,
    walks: &mut NodeWalks,
) -> Reached
    requires node { IsNodeOf instance.now node.now }
    requires ship_in { ship < length instance.now.ships }
    requires steps { steps.now ≡ steps_by instance.now ship node.now.lines }
    ensures { result ≡ map (λ lines. nat_le need (node_flow instance.now lines)) (children_by instance.now ship node.now.lines) }
{
    let total = walk_all(instance, node, walks);
    let mut reached = Reached::new();
    for &step in steps.as_slice() {
        let along = &walks.lines[chamber_of(step) as usize];
        reached.push(reaches_after(instance, node, along, total, ship, step, need));
    }
    reached
}

/// For each child of a node that lacks a ship, in order, whether its bound is at least this cost. All
/// are exactly where the probe of the next ship is. It works out no more of a bound than tells that,
/// so it takes less than `child_bounds`. `steps` are those of the next ship, and `walks` are filled
/// anew. Takes no memory.
pub fn children_reaching(
    instance: &Instance,
    roster: &Roster,
    node: &Node,
    steps: &Steps,
    cost: u64,
    walks: &mut NodeWalks,
) -> Reached
    requires roster { IsRosterOf instance.now roster.now }
    requires node { IsNodeOf instance.now node.now }
    requires lacks { node.now.depth < length instance.now.ships }
    requires steps { steps.now ≡ steps_by instance.now (next_ship instance.now node.now.depth) node.now.lines }
    ensures value { result ≡ map (λ lines. nat_le cost (bound_of instance.now (node.now.depth + 1) lines)) (children instance.now node.now) }
    ensures probe { All IsTrue result ↔ (cost ≤ probe_of instance.now node.now.depth node.now.lines (next_ship instance.now node.now.depth)) }
{
    let ship = roster.ship(instance, node.depth());
    let rest = roster.rest(instance, node.depth() + 1);
    reached_by(
        instance,
        node,
        steps,
        ship,
        cost.saturating_sub(rest),
        walks,
    )
}
