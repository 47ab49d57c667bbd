//! What a node's ships take once one more ship has entered it.
ghost use Rattle.std.specs.Prelude.{◌≡◌, ◌+◌, ◌*◌, ◌<◌, ◌≤◌, ◌∷◌, ◌++◌, [], ℕ, length, map, All};
ghost use Rattle.std.specs.Bool.{OnTrue, OnFalse};
ghost use Rattle.lock_rules.specs.Arrival.{next_ship};
ghost use Rattle.lock_rules.specs.Node.{line_at, times_held};
ghost use Rattle.lock_rules.specs.Children.{children_by};
ghost use Rattle.lock_rules.specs.Bound.{line_flow, node_flow, bound_of, probe_of, least_number, IsLowerBound};
ghost use Rattle.master_branch.specs.Node.{IsNodeOf, children};
ghost use Rattle.master_branch.specs.Steps.{lines_after, IsStep};
ghost use Rattle.flow_bounds.specs.Missing.{IsMissing};
ghost use Rattle.flow_bounds.specs.Roster.{IsRosterOf};
ghost use Rattle.flow_bounds.specs.Most.{group_flow, most_bound};
ghost use Rattle.flow_bounds.specs.Walk.{chamber_of};
ghost use Rattle.flow_bounds.specs.Along.{IsAlong};

use crate::entering::{chamber_of, enter};
use crate::least::least_number;
use crate::line_walks::{LineWalks, finish};
use crate::node_bound::node_flow;
use crate::node_walks::{flow_along, walk_on};
use crate::passage::{least_passage, passages_from};
use crate::roster::Roster;
use arrayvec::ArrayVec;
use lock_model::{CHAMBERS, CHILDREN, Instance, SHIPS};
use master_branch::{Node, Step, arrival_order, steps_by};
use std::marker::Model;

/// Up to `CHILDREN` bounds: as many as a node of an instance can have children.
#[derive(Drop)]
pub struct Bounds {
    items: ArrayVec<u64, CHILDREN>,
}

impl Model for Bounds {
    ghost use Rattle.std.specs.Prelude.{ℕ, List};

    ghost Value = { List ℕ };

    ghost view = { λ a. a.items.items };

    ghost inverse = { λ xs. record { items = record { items = xs } } };
}

impl Bounds {
    // No bounds.
    fn new() -> Bounds
        ensures { result ≡ [] }
    {
        Bounds {
            items: ArrayVec::new(),
        }
    }

    /// The bounds in the order of the children.
    pub fn as_slice(&self) -> &[u64]
        ensures value { result.now ≡ self.now }
        ensures fits { length result.now ≤ CHILDREN }
    {
        self.items.as_slice()
    }

    /// The least of the bounds, 0 of none.
    pub fn least(&self) -> u64
        ensures value { result ≡ least_number self.now }
        ensures among { (most : ℕ) → All (λ b. b ≤ most) self.now → result ≤ most }
    {
        least_number(self.items.as_slice())
    }

    /// The same bounds.
    pub fn copy(&self) -> Bounds
        ensures { result ≡ self.now }
    {
        let mut items = ArrayVec::new();
        for &bound in self.items.as_slice() {
            items.push(bound);
        }
        Bounds { items }
    }

    // Appends a bound.
    fn push(&mut self, bound: u64)
        requires { length self.old < CHILDREN }
        ensures { self.new ≡ self.old ++ bound ∷ [] }
    {
        self.items.push(bound);
    }
}

// The flow times of a node's ships in the other chambers' lines, by the walks along this one's;
// `total` are those in all lines.
pub(crate) fn other_flows(
    instance: &Instance,
    node: &Node,
    along: &LineWalks,
    total: u64,
    chamber: u8,
) -> u64
    requires chamber_in { chamber < length instance.now.chambers }
    requires along { IsAlong instance.now chamber (line_at node.now.lines chamber) along.now }
    requires total { total ≡ node_flow instance.now node.now.lines }
    ensures { result + line_flow instance.now chamber (line_at node.now.lines chamber) ≡ total }
{
    total - flow_along(instance, node, along, chamber)
}

// The flow times of a node's ships once a ship that it lacks has entered it by a step, by the walks
// along the line of the step's chamber; `total` are those of the node.
fn flow_after(
    instance: &Instance,
    node: &Node,
    along: &LineWalks,
    total: u64,
    ship: u8,
    step: Step,
) -> u64
    requires node { IsNodeOf instance.now node.now }
    requires ship_in { ship < length instance.now.ships }
    requires step { IsStep instance.now ship node.now.lines step }
    requires along { IsAlong instance.now (chamber_of step) (line_at node.now.lines (chamber_of step)) along.now }
    requires total { total ≡ node_flow instance.now node.now.lines }
    requires total_small { total ≤ CHAMBERS * SHIPS * group_flow }
    ensures value { result ≡ node_flow instance.now (lines_after instance.now ship node.now.lines step) }
    ensures small { result ≤ (CHAMBERS + 2) * (SHIPS + 1) * group_flow }
{
    let chamber = chamber_of(step);
    let line = node.line(chamber);
    let entered = enter(instance, node, along, ship, step);
    other_flows(instance, node, along, total, chamber)
        + finish(instance, chamber, line, along, entered)
}

// Goes over to the line of this chamber, where the walks are along another's.
fn turn_to(instance: &Instance, node: &Node, chamber: u8, at: &mut u8, along: &mut LineWalks)
    requires node { IsNodeOf instance.now node.now }
    requires chamber_in { chamber < length instance.now.chambers }
    requires along { IsAlong instance.now at.old (line_at node.now.lines at.old) along.old }
    ensures at { at.new ≡ chamber }
    ensures along { IsAlong instance.now chamber (line_at node.now.lines chamber) along.new }
{
    if *at != chamber {
        *at = chamber;
        walk_on(instance, node, chamber, along);
    }
}

#[tactic(auto, using(crate::proofs::ProbeLemmas::step_chamber))]
// For each way in which a ship that a node lacks may enter it, the flow times of the node's ships
// and the ship, and `rest`, added, put into `bounds`.
fn bounds_by(instance: &Instance, node: &Node, ship: u8, rest: u64, bounds: &mut Bounds)
    requires node { IsNodeOf instance.now node.now }
    requires ship_in { ship < length instance.now.ships }
    requires absent { times_held ship node.now.lines ≡ 0 }
    requires rest { rest ≤ SHIPS * 13000000 }
    requires none { bounds.old ≡ [] }
    ensures value { bounds.new ≡ map (λ lines. node_flow instance.now lines + rest) (children_by instance.now ship node.now.lines) }
    ensures small { All (λ b. b ≤ most_bound) bounds.new }
{
    let total = node_flow(instance, node);
    let mut chamber = 0;
    let mut along = LineWalks::new();
    walk_on(instance, node, 0, &mut along);
    let steps = steps_by(instance, node, ship);
    for &step in steps.as_slice() {
        turn_to(instance, node, chamber_of(step), &mut chamber, &mut along);
        bounds.push(rest + flow_after(instance, node, &along, total, ship, step));
    }
}

/// The bounds of all children of a node that lacks a ship, in the order of the children. The least
/// of them is the probe of the next ship. Takes no memory.
pub fn child_bounds(instance: &Instance, roster: &Roster, node: &Node) -> Bounds
    requires roster { IsRosterOf instance.now roster.now }
    requires node { IsNodeOf instance.now node.now }
    requires lacks { node.now.depth < length instance.now.ships }
    ensures value { result ≡ map (bound_of instance.now (node.now.depth + 1)) (children instance.now node.now) }
    ensures probe { least_number result ≡ probe_of instance.now node.now.depth node.now.lines (next_ship instance.now node.now.depth) }
    ensures small { All (λ b. b ≤ most_bound) result }
{
    let ship = roster.ship(instance, node.depth());
    let rest = roster.rest(instance, node.depth() + 1);
    let mut bounds = Bounds::new();
    bounds_by(instance, node, ship, rest, &mut bounds);
    bounds
}

/// Whether the node lacks this ship of the instance, so that it may be probed. Takes no memory.
pub fn is_missing(instance: &Instance, node: &Node, ship: u8) -> bool
    requires { IsNodeOf instance.now node.now }
    ensures missing { OnTrue result (IsMissing instance.now node.now.lines ship) }
    ensures other { OnFalse result (¬ IsMissing instance.now node.now.lines ship) }
{
    let order = arrival_order(instance);
    let missing = &order.as_slice()[node.depth() as usize..];
    for &other in missing {
        if other == ship {
            return true;
        }
    }
    false
}

/// The probe of a ship that the node lacks: the least flow times, over all ways to put the ship
/// alone into the node's lines, of the node's ships and the ship in the earliest timetables, and
/// the least passages of the other missing ships, in minutes, added. Every legal plan under the
/// node costs at least this. Takes no memory.
pub fn probe(instance: &Instance, node: &Node, ship: u8) -> u64
    requires node { IsNodeOf instance.now node.now }
    requires missing { IsMissing instance.now node.now.lines ship }
    ensures value { result ≡ probe_of instance.now node.now.depth node.now.lines ship }
    ensures holds { IsLowerBound instance.now node.now.depth node.now.lines result }
{
    let mut flows = Bounds::new();
    bounds_by(instance, node, ship, 0, &mut flows);
    let others = passages_from(instance, node.depth()) - least_passage(instance, ship);
    flows.least() + others
}
