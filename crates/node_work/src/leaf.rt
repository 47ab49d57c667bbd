//! The plan of a node that holds all ships.
ghost use Rattle.std.specs.Prelude.{◌≡◌, ◌+◌, ◌<◌, ◌≤◌, ◌++◌, length, All};
ghost use Rattle.lock_rules.specs.Plan.{IsLegal, cost_of};
ghost use Rattle.lock_rules.specs.Bound.{bound_of};
ghost use Rattle.lock_rules.specs.Leaf.{lockages_on, plan_of};
ghost use Rattle.master_branch.specs.Node.{IsNodeOf};
ghost use Rattle.node_work.specs.Moorings.{AreMoored, spots_by};

use crate::moorings::Moorings;
use chamber_times::earliest;
use lock_model::{Group, Instance, Lockage, Lockages, Plan, SHIPS};
use master_branch::Node;

// Appends the lockages of a chamber's line at the earliest.
fn append_line(
    instance: &Instance,
    chamber: u8,
    line: &[Group],
    moorings: &Moorings,
    lockages: &mut Lockages,
)
    requires chamber_in { chamber < length instance.now.chambers }
    requires ships_in { All (λ g. All (λ s. s < length instance.now.ships) g.ships) line.now }
    requires room { length lockages.old + length line.now ≤ SHIPS }
    ensures value { lockages.new ≡ lockages.old ++ lockages_on instance.now chamber (spots_by moorings.now chamber) line.now }
{
    let times = earliest(instance, chamber, line);
    let times = times.as_slice();
    for i in 0..line.len() {
        let group = &line[i];
        lockages.push(Lockage {
            chamber,
            way: group.way,
            ships: group.ships.copy(),
            start: times[i].0 as u32,
            spots: moorings.spots(chamber, &group.ships),
        });
    }
}

/// The plan of a node that holds all ships, at the earliest, with these moorings: it is legal, and
/// costs the node's bound. Each group of the node has a mooring, and the moorings are legal. Takes
/// no memory.
pub fn leaf_plan(instance: &Instance, node: &Node, moorings: &Moorings) -> Plan
    requires node { IsNodeOf instance.now node.now }
    requires whole { node.now.depth ≡ length instance.now.ships }
    requires moored { AreMoored instance.now moorings.now node.now.lines }
    ensures plan { result ≡ plan_of instance.now (spots_by moorings.now) node.now.lines }
    ensures legal { IsLegal instance.now result }
    ensures cost { cost_of instance.now result ≡ bound_of instance.now node.now.depth node.now.lines }
{
    let mut lockages = Lockages::new();
    for chamber in 0..instance.chambers.as_slice().len() as u8 {
        append_line(
            instance,
            chamber,
            node.line(chamber),
            moorings,
            &mut lockages,
        );
    }
    Plan { lockages }
}
