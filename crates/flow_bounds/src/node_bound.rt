//! The bound of a node.
ghost use Rattle.std.specs.Prelude.{◌≡◌, ◌+◌, ◌*◌, ◌≤◌};
ghost use Rattle.lock_rules.specs.Bound.{node_flow, bound_of, IsLowerBound};
ghost use Rattle.master_branch.specs.Node.{IsNodeOf};
ghost use Rattle.flow_bounds.specs.Whole.{IsWholeCost};
ghost use Rattle.flow_bounds.specs.Most.{group_flow};

use crate::passage::passages_from;
use crate::walk::line_flow;
use lock_model::{CHAMBERS, Instance, SHIPS};
use master_branch::Node;

// The flow times of a node's ships in the earliest timetables of its lines, added.
pub(crate) fn node_flow(instance: &Instance, node: &Node) -> u64
    requires { IsNodeOf instance.now node.now }
    ensures value { result ≡ node_flow instance.now node.now.lines }
    ensures small { result ≤ CHAMBERS * SHIPS * group_flow }
{
    let mut sum = 0;
    for chamber in 0..instance.chambers.as_slice().len() as u8 {
        sum += line_flow(instance, chamber, node.line(chamber));
    }
    sum
}

/// The flow times of a node's ships in the earliest timetables of its lines, and the least
/// passages of the missing ships, in minutes, added: every legal plan under the node costs at
/// least this. At a node that holds all ships it is the cost of its earliest timetable. Takes no
/// memory.
pub fn bound(instance: &Instance, node: &Node) -> u64
    requires node { IsNodeOf instance.now node.now }
    ensures value { result ≡ bound_of instance.now node.now.depth node.now.lines }
    ensures holds { IsLowerBound instance.now node.now.depth node.now.lines result }
    ensures whole { IsWholeCost instance.now node.now.depth node.now.lines result }
    ensures small { result ≤ (CHAMBERS + 1) * SHIPS * group_flow }
{
    node_flow(instance, node) + passages_from(instance, node.depth())
}
