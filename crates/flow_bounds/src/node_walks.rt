//! The walks along all lines of a node.
ghost use Rattle.std.specs.Prelude.{◌≡◌, ◌≢◌, ◌*◌, ◌<◌, ◌≤◌, ℕ, length};
ghost use Rattle.lock_rules.specs.Node.{line_at};
ghost use Rattle.lock_rules.specs.Bound.{line_flow, node_flow};
ghost use Rattle.master_branch.specs.Node.{IsNodeOf};
ghost use Rattle.flow_bounds.specs.Along.{IsAlong, along_at, AreAlong};
ghost use Rattle.flow_bounds.specs.Most.{group_flow};

use crate::line_walks::{LineWalks, walk_along};
use lock_model::{CHAMBERS, Instance, SHIPS};
use master_branch::Node;

/// Room for the walks along the lines of a node. It is made once and filled for node after node,
/// since clearing it takes about as long as filling it.
#[derive(Drop)]
pub struct NodeWalks {
    pub(crate) lines: [LineWalks; CHAMBERS],
}

impl NodeWalks {
    /// Along no lines yet. Takes no memory.
    pub fn new() -> NodeWalks {
        NodeWalks {
            lines: [
                LineWalks::new(),
                LineWalks::new(),
                LineWalks::new(),
                LineWalks::new(),
            ],
        }
    }
}

// Walks along the line of a chamber of a node.
pub(crate) fn walk_on(instance: &Instance, node: &Node, chamber: u8, along: &mut LineWalks)
    requires node { IsNodeOf instance.now node.now }
    requires chamber_in { chamber < length instance.now.chambers }
    ensures { IsAlong instance.now chamber (line_at node.now.lines chamber) along.new }
{
    walk_along(instance, chamber, node.line(chamber), along);
}

// Walks along one of a node's lines.
fn walk_one(instance: &Instance, node: &Node, chamber: u8, walks: &mut NodeWalks)
    requires node { IsNodeOf instance.now node.now }
    requires chamber_in { chamber < length instance.now.chambers }
    ensures own { IsAlong instance.now chamber (line_at node.now.lines chamber) (along_at walks.new chamber) }
    ensures others { (k : ℕ) → k ≢ chamber → along_at walks.new k ≡ along_at walks.old k }
{
    walk_on(instance, node, chamber, &mut walks.lines[chamber as usize]);
}

// The flow times of the ships of one of a node's lines, by the walks along it.
pub(crate) fn flow_along(instance: &Instance, node: &Node, along: &LineWalks, chamber: u8) -> u64
    requires chamber_in { chamber < length instance.now.chambers }
    requires along { IsAlong instance.now chamber (line_at node.now.lines chamber) along.now }
    ensures flow { result ≡ line_flow instance.now chamber (line_at node.now.lines chamber) }
    ensures small { result ≤ SHIPS * group_flow }
{
    let _ = instance;
    let groups = node.line(chamber).len();
    along.walks[groups].flow
}

// Walks along all lines of a node: the flow times of its ships.
pub(crate) fn walk_all(instance: &Instance, node: &Node, walks: &mut NodeWalks) -> u64
    requires { IsNodeOf instance.now node.now }
    ensures along { AreAlong instance.now node.now.lines walks.new }
    ensures flow { result ≡ node_flow instance.now node.now.lines }
{
    let mut total = 0;
    for chamber in 0..instance.chambers.as_slice().len() as u8 {
        walk_one(instance, node, chamber, walks);
        total += flow_along(instance, node, &walks.lines[chamber as usize], chamber);
    }
    total
}
