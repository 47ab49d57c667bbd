//! A node with the probe of the ship that it lacks first.
ghost use Rattle.std.specs.Prelude.{◌≡◌, ◌<◌, length};
ghost use Rattle.lock_rules.specs.Arrival.{next_ship};
ghost use Rattle.lock_rules.specs.Bound.{probe_of};
ghost use Rattle.master_branch.specs.Node.{IsNodeOf};

use lock_model::Instance;
use master_branch::Node;

/// A node of an instance, which lacks a ship, and the least bound of its children in minutes: the
/// probe of the ship that it lacks first.
#[derive(Clone, Copy)]
pub struct Probed<'n> {
    pub instance: &'n Instance,
    pub node: &'n Node,
    pub least: u64,
    pub ghost node_is: { IsNodeOf instance.now node.now },
    pub ghost lacks: { node.now.depth < length instance.now.ships },
    pub ghost least_is: { least ≡ probe_of instance.now node.now.depth node.now.lines (next_ship instance.now node.now.depth) },
}
