//! Nodes by the path that leads to them.
ghost use Rattle.std.specs.Prelude.{IfSome};
ghost use Rattle.master_branch.specs.Node.{IsNodeOf};

use lock_model::Instance;
use master_branch::{Node, child, child_count, root};

/// Child number `i` of a node, if it has so many.
pub(crate) fn child_at(instance: &Instance, node: &Node, i: u32) -> Option<Node>
    requires { IsNodeOf instance.now node.now }
    ensures { IfSome result (λ child. IsNodeOf instance.now child) }
{
    if node.depth() as usize >= instance.ships.as_slice().len() {
        return None;
    }
    if i >= child_count(instance, node) {
        return None;
    }
    Some(child(instance, node, i))
}

/// The node at the end of a path of children from the root.
pub(crate) fn node_at(instance: &Instance, path: &[u32]) -> Option<Node>
    ensures { IfSome result (λ node. IsNodeOf instance.now node) }
{
    let mut node = root(instance);
    for &i in path {
        node = child_at(instance, &node, i)?;
    }
    Some(node)
}
