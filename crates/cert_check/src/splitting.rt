//! A node that is split, and what is asked of its children.
ghost use Rattle.std.specs.Prelude.{◌≡◌, ◌+◌, ◌<◌, ◌≤◌, ◌↔◌, length, slice_get, Some, IsTrue};
ghost use Rattle.lock_rules.specs.Bound.{bound_of};
ghost use Rattle.master_branch.specs.Node.{IsNodeOf, children, child_lines};
ghost use Rattle.cert_check.specs.Splitting.{IsSplit, child_bound};

use crate::claim::Claim;
use flow_bounds::{NodeWalks, Reached, children_reaching};
use master_branch::{Node, Steps, steps_by, take_step};

// A node whose children are read: the ship that it lacks first, the steps by which that ship enters
// it, listed once for all children, and which of their bounds reach the cost.
#[derive(Drop)]
pub(crate) struct SplitNode<'n> {
    node: &'n Node,
    ship: u8,
    steps: Steps,
    reached: Reached,
}

// A node that is split, ready for its children. Inlined, what it needs would be on the stack for each node on the
// way to the deepest leaf.
#[inline(never)]
pub(crate) fn split<'n>(claim: &Claim, node: &'n Node, walks: &mut NodeWalks) -> SplitNode<'n>
    requires node { IsNodeOf claim.now.instance.now node.now }
    requires lacks { node.now.depth < length claim.now.instance.now.ships }
    ensures split { IsSplit claim.now result }
    ensures node { result.node.now ≡ node.now }
{
    let instance = claim.instance;
    let ship = claim.roster.ship(instance, node.depth());
    let steps = steps_by(instance, node, ship);
    let reached = children_reaching(instance, claim.roster, node, &steps, claim.cost, walks);
    SplitNode {
        node,
        ship,
        steps,
        reached,
    }
}

// How many children a split node has.
pub(crate) fn count_children(claim: &Claim, parent: &SplitNode<'_>) -> u32
    requires { IsSplit claim.now parent.now }
    ensures { result ≡ length (children claim.now.instance.now parent.now.node.now) }
{
    let _ = claim;
    parent.steps.as_slice().len() as u32
}

// Whether the bound of child `i` of a split node reaches the cost.
pub(crate) fn child_reaches(claim: &Claim, parent: &SplitNode<'_>, i: u32) -> bool
    requires split { IsSplit claim.now parent.now }
    requires within { i < length (children claim.now.instance.now parent.now.node.now) }
    ensures { IsTrue result ↔ (claim.now.cost ≤ child_bound claim.now parent.now.node.now i) }
{
    let _ = claim;
    parent.reached.as_slice()[i as usize]
}

// Child `i` of a split node, made for it.
pub(crate) fn child_of(claim: &Claim, parent: &SplitNode<'_>, i: u32) -> Node
    requires split { IsSplit claim.now parent.now }
    requires within { i < length (children claim.now.instance.now parent.now.node.now) }
    ensures depth { result.depth ≡ parent.now.node.now.depth + 1 }
    ensures lines { slice_get (children claim.now.instance.now parent.now.node.now) i ≡ Some result.lines }
    ensures node { IsNodeOf claim.now.instance.now result }
{
    let step = parent.steps.as_slice()[i as usize];
    let mut child = parent.node.copy();
    take_step(claim.instance, &mut child, parent.ship, step);
    child
}
