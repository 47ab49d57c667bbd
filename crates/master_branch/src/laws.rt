//! Laws of the tree, as contracts.
ghost use Rattle.std.specs.Prelude.{◌≡◌, ◌≢◌, ◌<◌, ◌≤◌, ◌^◌, suc, length, All, AllPairs, IfSome};
ghost use Rattle.std.specs.Option.{SomeIff};
ghost use Rattle.lock_model.specs.declared.plan.Plan.{Plan as AnyPlan};
ghost use Rattle.lock_rules.specs.Plan.{IsLegal};
ghost use Rattle.lock_rules.specs.Node.{IsNode, root_lines};
ghost use Rattle.lock_rules.specs.Trace.{IsUnder};
ghost use Rattle.lock_rules.specs.Size.{nodes_from};
ghost use Rattle.master_branch.specs.Node.{IsNodeOf, children, node_limit_of};
ghost use Rattle.master_branch.specs.Split.{IsUnderOneChild};

use crate::node::Node;
use lock_model::Instance;

/// The children of a node that lacks a ship split the plans under it: they are nodes of the
/// instance, no two are equal, and each legal plan under the node lies under exactly one of them.
/// The call does nothing; its contract is the law.
pub fn children_split_plans(instance: &Instance, node: &Node)
    requires node { IsNodeOf instance.now node.now }
    requires lacks { node.now.depth < length instance.now.ships }
    ensures nodes { All (IsNode instance.now (suc node.now.depth)) (children instance.now node.now) }
    ensures differ { AllPairs (λ a b. a ≢ b) (children instance.now node.now) }
    ensures split { (P : AnyPlan) → IsLegal instance.now P → IsUnder instance.now node.now.depth node.now.lines P → IsUnderOneChild instance.now node.now P }
{
    let _ = instance;
    let _ = node;
}

/// N(n,m), for the n ships and m chambers of an instance: the sum over k = 0 to n of the product
/// over i = 1 to k of 2 (i - 1) + m; None exactly where that takes more than 128 bits. The tree from
/// the root has at most so many nodes. Takes no memory.
pub fn node_limit(instance: &Instance) -> Option<u128>
    ensures value { SomeIff result (node_limit_of instance.now < 2 ^ 128) (node_limit_of instance.now) }
    ensures law { IfSome result (λ limit. nodes_from instance.now (length instance.now.ships) 0 root_lines ≤ limit) }
{
    let chambers = instance.chambers.as_slice().len() as u128;
    let mut width: u128 = 1;
    let mut limit: u128 = 1;
    for depth in 0..instance.ships.as_slice().len() {
        let Some(wider) = width.checked_mul(2 * depth as u128 + chambers) else {
            return None;
        };
        let Some(more) = limit.checked_add(wider) else {
            return None;
        };
        width = wider;
        limit = more;
    }
    Some(limit)
}
