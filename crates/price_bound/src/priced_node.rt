//! What is asked of a node.
ghost use Rattle.master_branch.specs.Node.{IsNodeOf};

use lock_model::Instance;
use master_branch::Node;
use price_terms::{ChamberCut, Prices};

/// A node of an instance, prices and cuts.
#[derive(Drop)]
pub struct PricedNode<'a> {
    pub instance: &'a Instance,
    pub node: &'a Node,
    pub prices: &'a Prices,
    pub cuts: &'a [ChamberCut],
    pub ghost is: { IsNodeOf instance.now node.now },
}
