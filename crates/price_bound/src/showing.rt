//! Nodes that are shown to reach a cost.
ghost use Rattle.std.specs.Prelude.{◌≡◌, ◌↔◌, min, IfOk, IfSome, IsSome};
ghost use Rattle.lock_rules.specs.Node.{root};
ghost use Rattle.master_branch.specs.Node.{IsNodeOf};
ghost use Rattle.price_terms.specs.Claim.{IsReached};
ghost use Rattle.price_bound.specs.Asked.{claimed};

use crate::keeping::KeptLines;
use crate::priced_node::PricedNode;
use crate::reaching::reaches;
use master_branch::Node;
use price_terms::{Limits, PriceError, Shown};

/// Shows that a node reaches a cost, in minutes, by prices and cuts: `None` exactly where it doesn't.
/// Refuses as `reaches` does.
pub fn show<'a>(
    kept: &mut KeptLines,
    asked: &PricedNode<'a>,
    cost: u64,
    limits: Limits,
) -> Result<Option<Shown<'a>>, PriceError>
    ensures exact { IfOk result (λ shown. IsSome shown ↔ IsReached (claimed asked.now cost)) }
    ensures value { IfOk result (λ shown. IfSome shown (λ s. s ≡ claimed asked.now cost)) }
{
    if reaches(kept, asked, cost, limits)? {
        Ok(Some(Shown::new(asked.instance, asked.node, asked.prices, asked.cuts, cost)))
    } else {
        Ok(None)
    }
}

/// What was shown of the root holds of each node of the instance, up to the cost that was shown, in
/// minutes: a node's loose lines are loose lines of the root too, and its own ships pay the same in both.
pub fn shown_below<'a>(shown: &'a Shown<'_>, node: &'a Node, cost: u64) -> Shown<'a>
    requires root { shown.now.node ≡ root }
    requires node { IsNodeOf shown.now.instance node.now }
    ensures { result ≡ record shown.now { node = node.now; cost = min cost shown.now.cost } }
{
    let cost = cost.min(shown.cost());
    Shown::new(shown.instance(), node, shown.prices(), shown.cuts(), cost)
}
