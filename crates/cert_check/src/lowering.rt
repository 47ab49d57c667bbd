//! What an open leaf leaves of a low.
ghost use Rattle.std.specs.Prelude.{◌<◌, length, IfOk};
ghost use Rattle.master_branch.specs.Node.{IsNodeOf};
ghost use Rattle.cert_check.specs.Reading.{Ends, IsLoweredBy, IsMostPriced};

use crate::claim::Claim;
use crate::room::PRICE_ROOM;
use crate::workspace::Workspace;
use certificate_rules::Mark;
use flow_bounds::bound;
use master_branch::Node;
use no_memory::NoMemory;
use price_bound::{PricedNode, greatest_cost};

// The greatest cost up to `most` that the node reaches by the prices of a number and the cuts; 0 where
// it reaches none.
fn most_priced(
    claim: &Claim,
    node: &Node,
    number: u64,
    most: u64,
    space: &mut Workspace,
) -> Result<u64, NoMemory>
    requires node { IsNodeOf claim.now.instance.now node.now }
    requires there { number < length claim.now.prices.now }
    ensures { IfOk result (IsMostPriced claim.now node.now.depth node.now.lines number most) }
{
    let prices = claim.prices[number as usize].prices();
    let asked = PricedNode {
        instance: claim.instance,
        node,
        prices: &prices,
        cuts: claim.chamber_cuts,
    };
    match greatest_cost(&mut space.kept, &asked, most, PRICE_ROOM) {
        Ok(cost) => Ok(cost),
        Err(_) => Err(NoMemory),
    }
}

// The greatest number up to `low` that the bound of the node or the prices of a number show. Prices
// aren't asked where the bound shows all of it.
fn lowered_by_prices(
    claim: &Claim,
    node: &Node,
    number: u64,
    low: u64,
    space: &mut Workspace,
) -> Result<u64, NoMemory>
    requires node { IsNodeOf claim.now.instance.now node.now }
    requires there { number < length claim.now.prices.now }
    ensures { IfOk result (IsLoweredBy claim.now node.now.depth node.now.lines (Mark.OpenPriced number) low) }
{
    let bound = bound(claim.instance, node);
    if bound >= low {
        return Ok(low);
    }
    let reached = most_priced(claim, node, number, low, space)?;
    Ok(bound.max(reached))
}

// The greatest number up to `low` that a mark which ends the node shows. Refuses want of memory alone,
// and only of an open leaf by prices. Inlined, what it needs would be on the stack for each node on the way to
// the deepest leaf.
#[inline(never)]
pub(crate) fn lowered(
    claim: &Claim,
    node: &Node,
    mark: Mark,
    low: u64,
    space: &mut Workspace,
) -> Result<u64, NoMemory>
    requires node { IsNodeOf claim.now.instance.now node.now }
    requires ends { Ends claim.now node.now.depth node.now.lines mark }
    ensures { IfOk result (IsLoweredBy claim.now node.now.depth node.now.lines mark low) }
{
    match mark {
        Mark::Split | Mark::Leaf(_) => Ok(low),
        Mark::Open => Ok(low.min(bound(claim.instance, node))),
        Mark::OpenPriced(number) => lowered_by_prices(claim, node, number, low, space),
    }
}
