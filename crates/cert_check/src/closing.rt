//! Which marks end a node: those that close it, and open leaves.
ghost use Rattle.std.specs.Prelude.{◌≡◌, ◌<◌, ◌≤◌, ◌↔◌, length, IsTrue, IfOk};
ghost use Rattle.std.specs.Bool.{OnTrue};
ghost use Rattle.lock_rules.specs.Bound.{probe_of};
ghost use Rattle.master_branch.specs.Node.{IsNodeOf};
ghost use Rattle.lock_rules.specs.Arrival.{next_ship};
ghost use Rattle.certificate_rules.specs.Certificates.{IsCutBy};
ghost use Rattle.certificate_rules.specs.Failures.{ground_reason, reason_of};
ghost use Rattle.cert_check.specs.Reading.{Ends};

use crate::claim::Claim;
use crate::hitting::hits_node;
use crate::room::PRICE_ROOM;
use crate::swept::is_swept_by;
use crate::workspace::Workspace;
use certificate_rules::{Mark, Reason};
use closing_rules::Ground;
use flow_bounds::{bound, children_reaching, is_missing, probe};
use master_branch::{Node, steps_by};
use no_memory::NoMemory;
use price_bound::{PricedNode, reaches};
use price_terms::Prices;

// Whether there is a cut of this number, and it hits a group of the node.
fn is_cut_by(claim: &Claim, node: &Node, number: u64) -> bool
    ensures { IsTrue result ↔ IsCutBy claim.now.instance.now claim.now.cuts.now number node.now.lines }
{
    number < claim.cuts.len() as u64
        && hits_node(claim.instance, &claim.cuts[number as usize], node)
}

// Whether this is the ship that the node lacks first.
fn is_next(claim: &Claim, node: &Node, ship: u8) -> bool
    ensures lacks { OnTrue result (node.now.depth < length claim.now.instance.now.ships) }
    ensures next { OnTrue result (ship ≡ next_ship claim.now.instance.now node.now.depth) }
{
    (node.depth() as usize) < claim.instance.ships.as_slice().len()
        && claim.roster.ship(claim.instance, node.depth()) == ship
}

// Whether the bounds of all children of a node reach the cost; `ship` is the one that it lacks first.
fn all_reach(claim: &Claim, node: &Node, ship: u8, space: &mut Workspace) -> bool
    requires node { IsNodeOf claim.now.instance.now node.now }
    requires lacks { node.now.depth < length claim.now.instance.now.ships }
    requires next { ship ≡ next_ship claim.now.instance.now node.now.depth }
    ensures { IsTrue result ↔ (claim.now.cost ≤ probe_of claim.now.instance.now node.now.depth node.now.lines ship) }
{
    let steps = steps_by(claim.instance, node, ship);
    children_reaching(
        claim.instance,
        claim.roster,
        node,
        &steps,
        claim.cost,
        &mut space.walks,
    )
    .all()
}

// Whether the node lacks this ship, and its probe reaches the cost. Of the ship that it lacks first
// the roster spares work, and nearly all that are asked for are that one.
fn is_probed(claim: &Claim, node: &Node, ship: u8, space: &mut Workspace) -> bool
    requires { IsNodeOf claim.now.instance.now node.now }
    ensures { IsTrue result ↔ Ends claim.now node.now.depth node.now.lines (Mark.Leaf (Ground.Probe ship)) }
{
    if is_next(claim, node, ship) {
        return all_reach(claim, node, ship, space);
    }
    is_missing(claim.instance, node, ship) && probe(claim.instance, node, ship) >= claim.cost
}

// Whether there are prices of this number, and the node reaches the cost by them and the cuts. Inlined, its copy
// of them would be on the stack while a sweep goes on.
#[inline(never)]
fn is_priced_by(
    claim: &Claim,
    node: &Node,
    number: u64,
    space: &mut Workspace,
) -> Result<bool, NoMemory>
    requires { IsNodeOf claim.now.instance.now node.now }
    ensures { IfOk result (λ priced. IsTrue priced ↔ Ends claim.now node.now.depth node.now.lines (Mark.Leaf (Ground.Price number))) }
{
    if number >= claim.prices.len() as u64 {
        return Ok(false);
    }
    let prices = claim.prices[number as usize].prices();
    let asked = PricedNode {
        instance: claim.instance,
        node,
        prices: &prices,
        cuts: claim.chamber_cuts,
    };
    match reaches(&mut space.kept, &asked, claim.cost, PRICE_ROOM) {
        Ok(reached) => Ok(reached),
        Err(_) => Err(NoMemory),
    }
}

// Whether the node is closed so.
fn is_closed_by(
    claim: &Claim,
    node: &Node,
    why: Ground,
    space: &mut Workspace,
) -> Result<bool, NoMemory>
    requires { IsNodeOf claim.now.instance.now node.now }
    ensures { IfOk result (λ closed. IsTrue closed ↔ Ends claim.now node.now.depth node.now.lines (Mark.Leaf why)) }
{
    match why {
        Ground::Bound => Ok(bound(claim.instance, node) >= claim.cost),
        Ground::Throughput => Ok(claim.throughput >= claim.cost),
        Ground::Probe(ship) => Ok(is_probed(claim, node, ship, space)),
        Ground::Cut(number) => Ok(is_cut_by(claim, node, number)),
        Ground::Price(number) => is_priced_by(claim, node, number, space),
        Ground::Swept(number) => is_swept_by(space.alloc, claim, node, number),
    }
}

// Whether a mark ends the node: it closes it, or leaves it open, by prices that are there where it
// names some. Refuses want of memory alone, and only of a price mark and of one that tells of a sweep. Inlined,
// what it needs would be on the stack for each node on the way to the deepest leaf.
#[inline(never)]
pub(crate) fn ends(
    claim: &Claim,
    node: &Node,
    mark: Mark,
    space: &mut Workspace,
) -> Result<bool, NoMemory>
    requires { IsNodeOf claim.now.instance.now node.now }
    ensures { IfOk result (λ ended. IsTrue ended ↔ Ends claim.now node.now.depth node.now.lines mark) }
{
    match mark {
        Mark::Split => Ok(false),
        Mark::Leaf(why) => is_closed_by(claim, node, why, space),
        Mark::Open => Ok(true),
        Mark::OpenPriced(number) => Ok(number < claim.prices.len() as u64),
    }
}

// Why the node isn't closed so.
fn reason_by(why: Ground) -> Reason
    ensures { result ≡ ground_reason why }
{
    match why {
        Ground::Bound => Reason::BoundLow,
        Ground::Throughput => Reason::ThroughputLow,
        Ground::Probe(_) => Reason::ProbeWrong,
        Ground::Cut(_) => Reason::CutMisses,
        Ground::Price(_) => Reason::PriceLow,
        Ground::Swept(_) => Reason::SweptWrong,
    }
}

// Why a mark that should end a node doesn't; a split is wrong where no ship is lacking, an open leaf
// by prices where there are none of its number, and any other open leaf never.
pub(crate) fn reason_against(mark: Mark) -> Reason
    ensures { result ≡ reason_of mark }
{
    match mark {
        Mark::Split | Mark::Open => Reason::SplitFull,
        Mark::Leaf(why) => reason_by(why),
        Mark::OpenPriced(_) => Reason::SweptWrong,
    }
}
