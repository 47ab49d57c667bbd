//! Marks that tell of a sweep.
ghost use Rattle.std.specs.Prelude.{◌<◌, ◌↔◌, length, IsTrue, IfOk};
ghost use Rattle.cert_check.specs.Swept.{HasSweptCost, EndsSweep, EndsBySweep};

use crate::claim::Claim;
use crate::room::SWEEP_ROOM;
use master_branch::Node;
use no_memory::NoMemory;
use std::alloc::Global;
use sweep::{SweepAsked, SweepEnd, sweep};

// Whether a sweep of the certificate's cost found no uncut plan below it; refused where it ran out of labels.
fn ends_swept(claim: &Claim, end: &Option<SweepEnd>) -> Result<bool, NoMemory>
    requires { EndsSweep claim.now end.now }
    ensures { IfOk result (λ swept. IsTrue swept ↔ HasSweptCost claim.now) }
{
    match end {
        None => Err(NoMemory),
        Some(SweepEnd::Swept(swept)) => Ok(swept.cost() == claim.cost),
        Some(SweepEnd::Cheaper { .. }) => Ok(false),
    }
}

// Whether the cuts of the certificate leave no uncut plan below its cost. The prices of the number
// help speed alone. Inlined, its copy of them would be on the stack beside those by which a node is closed.
#[inline(never)]
fn is_cost_swept(alloc: Global, claim: &Claim, number: usize) -> Result<bool, NoMemory>
    requires { number < length claim.now.prices.now }
    ensures { IfOk result (λ swept. IsTrue swept ↔ HasSweptCost claim.now) }
{
    let prices = claim.prices[number].prices();
    let asked = SweepAsked {
        instance: claim.instance,
        cuts: claim.chamber_cuts,
        prices: &prices,
        low: claim.cost,
        first: claim.cost,
        goal: claim.cost,
    };
    match sweep(alloc, &asked, SWEEP_ROOM) {
        Ok(outcome) => ends_swept(claim, &outcome.end),
        Err(_) => Err(NoMemory),
    }
}

// Whether the node is the root, there are prices of this number, and the cost is swept.
pub(crate) fn is_swept_by(
    alloc: Global,
    claim: &Claim,
    node: &Node,
    number: u64,
) -> Result<bool, NoMemory>
    ensures { IfOk result (λ swept. IsTrue swept ↔ EndsBySweep claim.now number node.now.depth) }
{
    if node.depth() > 0 || number >= claim.prices.len() as u64 {
        return Ok(false);
    }
    is_cost_swept(alloc, claim, number as usize)
}
