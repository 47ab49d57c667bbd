//! The root, swept.
ghost use Rattle.master_branch.specs.Node.{IsNodeOf};
ghost use Rattle.price_search.specs.Holding.{Stays, Ends, was_closed};
ghost use Rattle.root_pricing.specs.Ending.{was_ended};

use crate::desk::RootDesk;
use crate::goals::{Goals, Rise};
use crate::placing::UncutGroups;
use crate::pricing::RootPricing;
use placed_groups::Memory;
use price_search::{InHand, carry_out};
use price_terms::{Prices, Swept};
use sweep::{SweepEnd, SweepOutcome};
use sweep_labels::KeptLabel;

// The most sweeps at the root.
const MOST_SWEEPS: u32 = 200;

/// What becomes of the root after a sweep.
#[derive(Clone, Copy)]
pub(crate) enum AfterSweep {
    /// It was closed.
    Closed,
    /// Another sweep may show more.
    Again,
    /// Sweeps show no more.
    Open,
}

// Closes the held root, of which it was shown by these prices that the best cost is swept.
fn close_swept<D: RootDesk>(
    desk: &D,
    hand: &mut D::Hand,
    held: &InHand<'_>,
    prices: &Prices,
    swept: &Swept<'_>,
) -> Result<AfterSweep, D::Stop>
    requires serves { D.serves desk.now hand.old }
    ensures serves { D.serves desk.now hand.new }
    ensures ends { Ends (D.holds desk.now held.now) (D.freed desk.now) hand.old hand.new (was_ended result) }
{
    let Some(number) = desk.post_prices(hand, held, prices)? else {
        return Ok(AfterSweep::Open);
    };
    if desk.close_swept(hand, held, number, swept) {
        Ok(AfterSweep::Closed)
    } else {
        Ok(AfterSweep::Open)
    }
}

/// Places uncut groups that a sweep or a beam found; whether that gave a better plan or new cuts.
pub(crate) fn place<D: RootDesk>(
    desk: &D,
    hand: &mut D::Hand,
    memory: &mut Memory,
    held: &InHand<'_>,
    groups: UncutGroups<'_>,
) -> Result<bool, D::Stop>
    requires serves { D.serves desk.now hand.old }
    requires node { IsNodeOf (D.instance desk.now) held.now.node.now }
    ensures serves { D.serves desk.now hand.new }
    ensures holds { Stays (D.holds desk.now held.now) hand.old hand.new }
{
    let found = desk.place(hand, memory, held, groups)?;
    let is_new = !found.is_empty();
    carry_out(desk, hand, held, found)?;
    Ok(is_new)
}

// The cost of an uncut plan, which was swept by these prices, and the labels that were made for it.
#[derive(Drop)]
struct PlanCost<'a, 'p> {
    swept: Swept<'a>,
    prices: &'p Prices,
    labels: Vec<KeptLabel>,
}

// What becomes of the held root once the uncut plan of a cost that was swept is placed: where it is the best
// plan, that closes it. Where nothing was new, the next sweep would find the same; else it finds no plan of
// groups that don't fit, as far as labels went on by them.
fn end_placed<D: RootDesk>(
    desk: &D,
    hand: &mut D::Hand,
    memory: &mut Memory,
    held: &InHand<'_>,
    cost: &PlanCost<'_, '_>,
    is_new: bool,
) -> Result<AfterSweep, D::Stop>
    requires serves { D.serves desk.now hand.old }
    requires node { IsNodeOf (D.instance desk.now) held.now.node.now }
    ensures serves { D.serves desk.now hand.new }
    ensures ends { Ends (D.holds desk.now held.now) (D.freed desk.now) hand.old hand.new (was_ended result) }
{
    if desk.best_cost(hand, held) == cost.swept.cost() {
        return close_swept(desk, hand, held, cost.prices, &cost.swept);
    }
    if !is_new {
        return Ok(AfterSweep::Open);
    }
    place(desk, hand, memory, held, UncutGroups::Steps(&cost.labels))?;
    Ok(AfterSweep::Again)
}

// Sweeps the best cost, and carries out what that shows.
fn sweep_once<D: RootDesk>(
    desk: &D,
    hand: &mut D::Hand,
    memory: &mut Memory,
    root: &mut RootPricing,
    held: &InHand<'_>,
    goals: &mut Goals,
) -> Result<AfterSweep, D::Stop>
    requires serves { D.serves desk.now hand.old }
    requires node { IsNodeOf (D.instance desk.now) held.now.node.now }
    ensures serves { D.serves desk.now hand.new }
    ensures ends { Ends (D.holds desk.now held.now) (D.freed desk.now) hand.old hand.new (was_ended result) }
{
    desk.learn(hand, &mut root.pricing, held)?;
    goals.best = desk.best_cost(hand, held);
    let prices = root.pricing.best().copy();
    let Some(
        SweepOutcome {
            end,
            last: labels,
            ..
        },
    ) = root.sweep(desk.alloc(), desk.instance(), &prices, goals)
    else {
        return Ok(AfterSweep::Open);
    };
    match end {
        None => {
            place(desk, hand, memory, held, UncutGroups::Steps(&labels))?;
            if goals.jump(labels.len()) {
                Ok(AfterSweep::Again)
            } else {
                Ok(AfterSweep::Open)
            }
        }
        Some(SweepEnd::Swept(swept)) => close_swept(desk, hand, held, &prices, &swept),
        Some(SweepEnd::Cheaper { plan, swept }) => {
            goals.reached = swept.cost();
            let is_new = place(desk, hand, memory, held, UncutGroups::Plan(plan))?;
            let cost = PlanCost {
                swept,
                prices: &prices,
                labels,
            };
            end_placed(desk, hand, memory, held, &cost, is_new)
        }
    }
}

/// Sweeps costs from what the root reaches by its best prices up to the best cost, which closes it, as
/// far as labels are left and no cost takes more than so many; whether it was closed.
pub(crate) fn sweep_root<D: RootDesk>(
    desk: &D,
    hand: &mut D::Hand,
    memory: &mut Memory,
    root: &mut RootPricing,
    held: &InHand<'_>,
    labels: u64,
) -> Result<bool, D::Stop>
    requires serves { D.serves desk.now hand.old }
    requires node { IsNodeOf (D.instance desk.now) held.now.node.now }
    ensures serves { D.serves desk.now hand.new }
    ensures ends { Ends (D.holds desk.now held.now) (D.freed desk.now) hand.old hand.new (was_closed result) }
{
    let low = root.pricing.reached();
    let rise = if root.may_jump() {
        Rise::StepsFirst
    } else {
        Rise::Steps
    };
    let mut goals = Goals {
        low,
        reached: low,
        best: 0,
        labels,
        rise,
    };
    for _ in 0..MOST_SWEEPS {
        match sweep_once(desk, hand, memory, root, held, &mut goals)? {
            AfterSweep::Closed => return Ok(true),
            AfterSweep::Again => {}
            AfterSweep::Open => return Ok(false),
        }
    }
    Ok(false)
}
