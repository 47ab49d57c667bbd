//! Cheaper plans, sought by beams at the root.
ghost use Rattle.master_branch.specs.Node.{IsNodeOf};
ghost use Rattle.price_search.specs.Holding.{Stays};

use crate::desk::RootDesk;
use crate::placing::UncutGroups;
use crate::pricing::RootPricing;
use crate::sweeping::place;
use placed_groups::Memory;
use price_search::InHand;

// The most beams at the root.
const MOST_BEAMS: u32 = 3;

// Seeks a cheaper plan by a beam, and places it. Whether another beam may find a cheaper one: where it gave cuts and
// costs more than its uncut groups do.
fn beam_once<D: RootDesk>(
    desk: &D,
    hand: &mut D::Hand,
    memory: &mut Memory,
    root: &mut RootPricing,
    held: &InHand<'_>,
) -> Result<bool, D::Stop>
    requires serves { D.serves desk.now hand.old }
    requires node { IsNodeOf (D.instance desk.now) held.now.node.now }
    ensures serves { D.serves desk.now hand.new }
    ensures holds { Stays (D.holds desk.now held.now) hand.old hand.new }
{
    let best = desk.best_cost(hand, held);
    if !root.may_beam(best) {
        return Ok(false);
    }
    desk.learn(hand, &mut root.pricing, held)?;
    let Some(plan) = root.beam(desk.alloc(), desk.instance(), best) else {
        return Ok(false);
    };
    let cost = plan.cost;
    let is_new = place(desk, hand, memory, held, UncutGroups::Plan(plan))?;
    Ok(is_new && desk.best_cost(hand, held) > cost)
}

/// Seeks cheaper plans by beams, where the gap is wide between what the root of many ships reaches and the best
/// cost: the nearer that is, the fewer labels a sweep takes.
#[inline(never)]
pub(crate) fn beam_root<D: RootDesk>(
    desk: &D,
    hand: &mut D::Hand,
    memory: &mut Memory,
    root: &mut RootPricing,
    held: &InHand<'_>,
) -> Result<(), D::Stop>
    requires serves { D.serves desk.now hand.old }
    requires node { IsNodeOf (D.instance desk.now) held.now.node.now }
    ensures serves { D.serves desk.now hand.new }
    ensures holds { Stays (D.holds desk.now held.now) hand.old hand.new }
{
    for _ in 0..MOST_BEAMS {
        if !beam_once(desk, hand, memory, root, held)? {
            return Ok(());
        }
    }
    Ok(())
}
