//! What prices find at the root, carried out.
ghost use Rattle.master_branch.specs.Node.{IsNodeOf};
ghost use Rattle.price_search.specs.Holding.{Ends, was_closed};

use crate::desk::RootDesk;
use crate::ending::{AfterAscent, end_ascent};
use crate::pricing::RootPricing;
use placed_groups::Memory;
use price_search::{
    InHand, MOST_AT_A_NODE, RoundEnd, close_as_inherited, close_by, make_round, price,
};

// Makes rounds, ascent by ascent, until the root is closed or prices show no more; whether it was closed.
fn make_rounds<D: RootDesk>(
    desk: &D,
    hand: &mut D::Hand,
    memory: &mut Memory,
    root: &mut RootPricing,
    held: &InHand<'_>,
) -> Result<bool, D::Stop>
    requires serves { D.serves desk.now hand.old }
    requires node { IsNodeOf (D.instance desk.now) held.now.node.now }
    ensures serves { D.serves desk.now hand.new }
    ensures ends { Ends (D.holds desk.now held.now) (D.freed desk.now) hand.old hand.new (was_closed result) }
{
    for _ in 0..MOST_AT_A_NODE {
        match make_round(desk, hand, memory, &mut root.pricing, held)? {
            RoundEnd::Again => {}
            RoundEnd::Reached(prices) => {
                return close_by(desk, hand, &mut root.pricing, held, &prices);
            }
            RoundEnd::Open => match end_ascent(desk, hand, memory, root, held)? {
                AfterAscent::Closed => return Ok(true),
                AfterAscent::Ascend => {}
                AfterAscent::Split => return Ok(false),
            },
        }
    }
    Ok(false)
}

// Asks prices about the root, which is held; whether it was closed.
fn price_root<D: RootDesk>(
    desk: &D,
    hand: &mut D::Hand,
    memory: &mut Memory,
    root: &mut RootPricing,
    held: &InHand<'_>,
) -> Result<bool, D::Stop>
    requires serves { D.serves desk.now hand.old }
    requires node { IsNodeOf (D.instance desk.now) held.now.node.now }
    ensures serves { D.serves desk.now hand.new }
    ensures ends { Ends (D.holds desk.now held.now) (D.freed desk.now) hand.old hand.new (was_closed result) }
{
    if close_as_inherited(desk, hand, &mut root.pricing, held)? {
        return Ok(true);
    }
    make_rounds(desk, hand, memory, root, held)
}

/// Asks prices about the held node, and carries out what they find, as `price` of `price_search` does. The
/// root is closed too where the best cost is swept. Whether the slot was closed; else it is held still, also
/// where the desk stopped.
pub fn price_or_sweep<D: RootDesk>(
    desk: &D,
    hand: &mut D::Hand,
    memory: &mut Memory,
    root: &mut RootPricing,
    held: &InHand<'_>,
) -> Result<bool, D::Stop>
    requires serves { D.serves desk.now hand.old }
    requires node { IsNodeOf (D.instance desk.now) held.now.node.now }
    ensures serves { D.serves desk.now hand.new }
    ensures ends { Ends (D.holds desk.now held.now) (D.freed desk.now) hand.old hand.new (was_closed result) }
{
    if held.node.depth() == 0 {
        price_root(desk, hand, memory, root, held)
    } else {
        price(desk, hand, memory, &mut root.pricing, held)
    }
}
