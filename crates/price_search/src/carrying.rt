//! What prices find at the node in hand, carried out.
ghost use Rattle.master_branch.specs.Node.{IsNodeOf};
ghost use Rattle.price_search.specs.Holding.{Stays, Ends, was_closed};

use crate::desk::{Desk, InHand};
use crate::found::carry_out;
use crate::pricing::{MOST_AT_A_NODE, Pricing};
use crate::round::{Round, RoundEnd};
use placed_groups::Memory;
use price_terms::Prices;

/// Makes one round at the held node and carries out what it found; how it ended.
pub fn make_round<D: Desk>(
    desk: &D,
    hand: &mut D::Hand,
    memory: &mut Memory,
    pricing: &mut Pricing,
    held: &InHand<'_>,
) -> Result<RoundEnd, D::Stop>
    requires serves { D.serves desk.now hand.old }
    requires node { IsNodeOf (D.instance desk.now) held.now.node.now }
    ensures serves { D.serves desk.now hand.new }
    ensures holds { Stays (D.holds desk.now held.now) hand.old hand.new }
{
    desk.learn(hand, pricing, held)?;
    let Round { found, end } = desk.round(hand, memory, pricing, held)?;
    carry_out(desk, hand, held, found)?;
    Ok(end)
}

// The number of these prices in the book, which are posted unless it has them under a known number.
fn number_in_book<D: Desk>(
    desk: &D,
    hand: &mut D::Hand,
    held: &InHand<'_>,
    known: Option<u64>,
    prices: &Prices,
) -> Result<Option<u64>, D::Stop>
    requires serves { D.serves desk.now hand.old }
    ensures serves { D.serves desk.now hand.new }
    ensures holds { Stays (D.holds desk.now held.now) hand.old hand.new }
{
    match known {
        Some(number) => Ok(Some(number)),
        None => desk.post_prices(hand, held, prices),
    }
}

/// Closes the held slot by prices, where its node reaches the best cost by them and by the book's first
/// cuts; whether it was closed.
#[inline(never)]
pub fn close_by<D: Desk>(
    desk: &D,
    hand: &mut D::Hand,
    pricing: &mut Pricing,
    held: &InHand<'_>,
    prices: &Prices,
) -> Result<bool, D::Stop>
    requires serves { D.serves desk.now hand.old }
    requires node { IsNodeOf (D.instance desk.now) held.now.node.now }
    ensures serves { D.serves desk.now hand.new }
    ensures ends { Ends (D.holds desk.now held.now) (D.freed desk.now) hand.old hand.new (was_closed result) }
{
    let known = pricing.number_of(prices);
    let best = desk.best_cost(hand, held);
    let Some(shown) = pricing.show(desk.instance(), held.node, prices, best) else {
        return Ok(false);
    };
    let Some(number) = number_in_book(desk, hand, held, known, prices)? else {
        return Ok(false);
    };
    let closed = desk.close_shown(hand, held, number, &shown);
    if known.is_none() && pricing.posted(prices, number) {
        desk.tell_number(held, number);
    }
    Ok(closed)
}

// Makes rounds until the slot is closed or prices show no more; whether it was closed. A node that is split leaves
// its prices to the nodes below it.
fn make_rounds<D: Desk>(
    desk: &D,
    hand: &mut D::Hand,
    memory: &mut Memory,
    pricing: &mut Pricing,
    held: &InHand<'_>,
) -> Result<bool, D::Stop>
    requires serves { D.serves desk.now hand.old }
    requires node { IsNodeOf (D.instance desk.now) held.now.node.now }
    ensures serves { D.serves desk.now hand.new }
    ensures ends { Ends (D.holds desk.now held.now) (D.freed desk.now) hand.old hand.new (was_closed result) }
{
    for _ in 0..MOST_AT_A_NODE {
        match make_round(desk, hand, memory, pricing, held)? {
            RoundEnd::Again => {}
            RoundEnd::Reached(prices) => return close_by(desk, hand, pricing, held, &prices),
            RoundEnd::Open => {
                desk.leave(pricing, held)?;
                return Ok(false);
            }
        }
    }
    Ok(false)
}

/// Begins the held node with the prices of the node above it, which close most nodes; whether they do.
pub fn close_as_inherited<D: Desk>(
    desk: &D,
    hand: &mut D::Hand,
    pricing: &mut Pricing,
    held: &InHand<'_>,
) -> Result<bool, D::Stop>
    requires serves { D.serves desk.now hand.old }
    requires node { IsNodeOf (D.instance desk.now) held.now.node.now }
    ensures serves { D.serves desk.now hand.new }
    ensures ends { Ends (D.holds desk.now held.now) (D.freed desk.now) hand.old hand.new (was_closed result) }
{
    desk.inherit(pricing, held);
    match pricing.inherited() {
        Some(prices) => close_by(desk, hand, pricing, held, &prices),
        None => Ok(false),
    }
}

/// Asks prices about the held node, and carries out what they find: new cuts are posted, a plan is given
/// to the book, and the slot is closed where its node reaches the best cost by prices. Whether it was closed;
/// else it is held still, also where the desk stopped.
pub fn price<D: Desk>(
    desk: &D,
    hand: &mut D::Hand,
    memory: &mut Memory,
    pricing: &mut Pricing,
    held: &InHand<'_>,
) -> Result<bool, D::Stop>
    requires serves { D.serves desk.now hand.old }
    requires node { IsNodeOf (D.instance desk.now) held.now.node.now }
    ensures serves { D.serves desk.now hand.new }
    ensures ends { Ends (D.holds desk.now held.now) (D.freed desk.now) hand.old hand.new (was_closed result) }
{
    if close_as_inherited(desk, hand, pricing, held)? {
        return Ok(true);
    }
    make_rounds(desk, hand, memory, pricing, held)
}
