//! What comes after an ascent at the root.
ghost use Rattle.master_branch.specs.Node.{IsNodeOf};
ghost use Rattle.price_search.specs.Holding.{Ends};
ghost use Rattle.root_pricing.specs.Ending.{was_swept};

use crate::beaming::beam_root;
use crate::desk::RootDesk;
use crate::pricing::{FEW_LABELS_AT_ONCE, RootPricing};
use crate::sweeping::sweep_root;
use placed_groups::Memory;
use price_search::InHand;

/// What is next at the root, whose ascent ended without closing it.
#[derive(Clone, Copy)]
pub(crate) enum AfterAscent {
    /// Nothing: it was closed by sweeps.
    Closed,
    /// Another ascent.
    Ascend,
    /// It is split.
    Split,
}

// Tries whether few labels close the root; where they don't, another ascent begins, if there is one.
fn sweep_or_ascend<D: RootDesk>(
    desk: &D,
    hand: &mut D::Hand,
    memory: &mut Memory,
    root: &mut RootPricing,
    held: &InHand<'_>,
) -> Result<AfterAscent, D::Stop>
    requires serves { D.serves desk.now hand.old }
    requires node { IsNodeOf (D.instance desk.now) held.now.node.now }
    ensures serves { D.serves desk.now hand.new }
    ensures ends { Ends (D.holds desk.now held.now) (D.freed desk.now) hand.old hand.new (was_swept result) }
{
    if !root.may_ascend() {
        return Ok(AfterAscent::Split);
    }
    if sweep_root(desk, hand, memory, root, held, FEW_LABELS_AT_ONCE)? {
        return Ok(AfterAscent::Closed);
    }
    if root.ascend_again() {
        Ok(AfterAscent::Ascend)
    } else {
        Ok(AfterAscent::Split)
    }
}

// What is next at the root, whose ascent ended: another one, unless few labels close it, and after the last
// one beams, and as many labels as may be made.
fn end_root<D: RootDesk>(
    desk: &D,
    hand: &mut D::Hand,
    memory: &mut Memory,
    root: &mut RootPricing,
    held: &InHand<'_>,
) -> Result<AfterAscent, D::Stop>
    requires serves { D.serves desk.now hand.old }
    requires node { IsNodeOf (D.instance desk.now) held.now.node.now }
    ensures serves { D.serves desk.now hand.new }
    ensures ends { Ends (D.holds desk.now held.now) (D.freed desk.now) hand.old hand.new (was_swept result) }
{
    match sweep_or_ascend(desk, hand, memory, root, held)? {
        AfterAscent::Closed => Ok(AfterAscent::Closed),
        AfterAscent::Ascend => Ok(AfterAscent::Ascend),
        AfterAscent::Split => {
            beam_root(desk, hand, memory, root, held)?;
            let most = root.most_labels();
            if sweep_root(desk, hand, memory, root, held, most)? {
                Ok(AfterAscent::Closed)
            } else {
                Ok(AfterAscent::Split)
            }
        }
    }
}

/// Ends an ascent at the root, which is held. It is swept, or another ascent begins. Where it is split, it leaves its
/// prices to the nodes below it.
#[inline(never)]
pub(crate) fn end_ascent<D: RootDesk>(
    desk: &D,
    hand: &mut D::Hand,
    memory: &mut Memory,
    root: &mut RootPricing,
    held: &InHand<'_>,
) -> Result<AfterAscent, D::Stop>
    requires serves { D.serves desk.now hand.old }
    requires node { IsNodeOf (D.instance desk.now) held.now.node.now }
    ensures serves { D.serves desk.now hand.new }
    ensures ends { Ends (D.holds desk.now held.now) (D.freed desk.now) hand.old hand.new (was_swept result) }
{
    let after = end_root(desk, hand, memory, root, held)?;
    if let AfterAscent::Split = after {
        desk.leave(&mut root.pricing, held)?;
    }
    Ok(after)
}
