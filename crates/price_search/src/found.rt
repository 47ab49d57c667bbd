//! What the placers find for prices, carried out.
ghost use Rattle.price_search.specs.Holding.{Stays};

use crate::desk::{Desk, InHand};
use deck_cuts::Cut;
use lock_model::Plan;

/// What was found by placing groups: new cuts, and a plan that may be cheaper than the best one.
#[derive(Drop)]
pub struct Found {
    pub cuts: Vec<Cut>,
    pub plan: Option<Box<Plan>>,
}

impl Found {
    /// Whether there is neither a cut nor a plan.
    pub fn is_empty(&self) -> bool {
        self.cuts.len() == 0 && self.plan.is_none()
    }
}

// Posts the cuts that were found.
fn post_all<D: Desk>(
    desk: &D,
    hand: &mut D::Hand,
    held: &InHand<'_>,
    mut cuts: Vec<Cut>,
) -> Result<(), D::Stop>
    requires serves { D.serves desk.now hand.old }
    ensures serves { D.serves desk.now hand.new }
    ensures holds { Stays (D.holds desk.now held.now) hand.old hand.new }
{
    while let Some(cut) = cuts.pop() {
        desk.post(hand, held, cut)?;
    }
    Ok(())
}

// Gives the plan that was found, if any, to the book.
fn give_some<D: Desk>(
    desk: &D,
    hand: &mut D::Hand,
    held: &InHand<'_>,
    plan: Option<Box<Plan>>,
) -> Result<(), D::Stop>
    requires serves { D.serves desk.now hand.old }
    ensures serves { D.serves desk.now hand.new }
    ensures holds { Stays (D.holds desk.now held.now) hand.old hand.new }
{
    match plan {
        Some(plan) => desk.give(hand, held, Box::into_inner(plan)),
        None => Ok(()),
    }
}

/// Posts the cuts that were found, and gives the plan to the book.
pub fn carry_out<D: Desk>(
    desk: &D,
    hand: &mut D::Hand,
    held: &InHand<'_>,
    found: Found,
) -> Result<(), D::Stop>
    requires serves { D.serves desk.now hand.old }
    ensures serves { D.serves desk.now hand.new }
    ensures holds { Stays (D.holds desk.now held.now) hand.old hand.new }
{
    let Found { cuts, plan } = found;
    post_all(desk, hand, held, cuts)?;
    give_some(desk, hand, held, plan)
}
