//! A slot that a worker holds, with what is known of its node.
ghost use Rattle.std.specs.Prelude.{◌≡◌, ◌≤◌, length, IfSome};
ghost use Rattle.flow_bounds.specs.Roster.{IsRosterOf};
ghost use Rattle.lock_rules.specs.Bound.{least_number};
ghost use Rattle.book_core.specs.Hands.{IsBounding, id_of, bounds_in, filled, laid, with_bounds};

use flow_bounds::{Bounds, Roster, child_bounds};
use lock_model::{CHILDREN, Instance};
use master_branch::Node;

// A held slot, its node, and the bounds of the node's children once they were computed.
#[derive(Drop)]
pub(crate) struct Hand {
    pub(crate) id: u32,
    pub(crate) node: Node,
    pub(crate) bounds: Option<Bounds>,
}

// The slot in a hand.
pub(crate) fn id_of(hand: &Option<Hand>) -> Option<u32>
    ensures { result ≡ id_of hand.now }
{
    match hand {
        Some(hand) => Some(hand.id),
        None => None,
    }
}

impl Hand {
    // Computes the bounds of the children of its node, unless they are there.
    fn fill(&mut self, instance: &Instance, roster: &Roster)
        requires roster { IsRosterOf instance.now roster.now }
        requires hand { IsBounding instance.now self.old }
        ensures { self.new ≡ with_bounds instance.now self.old }
    {
        if self.bounds.is_none() {
            self.bounds = Some(child_bounds(instance, roster, &self.node));
        }
    }
}

// The same where there is a hand.
pub(crate) fn fill(hand: &mut Option<Hand>, instance: &Instance, roster: &Roster)
    requires roster { IsRosterOf instance.now roster.now }
    requires hand { IfSome hand.old (IsBounding instance.now) }
    ensures { hand.new ≡ filled instance.now hand.old }
{
    match hand {
        Some(hand) => hand.fill(instance, roster),
        None => {}
    }
}

// Puts bounds into a hand that holds a slot.
pub(crate) fn lay(hand: &mut Option<Hand>, bounds: Bounds)
    ensures { hand.new ≡ laid bounds hand.old }
{
    match hand {
        Some(hand) => hand.bounds = Some(bounds),
        None => {}
    }
}

// The bounds in a hand; none where they aren't there.
pub(crate) fn bounds_in(hand: &Option<Hand>) -> &[u64]
    ensures bounds { result.now ≡ bounds_in hand.now }
    ensures few { length result.now ≤ CHILDREN }
{
    match hand {
        Some(hand) => match &hand.bounds {
            Some(bounds) => bounds.as_slice(),
            None => &[],
        },
        None => &[],
    }
}

// The least of the bounds in a hand; 0 where they aren't there.
pub(crate) fn least_in(hand: &Option<Hand>) -> u64
    ensures { result ≡ least_number (bounds_in hand.now) }
{
    match hand {
        Some(hand) => match &hand.bounds {
            Some(bounds) => bounds.least(),
            None => 0,
        },
        None => 0,
    }
}
