//! Where what is found at the root is carried out.

use crate::placing::UncutGroups;
use placed_groups::Memory;
use price_search::{Desk, Found, InHand};
use price_terms::Swept;

/// A desk at which the root is priced too.
pub trait RootDesk: Desk {
    ghost use Rattle.master_branch.specs.Node.{IsNodeOf};
    ghost use Rattle.price_search.specs.Holding.{Stays, Ends};

    /// Places uncut groups, with the cuts that are known here.
    fn place(
        &self,
        hand: &mut Self::Hand,
        memory: &mut Memory,
        held: &InHand<'_>,
        groups: UncutGroups<'_>,
    ) -> Result<Found, Self::Stop>
        requires serves { Self.serves self.now hand.old }
        requires node { IsNodeOf (Self.instance self.now) held.now.node.now }
        ensures serves { Self.serves self.now hand.new }
        ensures holds { Stays (Self.holds self.now held.now) hand.old hand.new };

    /// Closes the held slot, which is the root's, by the cost that was swept, with the prices of this number
    /// to help whoever sweeps again; whether the book took that.
    fn close_swept(
        &self,
        hand: &mut Self::Hand,
        held: &InHand<'_>,
        number: u64,
        swept: &Swept<'_>,
    ) -> bool
        requires serves { Self.serves self.now hand.old }
        ensures serves { Self.serves self.now hand.new }
        ensures ends { Ends (Self.holds self.now held.now) (Self.freed self.now) hand.old hand.new result };
}
