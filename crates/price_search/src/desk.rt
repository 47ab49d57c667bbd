//! Where a search carries out what prices find.

use crate::pricing::Pricing;
use crate::round::Round;
use deck_cuts::Cut;
use lock_model::{Instance, Plan};
use master_branch::Node;
use placed_groups::Memory;
use price_terms::{Prices, Shown};
use std::alloc::Global;

/// A slot that is held, and its node.
#[derive(Clone, Copy)]
pub struct InHand<'n> {
    pub id: u32,
    pub node: &'n Node,
}

/// A book, as one reaches it who holds a slot of it. All is done by events of the book.
pub trait Desk {
    ghost use Rattle.std.specs.Prelude.{◌≡◌};
    ghost use Rattle.lock_model.specs.declared.instance.Instance.{Instance as AnyInstance};
    ghost use Rattle.master_branch.specs.Node.{IsNodeOf};
    ghost use Rattle.price_search.specs.declared.desk.InHand.{InHand as AnyHeld};
    ghost use Rattle.price_search.specs.Holding.{Stays, Ends};

    /// What events change.
    type Hand;

    /// Why a search ends early.
    type Stop: Drop;

    /// The instance of the book.
    ghost instance: { Self → AnyInstance };

    /// The hand is one of this desk.
    ghost serves: { Self → Self.Hand → Type 0 };

    /// What came of a hand since it began, while this slot is held with its node.
    ghost holds: { Self → AnyHeld → Self.Hand → Self.Hand → Type 0 };

    /// What came of a hand since it began, once the slot is held no more.
    ghost freed: { Self → Self.Hand → Self.Hand → Type 0 };

    /// The instance of the book.
    fn instance(&self) -> &Instance
        ensures { result.now ≡ instance self.now };

    /// The handle to memory.
    fn alloc(&self) -> Global;

    /// The best cost, in minutes, as far as it is seen from here.
    fn best_cost(&self, hand: &mut Self::Hand, held: &InHand<'_>) -> u64
        requires serves { serves self.now hand.old }
        ensures serves { serves self.now hand.new }
        ensures holds { Stays (holds self.now held.now) hand.old hand.new };

    /// Has the pricing know the first cuts of the book, those that it got since it learnt last too.
    fn learn(
        &self,
        hand: &mut Self::Hand,
        pricing: &mut Pricing,
        held: &InHand<'_>,
    ) -> Result<(), Self::Stop>
        requires serves { serves self.now hand.old }
        ensures serves { serves self.now hand.new }
        ensures holds { Stays (holds self.now held.now) hand.old hand.new };

    /// Makes a round at the held node, with the cuts that are known here.
    fn round(
        &self,
        hand: &mut Self::Hand,
        memory: &mut Memory,
        pricing: &mut Pricing,
        held: &InHand<'_>,
    ) -> Result<Round, Self::Stop>
        requires serves { serves self.now hand.old }
        requires node { IsNodeOf (instance self.now) held.now.node.now }
        ensures serves { serves self.now hand.new }
        ensures holds { Stays (holds self.now held.now) hand.old hand.new };

    /// Posts a cut that was found.
    fn post(&self, hand: &mut Self::Hand, held: &InHand<'_>, cut: Cut) -> Result<(), Self::Stop>
        requires serves { serves self.now hand.old }
        ensures serves { serves self.now hand.new }
        ensures holds { Stays (holds self.now held.now) hand.old hand.new };

    /// Gives a plan to the book, which takes it if it is legal and cheaper.
    fn give(&self, hand: &mut Self::Hand, held: &InHand<'_>, plan: Plan) -> Result<(), Self::Stop>
        requires serves { serves self.now hand.old }
        ensures serves { serves self.now hand.new }
        ensures holds { Stays (holds self.now held.now) hand.old hand.new };

    /// Posts prices: the number under which the book keeps them, if it takes them.
    fn post_prices(
        &self,
        hand: &mut Self::Hand,
        held: &InHand<'_>,
        prices: &Prices,
    ) -> Result<Option<u64>, Self::Stop>
        requires serves { serves self.now hand.old }
        ensures serves { serves self.now hand.new }
        ensures holds { Stays (holds self.now held.now) hand.old hand.new };

    /// Closes the held slot by what was shown of it and of the prices of this number; whether the book took
    /// that.
    fn close_shown(
        &self,
        hand: &mut Self::Hand,
        held: &InHand<'_>,
        number: u64,
        shown: &Shown<'_>,
    ) -> bool
        requires serves { serves self.now hand.old }
        ensures serves { serves self.now hand.new }
        ensures ends { Ends (holds self.now held.now) (freed self.now) hand.old hand.new result };

    /// Goes to the held node with the prices that the node above it left.
    fn inherit(&self, pricing: &mut Pricing, held: &InHand<'_>);

    /// Leaves the best prices of the held node, which is split, to the nodes below it.
    fn leave(&self, pricing: &mut Pricing, held: &InHand<'_>) -> Result<(), Self::Stop>;

    /// Tells who else has the prices that the node above left under which number the book keeps them.
    fn tell_number(&self, held: &InHand<'_>, number: u64);
}
