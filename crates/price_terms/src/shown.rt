//! Costs that nodes were shown to reach.
ghost use Rattle.std.specs.Prelude.{◌≡◌};
ghost use Rattle.price_terms.specs.Claim.{Claim, IsReached};

use crate::cut::ChamberCut;
use crate::prices::Prices;
use lock_model::Instance;
use master_branch::Node;
use std::marker::Model;

/// A node of an instance, prices, cuts and a cost, in minutes, such that the node reaches the cost by
/// these prices and cuts. `show` makes it, and works out whether that is so; it borrows what it is
/// said of, so whoever keeps an instance, nodes, prices and cuts of its own compares each by value.
#[derive(Drop)]
pub struct Shown<'a> {
    instance: &'a Instance,
    node: &'a Node,
    prices: &'a Prices,
    cuts: &'a [ChamberCut],
    cost: u64,
}

impl<'a> Model for Shown<'a> {
    ghost use Rattle.price_terms.specs.Claim.{Claim, IsReached};

    ghost Value = { Claim };

    ghost view = { λ a. record { instance = a.instance.now; node = a.node.now; prices = a.prices.now; cuts = a.cuts.now; cost = a.cost } };

    ghost invariant = { λ a. IsReached (record { instance = a.instance.now; node = a.node.now; prices = a.prices.now; cuts = a.cuts.now; cost = a.cost }) };
}

impl<'a> Shown<'a> {
    /// A node that reaches a cost, in minutes, by prices and cuts.
    pub fn new(
        instance: &'a Instance,
        node: &'a Node,
        prices: &'a Prices,
        cuts: &'a [ChamberCut],
        cost: u64,
    ) -> Shown<'a>
        requires { IsReached (record { instance = instance.now; node = node.now; prices = prices.now; cuts = cuts.now; cost = cost }) }
        ensures { result ≡ record { instance = instance.now; node = node.now; prices = prices.now; cuts = cuts.now; cost = cost } }
    {
        Shown {
            instance,
            node,
            prices,
            cuts,
            cost,
        }
    }

    /// The instance.
    pub fn instance(&self) -> &Instance
        ensures { result.now ≡ self.now.instance }
    {
        self.instance
    }

    /// The node.
    pub fn node(&self) -> &Node
        ensures { result.now ≡ self.now.node }
    {
        self.node
    }

    /// The prices, in hundredths of a minute.
    pub fn prices(&self) -> &Prices
        ensures { result.now ≡ self.now.prices }
    {
        self.prices
    }

    /// The cuts.
    pub fn cuts(&self) -> &[ChamberCut]
        ensures { result.now ≡ self.now.cuts }
    {
        self.cuts
    }

    /// The cost, in minutes, which the node reaches.
    pub fn cost(&self) -> u64
        ensures value { result ≡ self.now.cost }
        ensures reached { IsReached self.now }
    {
        self.cost
    }
}
