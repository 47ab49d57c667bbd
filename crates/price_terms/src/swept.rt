//! Costs that are swept.
ghost use Rattle.std.specs.Prelude.{◌≡◌};
ghost use Rattle.price_terms.specs.Claim.{SweptClaim, IsSweptClaim};

use crate::cut::ChamberCut;
use lock_model::Instance;
use std::marker::Model;

/// An instance, cuts and a cost, in minutes, such that no uncut plan of the instance costs less: no
/// lines of groups that the cuts spare, which serve each ship once. `sweep` finds out whether that is
/// so; the value borrows what it is said of, so whoever keeps an instance and cuts of its own compares
/// each by value.
#[derive(Drop)]
pub struct Swept<'a> {
    instance: &'a Instance,
    cuts: &'a [ChamberCut],
    cost: u64,
}

impl<'a> Model for Swept<'a> {
    ghost use Rattle.price_terms.specs.Claim.{SweptClaim, IsSweptClaim};

    ghost Value = { SweptClaim };

    ghost view = { λ a. record { instance = a.instance.now; cuts = a.cuts.now; cost = a.cost } };

    ghost invariant = { λ a. IsSweptClaim (record { instance = a.instance.now; cuts = a.cuts.now; cost = a.cost }) };
}

impl<'a> Swept<'a> {
    /// A cost, in minutes, below which the cuts leave no uncut plan of the instance.
    pub fn new(instance: &'a Instance, cuts: &'a [ChamberCut], cost: u64) -> Swept<'a>
        requires { IsSweptClaim (record { instance = instance.now; cuts = cuts.now; cost = cost }) }
        ensures { result ≡ record { instance = instance.now; cuts = cuts.now; cost = cost } }
    {
        Swept {
            instance,
            cuts,
            cost,
        }
    }

    /// The instance.
    pub fn instance(&self) -> &Instance
        ensures { result.now ≡ self.now.instance }
    {
        self.instance
    }

    /// The cuts.
    pub fn cuts(&self) -> &[ChamberCut]
        ensures { result.now ≡ self.now.cuts }
    {
        self.cuts
    }

    /// The cost, in minutes, which is swept.
    pub fn cost(&self) -> u64
        ensures value { result ≡ self.now.cost }
        ensures swept { IsSweptClaim self.now }
    {
        self.cost
    }
}
