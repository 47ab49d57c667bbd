//! One chamber's part of the bound.
ghost use Rattle.std.specs.Prelude.{◌≡◌, ◌<◌, ◌≤◌, length, drop, All};
ghost use Rattle.lock_model.specs.declared.limits.TheConstants.{SHIPS};
ghost use Rattle.lock_model.specs.Fleet.{chamber_at};
ghost use Rattle.lock_rules.specs.Arrival.{first_ships};
ghost use Rattle.lock_rules.specs.Node.{IsNodeGroup};
ghost use Rattle.price_rules.specs.Prices.{is_missing};
ghost use Rattle.price_groups.specs.Worth.{IsKeptGroup};

use lock_model::{Chamber, Group, Instance};
use price_terms::{ChamberCut, Prices};

/// A chamber, by number and as it is, and its line at a node of a depth, the ships that the node holds,
/// the prices and the cuts.
#[derive(Drop)]
pub struct LineCase<'a> {
    pub instance: &'a Instance,
    pub cuts: &'a [ChamberCut],
    pub prices: &'a Prices,
    pub depth: u8,
    pub held: &'a [u8],
    pub index: u8,
    pub chamber: &'a Chamber,
    pub line: &'a [Group],
    pub ghost is: { chamber.now ≡ chamber_at instance.now index },
    pub ghost chamber_in: { index < length instance.now.chambers },
    pub ghost holds: { held.now ≡ first_ships instance.now depth },
    pub ghost kept: { All (IsKeptGroup instance.now depth) line.now },
    pub ghost ships_in: { All (λ g. All (λ s. s < length instance.now.ships) g.ships) line.now },
    pub ghost good: { All (IsNodeGroup instance.now index) line.now },
    pub ghost few: { length line.now ≤ SHIPS },
}

impl LineCase<'_> {
    /// Whether the node lacks a ship.
    pub fn lacks(&self, ship: u8) -> bool
        ensures { result ≡ is_missing self.now.instance.now self.now.depth ship }
    {
        !self.held.contains(&ship)
    }

    /// The same under the cuts from a place on.
    pub fn after(&self, place: usize) -> LineCase<'_>
        requires { place ≤ length self.now.cuts.now }
        ensures instance { result.instance.now ≡ self.now.instance.now }
        ensures chamber { result.index ≡ self.now.index }
        ensures cuts { result.cuts.now ≡ drop place self.now.cuts.now }
    {
        LineCase {
            instance: self.instance,
            cuts: &self.cuts[place..],
            prices: self.prices,
            depth: self.depth,
            held: self.held,
            index: self.index,
            chamber: self.chamber,
            line: self.line,
        }
    }
}
