//! The judge of a spot case.
ghost use Rattle.std.specs.Prelude.{◌≡◌, ◌<◌, length, suc, IfSome, IfNone};
ghost use Rattle.refute_rules.specs.SpotFaults.{IsOutsideAcross, IsPastHost, AreTouching, IsSpotFault, IsFaultless};
ghost use Rattle.spot_place.specs.OnWay.{NoneBelow};
ghost use Rattle.spot_place.specs.SpotCase.{case_on, IsOnWay};
ghost use Rattle.spot_place.specs.Faults.{AreApartBelow, fault_of};

use crate::berths::{first_leading_back, first_of_other_rank};
use crate::faults::SpotFault;
use crate::spot_case::SpotCase;

impl SpotCase {
    /// The first ship that isn't inside across the chamber.
    fn first_outside_across(&self) -> Option<u8>
        ensures some { IfSome result (IsOutsideAcross self.now.deck (case_on self.now)) }
        ensures none { IfNone result (NoneBelow (IsOutsideAcross self.now.deck (case_on self.now)) (length self.now.deck.ships)) }
    {
        for ship in 0..self.ships() {
            if self.is_outside_across(ship) {
                return Some(ship);
            }
        }
        None
    }

    /// The first ship whose length isn't inside that of its host.
    fn first_past_host(&self) -> Option<u8>
        ensures some { IfSome result (IsPastHost self.now.deck (case_on self.now)) }
        ensures none { IfNone result (NoneBelow (IsPastHost self.now.deck (case_on self.now)) (length self.now.places)) }
    {
        let count = self.places.len() as u8;
        for ship in 0..count {
            if self.is_past_host(ship) {
                return Some(ship);
            }
        }
        None
    }

    /// The first ship before a ship that isn't apart from it.
    fn first_touching(&self, ship: u8) -> Option<u8>
        requires { ship < length self.now.places }
        ensures some { IfSome result (AreTouching self.now.deck (case_on self.now) ship) }
        ensures none { IfNone result (NoneBelow (AreTouching self.now.deck (case_on self.now) ship) ship) }
    {
        for other in 0..ship {
            if self.touches(ship, other) {
                return Some(other);
            }
        }
        None
    }

    /// Two ships that aren't apart.
    fn two_touching(&self) -> Option<(u8, u8)>
        ensures some { IfSome result (λ p. AreTouching self.now.deck (case_on self.now) p.0 p.1) }
        ensures none { IfNone result (AreApartBelow self.now.deck (case_on self.now) (length self.now.places)) }
    {
        let count = self.places.len() as u8;
        for ship in 0..count {
            if let Some(other) = self.first_touching(ship) {
                return Some((ship, other));
            }
        }
        None
    }

    /// A fault of the case, where its last option is a berth. A berth can tell the y of ships that
    /// waited for it, so all that berths and y decide is looked at.
    fn fault_by_berth(&self) -> Option<SpotFault>
        requires way { IsOnWay self.now.deck self.now.berths self.now.places }
        requires step { length self.now.berths ≡ suc (length self.now.places) }
        ensures some { IfSome result (λ fault. IsSpotFault self.now.deck (case_on self.now) (fault_of fault)) }
        ensures none { IfNone result (IsFaultless self.now.deck (case_on self.now)) }
    {
        let berths = self.berths.as_slice();
        if let Some(ship) = first_of_other_rank(berths) {
            return Some(SpotFault::OtherRank(ship));
        }
        if let Some(ship) = first_leading_back(berths, self.ships()) {
            return Some(SpotFault::LeadsBack(ship));
        }
        if let Some(ship) = self.first_outside_across() {
            return Some(SpotFault::Outside(ship));
        }
        if let Some((ship, other)) = self.two_touching() {
            return Some(SpotFault::Touching(ship, other));
        }
        None
    }

    /// A fault of the case, where its last option is the x of a ship. Berths and y are as before, so
    /// what is looked at is whether that ship is inside along the chamber, the lengths at hosts, and
    /// whether that ship is apart from those before it.
    fn fault_by_place(&self, last: u8) -> Option<SpotFault>
        requires way { IsOnWay self.now.deck self.now.berths self.now.places }
        requires berths { length self.now.berths ≡ suc last }
        requires places { length self.now.places ≡ suc last }
        ensures some { IfSome result (λ fault. IsSpotFault self.now.deck (case_on self.now) (fault_of fault)) }
        ensures none { IfNone result (IsFaultless self.now.deck (case_on self.now)) }
    {
        if self.is_outside_along(last) {
            return Some(SpotFault::Outside(last));
        }
        if let Some(ship) = self.first_past_host() {
            return Some(SpotFault::PastHost(ship));
        }
        if let Some(other) = self.first_touching(last) {
            return Some(SpotFault::Touching(last, other));
        }
        None
    }

    /// A fault of the case; none exactly where it is faultless. The case without its last option is
    /// faultless, so only what the last option can have changed is looked at.
    pub(crate) fn fault(&self) -> Option<SpotFault>
        ensures some { IfSome result (λ fault. IsSpotFault self.now.deck (case_on self.now) (fault_of fault)) }
        ensures none { IfNone result (IsFaultless self.now.deck (case_on self.now)) }
    {
        if self.wants_place() {
            return self.fault_by_berth();
        }
        let places = self.places.len();
        if places == 0 {
            return None;
        }
        self.fault_by_place((places - 1) as u8)
    }
}
