//! The faults of a spot case.
ghost use Rattle.std.specs.Prelude.{◌≡◌, ◌≢◌, ◌<◌, ◌≤◌, ◌↔◌, ◌++◌, length, suc, Some, None, IsTrue, IfSome, IfNone, OnOk};
ghost use Rattle.refute_rules.specs.Decided.{berth_in};
ghost use Rattle.refute_rules.specs.Known.{y_in, host_of};
ghost use Rattle.refute_rules.specs.SpotFaults.{IsOutsideAlong, IsOutsideAcross, IsPastHost, AreTouching, spot_fault_numbers};
ghost use Rattle.spot_place.specs.SpotCase.{case_on};
ghost use Rattle.spot_place.specs.Faults.{IsAt, fault_of};

use crate::geometry::{Position, are_apart, is_inside_across, is_inside_along, is_within_host};
use crate::spot_case::SpotCase;
use refute_rules::Marks;
use std::alloc::AllocError;

/// A fault of a spot case. The numbers are places in the deck.
#[derive(Clone, Copy, PartialEq, Eq, Drop)]
pub(crate) enum SpotFault {
    /// The ship lies at a host of the other rank.
    OtherRank(u8),
    /// The hosts of the ship lead back to it.
    LeadsBack(u8),
    /// The ship isn't inside.
    Outside(u8),
    /// The length of the ship isn't inside that of its host.
    PastHost(u8),
    /// The two ships aren't apart.
    Touching(u8, u8),
}

impl SpotFault {
    /// Appends the numbers of the fault to a spot tree.
    pub(crate) fn write(&self, marks: &mut Marks) -> Result<(), AllocError>
        ensures { OnOk result (marks.new ≡ marks.old ++ spot_fault_numbers (fault_of self.now)) }
    {
        let (kind, ship) = match self {
            SpotFault::OtherRank(ship) => (1, *ship),
            SpotFault::LeadsBack(ship) => (2, *ship),
            SpotFault::Outside(ship) => (3, *ship),
            SpotFault::PastHost(ship) => (4, *ship),
            SpotFault::Touching(ship, _) => (5, *ship),
        };
        marks.push(kind)?;
        marks.push(ship as u32)?;
        if let SpotFault::Touching(_, other) = self {
            marks.push(*other as u32)?;
        }
        Ok(())
    }
}

impl SpotCase {
    /// Whether a ship isn't inside across the chamber, where its y is known.
    pub(crate) fn is_outside_across(&self, ship: u8) -> bool
        requires { ship < length self.now.deck.ships }
        ensures { IsTrue result ↔ IsOutsideAcross self.now.deck (case_on self.now) ship }
    {
        match self.height(ship) {
            None => false,
            Some(y) => !is_inside_across(&self.deck, ship, y),
        }
    }

    /// Whether a ship isn't inside along the chamber.
    pub(crate) fn is_outside_along(&self, ship: u8) -> bool
        requires { ship < length self.now.places }
        ensures { IsTrue result ↔ IsOutsideAlong self.now.deck (case_on self.now) ship }
    {
        let x = self.x_of(ship);
        !is_inside_along(&self.deck, ship, x)
    }

    /// Whether the length of a ship isn't inside that of its host, where that has an x.
    pub(crate) fn is_past_host(&self, ship: u8) -> bool
        requires { ship < length self.now.places }
        ensures { IsTrue result ↔ IsPastHost self.now.deck (case_on self.now) ship }
    {
        match self.host(ship) {
            None => false,
            Some(host) => self.is_past(ship, host),
        }
    }

    /// Whether the length of a ship isn't inside that of this host, where that has an x.
    fn is_past(&self, ship: u8, host: u8) -> bool
        requires ship { ship < length self.now.places }
        requires host { Some host ≡ host_of (berth_in (case_on self.now) ship) }
        requires known { host < length self.now.deck.ships }
        ensures { IsTrue result ↔ IsPastHost self.now.deck (case_on self.now) ship }
    {
        if host as usize >= self.places.len() {
            return false;
        }
        let x = self.x_of(ship);
        let host_x = self.x_of(host);
        !is_within_host(&self.deck, ship, x, host, host_x)
    }

    /// Where a ship with an x lies, where its y is known.
    fn position(&self, ship: u8) -> Option<Position>
        requires { ship < length self.now.places }
        ensures some { IfSome result (IsAt self.now ship) }
        ensures none { IfNone result (y_in self.now.deck (case_on self.now) ship ≡ None) }
    {
        let x = self.x_of(ship);
        let y = self.height(ship)?;
        Some(Position { ship, x, y })
    }

    /// Whether two ships that have an x aren't apart, where their y are known.
    pub(crate) fn touches(&self, ship: u8, other: u8) -> bool
        requires ship { ship < length self.now.places }
        requires other { other < length self.now.places }
        requires different { ship ≢ other }
        ensures { IsTrue result ↔ AreTouching self.now.deck (case_on self.now) ship other }
    {
        let Some(one) = self.position(ship) else {
            return false;
        };
        let Some(two) = self.position(other) else {
            return false;
        };
        !are_apart(&self.deck, one, two)
    }
}
