//! The spots of a whole spot case.
ghost use Rattle.std.specs.Prelude.{◌≡◌, ◌<◌, length, Some, pos};
ghost use Rattle.lock_model.specs.Placement.{IsLegalPlacement};
ghost use Rattle.refute_rules.specs.Decided.{berth_in};
ghost use Rattle.refute_rules.specs.Known.{y_in};
ghost use Rattle.refute_rules.specs.Spots.{IsWholeSpots, AreSpotsOfCase};
ghost use Rattle.spot_place.specs.ShipSpots.{IsSpotOf};
ghost use Rattle.spot_place.specs.SpotCase.{case_on, IsOnWay};

use crate::spot_case::SpotCase;
use deck_cases::Berth;
use lock_model::{Spot, Spots};

impl SpotCase {
    /// The berth of a ship.
    fn berth(&self, ship: u8) -> Berth
        requires { ship < length self.now.berths }
        ensures { berth_in (case_on self.now) ship ≡ Some result }
    {
        self.berths[ship as usize]
    }

    /// The y of a ship: where all is decided without a fault it is known, and at least 0.
    fn y_of(&self, ship: u8) -> u32
        requires ship { ship < length self.now.deck.ships }
        requires way { IsOnWay self.now.deck self.now.berths self.now.places }
        requires whole { IsWholeSpots self.now.deck (case_on self.now) }
        ensures { y_in self.now.deck (case_on self.now) ship ≡ Some (pos result) }
    {
        self.height(ship).unwrap() as u32
    }

    /// The spot of a ship.
    fn spot(&self, ship: u8) -> Spot
        requires ship { ship < length self.now.deck.ships }
        requires way { IsOnWay self.now.deck self.now.berths self.now.places }
        requires whole { IsWholeSpots self.now.deck (case_on self.now) }
        ensures { IsSpotOf self.now.deck (case_on self.now) ship result }
    {
        let berth = self.berth(ship);
        Spot {
            x: self.x_of(ship),
            y: self.y_of(ship),
            rank: berth.rank,
            moor: berth.moor,
        }
    }

    /// The spots of the ships. They are legal.
    pub(crate) fn spots(&self) -> Spots
        requires { IsWholeSpots self.now.deck (case_on self.now) }
        ensures spots { AreSpotsOfCase self.now.deck (case_on self.now) result }
        ensures legal { IsLegalPlacement self.now.deck result }
    {
        let count = self.berths.len() as u8;
        let mut spots = Spots::new();
        for ship in 0..count {
            spots.push(self.spot(ship));
        }
        spots
    }
}
