//! The options of the next spot decision.
ghost use Rattle.std.specs.Prelude.{◌≡◌, ◌*◌, ◌<◌, length, suc};
ghost use Rattle.refute_rules.specs.declared.choices.Decision.TheVariants.{BerthOf, XOf};
ghost use Rattle.refute_rules.specs.SpotFaults.{IsFaultless};
ghost use Rattle.refute_rules.specs.Values.{spot_values};
ghost use Rattle.spot_place.specs.SpotCase.{case_on, with_choice};

use crate::spot_case::SpotCase;
use deck_cases::berth_option;

impl SpotCase {
    /// How many spot values the deck has.
    pub(crate) fn value_count(&self) -> u32
        ensures { result ≡ length (spot_values self.now.deck) }
    {
        self.values.as_slice().len() as u32
    }

    /// Takes an option of the berth of the next ship.
    pub(crate) fn take_berth(&mut self, option: u32)
        requires room { length self.old.berths < length self.old.deck.ships }
        requires step { length self.old.berths ≡ length self.old.places }
        requires good { IsFaultless self.old.deck (case_on self.old) }
        requires option { option < 2 * length self.old.deck.ships }
        ensures deck { self.new.deck ≡ self.old.deck }
        ensures case { case_on self.new ≡ with_choice self.old (BerthOf (length self.old.berths)) option }
    {
        let ship = self.berths.len() as u8;
        self.moor(berth_option(self.ships(), ship, option));
    }

    /// Takes an option of the x of the ship that was moored last.
    pub(crate) fn take_place(&mut self, option: u32)
        requires step { length self.old.berths ≡ suc (length self.old.places) }
        requires good { IsFaultless self.old.deck (case_on self.old) }
        requires option { option < length (spot_values self.old.deck) }
        ensures deck { self.new.deck ≡ self.old.deck }
        ensures case { case_on self.new ≡ with_choice self.old (XOf (length self.old.places)) option }
    {
        let x = self.values.as_slice()[option as usize];
        self.place(x);
    }
}
