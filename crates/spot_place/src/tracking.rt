//! Spot cases for the search: what it asks of a case.
ghost use Rattle.std.specs.Prelude.{◌≡◌, ◌<◌, ◌↔◌, ◌++◌, ◌∷◌, [], List, length};
ghost use Rattle.refute_rules.specs.declared.choices.Choice.{Choice};
ghost use Rattle.refute_rules.specs.SpotFaults.{IsFaultless};
ghost use Rattle.case_search.specs.Rules.{options_at, with_option};
ghost use Rattle.spot_place.specs.Rules.{spot_rules};
ghost use Rattle.spot_place.specs.SpotCase.{case_on};

use crate::faults::SpotFault;
use crate::spot_case::SpotCase;
use case_search::Track;
use refute_rules::Marks;
use std::alloc::AllocError;

impl SpotCase {
    /// How many options the next decision has.
    fn option_count(&self) -> u32
        ensures { result ≡ length (options_at (spot_rules self.now.deck) (case_on self.now)) }
    {
        if self.wants_place() {
            return self.value_count();
        }
        if self.berths.len() < self.ships() as usize {
            return 2 * self.ships() as u32;
        }
        0
    }

    /// Takes an option of the next decision.
    fn take_option(&mut self, option: u32)
        requires good { IsFaultless self.old.deck (case_on self.old) }
        requires option { option < length (options_at (spot_rules self.old.deck) (case_on self.old)) }
        ensures deck { self.new.deck ≡ self.old.deck }
        ensures case { case_on self.new ≡ with_option (spot_rules self.old.deck) (case_on self.old) option }
    {
        if self.wants_place() {
            self.take_place(option);
        } else {
            self.take_berth(option);
        }
    }

    /// Takes the last option back.
    fn drop_option(&mut self)
        requires { 0 < length (case_on self.old) }
        ensures deck { self.new.deck ≡ self.old.deck }
        ensures case { (before : List Choice) (last : Choice) → case_on self.old ≡ before ++ last ∷ [] → case_on self.new ≡ before }
    {
        if self.wants_place() {
            self.unmoor();
        } else {
            self.unplace();
        }
    }
}

impl Track for SpotCase {
    ghost use Rattle.spot_place.specs.SpotCase.{OnWay, case_on};
    ghost use Rattle.spot_place.specs.Rules.{spot_rules};
    ghost use Rattle.spot_place.specs.Lawful.{spot-lawful};

    type Fault = SpotFault;

    ghost deck = { λ (s : OnWay). s.deck };

    ghost case = { case_on };

    ghost rules = { spot_rules };

    fn counts_faulty(&self) -> bool {
        true
    }

    fn judge(&self) -> Option<SpotFault> {
        self.fault()
    }

    fn write_fault(&self, fault: &SpotFault, marks: &mut Marks) -> Result<(), AllocError> {
        fault.write(marks)
    }

    fn is_whole(&self) -> bool {
        self.places.len() == self.ships() as usize
    }

    fn count(&self) -> u32 {
        self.option_count()
    }

    fn enter(&mut self, option: u32) {
        self.take_option(option);
    }

    fn leave(&mut self) {
        self.drop_option();
    }

    ghost lawful = { spot-lawful };
}
