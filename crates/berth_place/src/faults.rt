//! Faults of a berth case.
ghost use Rattle.std.specs.Prelude.{◌≡◌, [], ◌∷◌, ◌++◌, IsTrue, OnOk};
ghost use Rattle.refute_rules.specs.BerthFaults.{IsBerthFault, berth_fault_numbers};
ghost use Rattle.berth_place.specs.Faults.{fault_of};

use berth_check::{are_too_many, is_crowd, is_too_long};
use deck_cases::{Choice, has_other_rank, is_outside_across, leads_back};
use lock_model::Deck;
use refute_rules::Marks;
use std::alloc::AllocError;

/// Why no placement obeys a case: a ship with a host of the other rank, a ship that its hosts lead
/// back to, a ship longer than its host, a ship outside across the chamber, a ship with too many
/// guests, a crowd of ships as a set of bits, or no places along the chamber.
#[derive(Clone, Copy)]
pub(crate) enum BerthFault {
    OtherRank(u8),
    LeadsBack(u8),
    TooLong(u8),
    Outside(u8),
    Guests(u8),
    Crowd(u32),
    NoPlaces,
}

// Appends two numbers.
fn write_two(kind: u32, number: u32, marks: &mut Marks) -> Result<(), AllocError>
    ensures { OnOk result (marks.new ≡ marks.old ++ kind ∷ number ∷ []) }
{
    marks.push(kind)?;
    marks.push(number)
}

/// Appends the numbers of a fault to a tree.
pub(crate) fn write_fault(fault: BerthFault, marks: &mut Marks) -> Result<(), AllocError>
    ensures { OnOk result (marks.new ≡ marks.old ++ berth_fault_numbers (fault_of fault)) }
{
    match fault {
        BerthFault::OtherRank(ship) => write_two(1, ship as u32, marks),
        BerthFault::LeadsBack(ship) => write_two(2, ship as u32, marks),
        BerthFault::TooLong(ship) => write_two(3, ship as u32, marks),
        BerthFault::Outside(ship) => write_two(4, ship as u32, marks),
        BerthFault::Guests(ship) => write_two(5, ship as u32, marks),
        BerthFault::Crowd(set) => write_two(6, set, marks),
        BerthFault::NoPlaces => marks.push(8),
    }
}

/// Whether a fault stands in a case, where it is one of berths; of places this tells nothing.
pub(crate) fn stands(deck: &Deck, choices: &[Choice], fault: BerthFault) -> bool
    ensures { IsTrue result → IsBerthFault deck.now choices.now (fault_of fault) }
{
    match fault {
        BerthFault::OtherRank(ship) => has_other_rank(choices, ship as u32),
        BerthFault::LeadsBack(ship) => leads_back(deck, choices, ship as u32),
        BerthFault::TooLong(ship) => is_too_long(deck, choices, ship as u32),
        BerthFault::Outside(ship) => is_outside_across(deck, choices, ship as u32),
        BerthFault::Guests(ship) => are_too_many(deck, choices, ship as u32),
        BerthFault::Crowd(set) => is_crowd(deck, choices, set),
        BerthFault::NoPlaces => false,
    }
}
