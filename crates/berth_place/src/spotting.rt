//! A case that decides all berths: its faults across the chamber, and its spots.
ghost use Rattle.std.specs.Prelude.{◌≡◌, ◌<◌, ◌≤◌, ◌≤ℤ◌, pos, Some, length, IfSome, IfNone};
ghost use Rattle.refute_rules.specs.Decided.{berth_in};
ghost use Rattle.refute_rules.specs.Known.{y_in};
ghost use Rattle.diff_rules.specs.Differences.{value_at};
ghost use Rattle.refute_rules.specs.BerthFaults.{IsBerthFault};
ghost use Rattle.berth_place.specs.Along.{place_var};
ghost use Rattle.berth_place.specs.Faults.{fault_of};
ghost use Rattle.berth_place.specs.Known.{IsSoundShip, AreSoundShips, HasAllBerths};
ghost use Rattle.berth_place.specs.Pairs.{AreSmallValues};
ghost use Rattle.berth_place.specs.Spotting.{IsSpotOf, AreSpotsSoFar};

use crate::along::place_var;
use crate::faults::BerthFault;
use deck_cases::{Berth, Choice, berth_of, has_other_rank, is_outside_across, leads_back, y_of};
use lock_model::{Deck, MOST, Spot, Spots};

// A fault of a ship.
fn ship_fault(deck: &Deck, choices: &[Choice], ship: u8) -> Option<BerthFault>
    ensures some { IfSome result (λ f. IsBerthFault deck.now choices.now (fault_of f)) }
    ensures none { IfNone result (IsSoundShip deck.now choices.now ship) }
{
    if has_other_rank(choices, ship as u32) {
        return Some(BerthFault::OtherRank(ship));
    }
    if leads_back(deck, choices, ship as u32) {
        return Some(BerthFault::LeadsBack(ship));
    }
    if is_outside_across(deck, choices, ship as u32) {
        return Some(BerthFault::Outside(ship));
    }
    None
}

/// A fault of the first ship whose host has the other rank, that its hosts lead back to, or that
/// isn't inside across the chamber.
pub(crate) fn whole_fault(deck: &Deck, choices: &[Choice]) -> Option<BerthFault>
    ensures some { IfSome result (λ f. IsBerthFault deck.now choices.now (fault_of f)) }
    ensures none { IfNone result (AreSoundShips deck.now choices.now (length deck.now.ships)) }
{
    for ship in 0..deck.ships.as_slice().len() as u8 {
        if let Some(fault) = ship_fault(deck, choices, ship) {
            return Some(fault);
        }
    }
    None
}

// A ship's x.
fn x_at(deck: &Deck, values: &[i64], ship: u8) -> u32
    requires few { length deck.now.ships ≤ MOST }
    requires ship { ship < length deck.now.ships }
    requires small { AreSmallValues deck.now values.now }
    ensures { value_at values.now (place_var ship) ≡ pos result }
{
    values[place_var(ship) as usize] as u32
}

// A number that is known to be small.
fn small(number: i64) -> u32
    requires low { pos 0 ≤ℤ number }
    requires high { number ≤ℤ pos 100000 }
    ensures { number ≡ pos result }
{
    number as u32
}

// A ship's y.
fn y_at(deck: &Deck, choices: &[Choice], ship: u8) -> u32
    requires ship { ship < length deck.now.ships }
    requires whole { HasAllBerths deck.now choices.now }
    ensures { y_in deck.now choices.now ship ≡ Some (pos result) }
{
    // a deck keeps its limits
    prove!(!deck.ships.as_slice().is_empty());
    match y_of(deck, choices, ship as u32) {
        Some(y) => small(y),
        None => unreachable!(),
    }
}

// A ship's berth.
#[tactic(auto, using(crate::proofs::WholeLemmas::berth_decided))]
fn berth_at(deck: &Deck, choices: &[Choice], ship: u8) -> Berth
    requires ship { ship < length deck.now.ships }
    requires whole { HasAllBerths deck.now choices.now }
    ensures { Some result ≡ berth_in choices.now ship }
{
    match berth_of(choices, ship as u32) {
        Some(berth) => berth,
        None => unreachable!(),
    }
}

// The spot of a ship.
fn spot_of(deck: &Deck, choices: &[Choice], values: &[i64], ship: u8) -> Spot
    requires few { length deck.now.ships ≤ MOST }
    requires ship { ship < length deck.now.ships }
    requires whole { HasAllBerths deck.now choices.now }
    requires small { AreSmallValues deck.now values.now }
    ensures { IsSpotOf deck.now choices.now values.now ship result }
{
    let berth = berth_at(deck, choices, ship);
    Spot {
        x: x_at(deck, values, ship),
        y: y_at(deck, choices, ship),
        rank: berth.rank,
        moor: berth.moor,
    }
}

/// The spots of all ships.
pub(crate) fn spots_of(deck: &Deck, choices: &[Choice], values: &[i64]) -> Spots
    requires whole { HasAllBerths deck.now choices.now }
    requires small { AreSmallValues deck.now values.now }
    ensures { AreSpotsSoFar deck.now choices.now values.now (length deck.now.ships) result }
{
    prove!(deck.ships.as_slice().len() <= MOST);
    let mut spots = Spots::new();
    for ship in 0..deck.ships.as_slice().len() as u8 {
        spots.push(spot_of(deck, choices, values, ship));
    }
    spots
}
