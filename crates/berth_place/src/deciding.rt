//! The berths of a deck's ships, hosts and long ships first.
ghost use Rattle.std.specs.Prelude.{◌≡◌, ◌<◌, ◌*◌, ◌≤◌, [], ◌∷◌, ◌++◌, None, length, slice_index_or, OnOk, IfOk, IfSome, IfNone};
ghost use Rattle.refute_rules.specs.declared.choices.Choice.TheVariants.{Before};
ghost use Rattle.refute_rules.specs.BerthTrees.{OfBerth, IsOpen, split_options, split_numbers};
ghost use Rattle.berth_place.specs.Known.{IsDecided, AreDecided};
ghost use Rattle.berth_place.specs.Visits.{IsBerthing, IsVisit, IsVisitOf};

use crate::likely::found_fault;
use crate::ordering::order_ships;
use crate::search::{Search, Visit, close, try_option};
use berth_check::BerthCase;
use deck_cases::{Choice, berth_of, berth_option, host_of, length_of, width_of};
use lock_model::{Deck, MOST};
use no_memory::NoMemory;
use refute_rules::Marks;
use std::alloc::AllocError;

// Whether a ship is the host of a ship whose berth is decided.
fn has_guest(deck: &Deck, choices: &[Choice], ship: u8) -> bool {
    for guest in 0..deck.ships.as_slice().len() as u8 {
        if host_of(choices, guest as u32) == Some(ship) {
            return true;
        }
    }
    false
}

// Whether a ship is longer than another, or as long and wider.
fn is_larger(deck: &Deck, ship: u8, other: u8) -> bool {
    let one = length_of(deck, ship as u32);
    let two = length_of(deck, other as u32);
    one > two || one == two && width_of(deck, ship as u32) > width_of(deck, other as u32)
}

// Whether the berth of a ship is to be decided before that of another: hosts come first, since the
// places of their guests across the chamber aren't known before, and then larger ships.
fn comes_before(deck: &Deck, choices: &[Choice], ship: u8, other: u8) -> bool {
    let is_host = has_guest(deck, choices, ship);
    if is_host == has_guest(deck, choices, other) {
        is_larger(deck, ship, other)
    } else {
        is_host
    }
}

// The ship that was found, or this one where its berth isn't decided and comes before.
fn earlier(deck: &Deck, choices: &[Choice], found: Option<u8>, ship: u8) -> Option<u8>
    requires found { IfSome found (λ i. IsOpen deck.now choices.now (OfBerth i)) }
    requires ship { ship < length deck.now.ships }
    ensures some { IfSome result (λ i. IsOpen deck.now choices.now (OfBerth i)) }
    ensures none { IfNone result ((found ≡ None) × IsDecided choices.now ship) }
{
    if berth_of(choices, ship as u32).is_some() {
        return found;
    }
    match found {
        Some(other) if !comes_before(deck, choices, ship, other) => found,
        _ => Some(ship),
    }
}

// The ship whose berth is decided next, the first of those of which none comes before another.
fn next_ship(deck: &Deck, choices: &[Choice]) -> Option<u8>
    ensures some { IfSome result (λ i. IsOpen deck.now choices.now (OfBerth i)) }
    ensures none { IfNone result (AreDecided choices.now (length deck.now.ships)) }
{
    let mut next = None;
    for ship in 0..deck.ships.as_slice().len() as u8 {
        next = earlier(deck, choices, next, ship);
    }
    next
}

// Appends the numbers of a split by a ship's berth.
fn write_split(ship: u8, marks: &mut Marks) -> Result<(), AllocError>
    ensures { OnOk result (marks.new ≡ marks.old ++ split_numbers (OfBerth ship)) }
{
    marks.push(0)?;
    marks.push(ship as u32)
}

// Takes a berth of a ship by its number.
fn take_berth(case: &mut BerthCase, deck: &Deck, ship: u8, option: u32) -> Result<(), NoMemory>
    requires ship { ship < length deck.now.ships }
    requires option { option < 2 * length deck.now.ships }
    ensures { OnOk result (case.new ≡ case.old ++ slice_index_or (split_options deck.now (OfBerth ship)) option (Before 0 0) ∷ []) }
{
    prove!(deck.ships.as_slice().len() <= MOST);
    let berth = berth_option(deck.ships.as_slice().len() as u8, ship, option);
    case.push(Choice::Lies(ship, berth))
}

// Visits the case at hand with one berth more, which is then taken back.
#[cycle(decide)]
fn try_berth(search: &mut Search, deck: &Deck, ship: u8, option: u32) -> Result<Visit, NoMemory>
    requires berthing { IsBerthing deck.now search.old }
    requires left_open { IsOpen deck.now search.old.case (OfBerth ship) }
    requires option { option < 2 * length deck.now.ships }
    ensures { IfOk result (IsVisitOf deck.now (slice_index_or (split_options deck.now (OfBerth ship)) option (Before 0 0)) search.old search.new) }
{
    if !try_option(search) {
        return Ok(Visit::Spent);
    }
    let taken = search.case.len();
    take_berth(&mut search.case, deck, ship, option)?;
    let visit = decide(search, deck)?;
    if visit != Visit::Closed {
        return Ok(visit);
    }
    search.case.truncate(taken);
    Ok(Visit::Closed)
}

// Visits the case at hand, which leaves the berth of a ship open, and its extensions.
#[cycle(decide)]
fn split_berth(search: &mut Search, deck: &Deck, ship: u8) -> Result<Visit, NoMemory>
    requires berthing { IsBerthing deck.now search.old }
    requires left_open { IsOpen deck.now search.old.case (OfBerth ship) }
    ensures { IfOk result (IsVisit deck.now search.old search.new) }
{
    write_split(ship, &mut search.marks)?;
    for option in 0..2 * deck.ships.as_slice().len() as u32 {
        let visit = try_berth(search, deck, ship, option)?;
        if visit != Visit::Closed {
            return Ok(visit);
        }
    }
    Ok(Visit::Closed)
}

/// Visits the case at hand, whose options are berths, and its extensions.
#[cycle(decide)]
pub(crate) fn decide(search: &mut Search, deck: &Deck) -> Result<Visit, NoMemory>
    requires { IsBerthing deck.now search.old }
    ensures { IfOk result (IsVisit deck.now search.old search.new) }
{
    if let Some(fault) = found_fault(deck, search.case.choices()) {
        return close(search, deck, fault);
    }
    match next_ship(deck, search.case.choices()) {
        None => order_ships(search, deck),
        Some(ship) => split_berth(search, deck, ship),
    }
}
