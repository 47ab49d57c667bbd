//! The order of each two ships that overlap.
ghost use Rattle.std.specs.Prelude.{◌≡◌, ◌<◌, ◌++◌, length, OnOk, IfOk, IfErr};
ghost use Rattle.diff_rules.specs.Differences.{IsSimpleCycle};
ghost use Rattle.diff_system.specs.PathTree.{AreLongest};
ghost use Rattle.refute_rules.specs.BerthTrees.{OfOrder, split_numbers};
ghost use Rattle.berth_place.specs.Along.{place_count};
ghost use Rattle.berth_place.specs.Known.{AreDecided};
ghost use Rattle.berth_place.specs.Pairs.{AreNotApart};
ghost use Rattle.berth_place.specs.Visits.{IsBerthing, IsOrdering, IsOrderedOn, IsTakenPair, IsVisit, IsVisitOf, TakesOrder, order_of};

use crate::along::{add_berths, add_order, place_count};
use crate::faults::BerthFault;
use crate::pairs::{Pair, Pairs, first_touching, overlapping, without};
use crate::search::{Search, Visit, close, try_option};
use crate::spotting::{spots_of, whole_fault};
use deck_cases::Choice;
use diff_system::{LongestPaths, Numbers};
use lock_model::{Deck, MOST};
use no_memory::NoMemory;
use refute_rules::Marks;
use std::alloc::AllocError;

// Appends the numbers of a split by the order of two ships.
fn write_split(pair: Pair, marks: &mut Marks) -> Result<(), AllocError>
    ensures { OnOk result (marks.new ≡ marks.old ++ split_numbers (OfOrder pair.lower pair.upper)) }
{
    marks.push(7)?;
    marks.push(pair.lower as u32)?;
    marks.push(pair.upper as u32)
}

// Takes an order of two ships: first as they stand, then turned round.
fn take_order(search: &mut Search, deck: &Deck, pair: Pair, option: u8) -> Result<(), NoMemory>
    requires lower { pair.lower < MOST }
    requires upper { pair.upper < MOST }
    requires option { option < 2 }
    requires room { length search.old.edges < 96 }
    ensures { OnOk result (TakesOrder deck.now pair option search.old search.new) }
{
    let (first, second) = if option == 0 {
        (pair.lower, pair.upper)
    } else {
        (pair.upper, pair.lower)
    };
    add_order(deck, first, second, &mut search.edges);
    search.case.push(Choice::Before(first, second))
}

// Visits the case at hand with one order more, which is then taken back.
#[cycle(order_pairs)]
fn try_order(
    search: &mut Search,
    deck: &Deck,
    paths: &LongestPaths,
    left: &Pairs,
    pair: Pair,
    option: u8,
) -> Result<Visit, NoMemory>
    requires ordering { IsOrdering deck.now search.old }
    requires longest { AreLongest search.old.edges (place_count deck.now) paths.now }
    requires taken { (ps : _) × (number : _) × IsTakenPair deck.now search.old ps number pair left.now.items }
    requires option { option < 2 }
    ensures { IfOk result (IsVisitOf deck.now (order_of pair option) search.old search.new) }
{
    if !try_option(search) {
        return Ok(Visit::Spent);
    }
    let taken = search.case.len();
    let known = search.edges.as_slice().len();
    take_order(search, deck, pair, option)?;
    let solved = paths.extended(&search.edges, place_count(deck), known);
    let visit = order_pairs(search, deck, solved, left)?;
    if visit != Visit::Closed {
        return Ok(visit);
    }
    search.case.truncate(taken);
    search.edges.truncate(known);
    Ok(Visit::Closed)
}

// Visits the case at hand, in which a pair isn't apart yet, and its extensions.
#[cycle(order_pairs)]
fn split_pair(
    search: &mut Search,
    deck: &Deck,
    paths: &LongestPaths,
    pairs: &Pairs,
    number: usize,
) -> Result<Visit, NoMemory>
    requires ordered { IsOrderedOn deck.now search.old pairs.now.items }
    requires longest { AreLongest search.old.edges (place_count deck.now) paths.now }
    requires touching { AreNotApart deck.now paths.now.values pairs.now.items number }
    ensures { IfOk result (IsVisit deck.now search.old search.new) }
{
    let pair = pairs.as_slice()[number];
    let left = without(pairs.as_slice(), number);
    write_split(pair, &mut search.marks)?;
    for option in 0..2u8 {
        let visit = try_order(search, deck, paths, &left, pair, option)?;
        if visit != Visit::Closed {
            return Ok(visit);
        }
    }
    Ok(Visit::Closed)
}

// Visits the case at hand, whose longest paths and pairs without an order are told, and its
// extensions.
#[cycle(order_pairs)]
fn order_pairs(
    search: &mut Search,
    deck: &Deck,
    solved: Result<LongestPaths, Numbers>,
    pairs: &Pairs,
) -> Result<Visit, NoMemory>
    requires ordered { IsOrderedOn deck.now search.old pairs.now.items }
    requires longest { IfOk solved (AreLongest search.old.edges (place_count deck.now)) }
    requires cycle { IfErr solved (IsSimpleCycle search.old.edges) }
    ensures { IfOk result (IsVisit deck.now search.old search.new) }
{
    match solved {
        Err(_) => close(search, deck, BerthFault::NoPlaces),
        Ok(paths) => place_pairs(search, deck, &paths, pairs),
    }
}

// The same, where the longest paths are those of the case.
#[cycle(order_pairs)]
fn place_pairs(
    search: &mut Search,
    deck: &Deck,
    paths: &LongestPaths,
    pairs: &Pairs,
) -> Result<Visit, NoMemory>
    requires ordered { IsOrderedOn deck.now search.old pairs.now.items }
    requires longest { AreLongest search.old.edges (place_count deck.now) paths.now }
    ensures { IfOk result (IsVisit deck.now search.old search.new) }
{
    match first_touching(deck, paths.values().as_slice(), pairs.as_slice()) {
        None => {
            search.spots = spots_of(deck, search.case.choices(), paths.values().as_slice());
            Ok(Visit::Placed)
        }
        Some(number) => split_pair(search, deck, paths, pairs, number),
    }
}

/// Visits the case at hand, whose options are berths of all ships, and its extensions.
pub(crate) fn order_ships(search: &mut Search, deck: &Deck) -> Result<Visit, NoMemory>
    requires berthing { IsBerthing deck.now search.old }
    requires decided { AreDecided search.old.case (length deck.now.ships) }
    ensures { IfOk result (IsVisit deck.now search.old search.new) }
{
    // a deck keeps its limits
    prove!(!deck.ships.as_slice().is_empty());
    if let Some(fault) = whole_fault(deck, search.case.choices()) {
        return close(search, deck, fault);
    }
    let choices = search.case.choices();
    add_berths(deck, choices, &mut search.edges);
    let solved = LongestPaths::of(&search.edges, place_count(deck));
    let pairs = overlapping(deck, choices);
    let visit = order_pairs(search, deck, solved, &pairs)?;
    search.edges.truncate(0);
    Ok(visit)
}
