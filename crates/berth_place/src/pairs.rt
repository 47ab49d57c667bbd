//! Pairs of ships that overlap and have no order yet.
ghost use Rattle.std.specs.Prelude.{◌≡◌, ◌+◌, ◌*◌, ◌<◌, ◌≤◌, ◌↔◌, pos, ◌+ℤ◌, ◌≤ℤ◌, IsTrue, IfSome, IfNone, length};
ghost use Rattle.diff_rules.specs.Differences.{value_at};
ghost use Rattle.berth_place.specs.Along.{place_var};
ghost use Rattle.berth_place.specs.Pairs.{ArePairs, AreAllPairs, AreApartAlong, IsBeforeAt, AreFirstApart, AreNotApart};
ghost use Rattle.berth_place.specs.Pairs.{AreSmallValues, ArePairsBut, ArePartlyPairs};

use crate::along::{along, place_var};
use arrayvec::ArrayVec;
use berth_check::do_overlap;
use deck_cases::Choice;
use lock_model::{Deck, MOST};

/// Two ships of a deck, the lower number first.
#[derive(Clone, Copy, PartialEq, Eq, Default)]
pub(crate) struct Pair {
    pub(crate) lower: u8,
    pub(crate) upper: u8,
}

/// Some pairs of ships. There is room for each two numbers of ships.
pub(crate) type Pairs = ArrayVec<Pair, 64>;

// Appends a pair, where it overlaps.
#[tactic(auto, using(crate::proofs::PairLemmas::of_pairs))]
fn add_pair(deck: &Deck, choices: &[Choice], lower: u8, upper: u8, pairs: &mut Pairs)
    requires lower { lower < upper }
    requires upper { upper < length deck.now.ships }
    requires room { length pairs.old.items < 64 }
    requires pairs { ArePairs deck.now choices.now pairs.old.items }
    requires partly { ArePartlyPairs deck.now choices.now pairs.old.items upper lower }
    ensures room { length pairs.new.items ≤ length pairs.old.items + 1 }
    ensures pairs { ArePairs deck.now choices.now pairs.new.items }
    ensures partly { ArePartlyPairs deck.now choices.now pairs.new.items upper (lower + 1) }
{
    if do_overlap(deck, choices, lower as u32, upper as u32) {
        pairs.push(Pair { lower, upper });
    }
}

// Appends the pairs of a ship with the lower ones that overlap.
#[tactic(auto, using(crate::proofs::PairLemmas::partly_begun, crate::proofs::PairLemmas::partly_whole))]
fn add_pairs(deck: &Deck, choices: &[Choice], upper: u8, pairs: &mut Pairs)
    requires upper { upper < length deck.now.ships }
    requires room { length pairs.old.items ≤ MOST * upper }
    requires pairs { ArePairs deck.now choices.now pairs.old.items }
    requires all { AreAllPairs deck.now choices.now pairs.old.items upper }
    ensures room { length pairs.new.items ≤ MOST * (upper + 1) }
    ensures pairs { ArePairs deck.now choices.now pairs.new.items }
    ensures all { AreAllPairs deck.now choices.now pairs.new.items (upper + 1) }
{
    prove!(deck.ships.as_slice().len() <= MOST);
    for lower in 0..upper {
        add_pair(deck, choices, lower, upper, pairs);
    }
}

/// All pairs of ships that overlap.
#[tactic(auto, using(crate::proofs::PairLemmas::pairs_begun, crate::proofs::PairLemmas::all_begun))]
pub(crate) fn overlapping(deck: &Deck, choices: &[Choice]) -> Pairs
    ensures few { length result.items ≤ 64 }
    ensures pairs { ArePairs deck.now choices.now result.items }
    ensures all { AreAllPairs deck.now choices.now result.items (length deck.now.ships) }
{
    prove!(deck.ships.as_slice().len() <= MOST);
    let mut pairs = ArrayVec::new();
    for upper in 0..deck.ships.as_slice().len() as u8 {
        add_pairs(deck, choices, upper, &mut pairs);
    }
    pairs
}

// A ship's x.
#[tactic(auto, using(crate::proofs::PairLemmas::value_small))]
fn place_of(deck: &Deck, values: &[i64], ship: u8) -> i64
    requires few { length deck.now.ships ≤ MOST }
    requires ship { ship < length deck.now.ships }
    requires small { AreSmallValues deck.now values.now }
    ensures value { result ≡ value_at values.now (place_var ship) }
    ensures low { pos 0 ≤ℤ result }
    ensures high { result ≤ℤ pos 16000000 }
{
    values[place_var(ship) as usize]
}

// Whether the values put a ship before another.
fn is_before(deck: &Deck, values: &[i64], first: u8, second: u8) -> bool
    requires few { length deck.now.ships ≤ MOST }
    requires first { first < length deck.now.ships }
    requires second { second < length deck.now.ships }
    requires small { AreSmallValues deck.now values.now }
    ensures { IsTrue result ↔ IsBeforeAt deck.now values.now first second }
{
    let far = place_of(deck, values, first) + along(deck, first);
    if far <= place_of(deck, values, second) {
        true
    } else {
        false
    }
}

// Whether the values put one ship of a pair before the other.
fn are_apart(deck: &Deck, values: &[i64], pair: Pair) -> bool
    requires few { length deck.now.ships ≤ MOST }
    requires lower { pair.lower < length deck.now.ships }
    requires upper { pair.upper < length deck.now.ships }
    requires small { AreSmallValues deck.now values.now }
    ensures { IsTrue result ↔ AreApartAlong deck.now values.now pair }
{
    is_before(deck, values, pair.lower, pair.upper)
        || is_before(deck, values, pair.upper, pair.lower)
}

/// The number of the first pair that the values don't put apart.
#[tactic(auto, using(crate::proofs::PairLemmas::pair_number, crate::proofs::PairLemmas::apart_begun, crate::proofs::PairLemmas::apart_more))]
pub(crate) fn first_touching(deck: &Deck, values: &[i64], pairs: &[Pair]) -> Option<usize>
    requires pairs { (case : _) × ArePairs deck.now case pairs.now }
    requires small { AreSmallValues deck.now values.now }
    ensures none { IfNone result (AreFirstApart deck.now values.now pairs.now (length pairs.now)) }
    ensures some { IfSome result (AreNotApart deck.now values.now pairs.now) }
{
    prove!(deck.ships.as_slice().len() <= MOST);
    for number in 0..pairs.len() {
        if !are_apart(deck, values, pairs[number]) {
            return Some(number);
        }
    }
    None
}

/// The pairs but the one of this number.
#[tactic(auto, using(crate::proofs::PairLemmas::of_kept_pairs))]
pub(crate) fn without(pairs: &[Pair], number: usize) -> Pairs
    requires number { number < length pairs.now }
    requires few { length pairs.now ≤ 64 }
    ensures { ArePairsBut pairs.now number result.items }
{
    let mut left = ArrayVec::new();
    for place in 0..pairs.len() {
        if place != number {
            left.push(pairs[place]);
        }
    }
    left
}
