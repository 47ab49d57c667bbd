//! What stands at the front of the marks that are left.
ghost use Rattle.std.specs.Prelude.{◌≡◌, ◌≢◌, ◌<◌, ◌≤◌, ◌+◌, ◌↔◌, IsTrue, length, slice_index_or};
ghost use Rattle.refute_rules.specs.BerthTrees.{IsOpen, OfBerth};
ghost use Rattle.berth_check.specs.Raises.{AreKnown};
ghost use Rattle.berth_check.specs.Fronts.{IsFaultAt, IsFront};

use crate::pairs::are_unordered;
use crate::places::has_places;
use crate::spans::{are_too_many, is_crowd, is_too_long};
use deck_cases::{Choice, berth_of, has_other_rank, is_outside_across, leads_back};
use lock_model::{Deck, MOST};

/// A leaf, a split by a ship's berth, or a split by the order of two ships, and where it ends.
#[derive(Clone, Copy)]
pub(crate) enum Front {
    Leaf(usize),
    Berth(u8, usize),
    Order(u8, u8, usize),
    Nothing,
}

// Whether a kind of one number tells a fault of the case.
fn is_fault(deck: &Deck, choices: &[Choice], kind: u32, number: u32) -> bool
    ensures { IsTrue result ↔ IsFaultAt deck.now choices.now kind number }
{
    match kind {
        1 => has_other_rank(choices, number),
        2 => leads_back(deck, choices, number),
        3 => is_too_long(deck, choices, number),
        4 => is_outside_across(deck, choices, number),
        5 => are_too_many(deck, choices, number),
        6 => is_crowd(deck, choices, number),
        _ => false,
    }
}

// Whether a ship's berth is open.
fn is_open_berth(deck: &Deck, choices: &[Choice], ship: u32) -> bool
    ensures { IsTrue result ↔ IsOpen deck.now choices.now (OfBerth ship) }
{
    (ship as usize) < deck.ships.as_slice().len() && berth_of(choices, ship).is_none()
}

// The front where its kind is 8.
#[tactic(auto, using(crate::proofs::FrontLemmas::places_leaf, crate::proofs::FrontLemmas::places_none))]
fn places_front(deck: &Deck, choices: &[Choice], marks: &[u32], at: usize) -> Front
    requires known { AreKnown deck.now choices.now }
    requires inside { at < length marks.now }
    requires kind { slice_index_or marks.now at 0 ≡ 8 }
    ensures { IsFront deck.now choices.now marks.now at result }
{
    if has_places(deck, choices) {
        Front::Nothing
    } else {
        Front::Leaf(at + 1)
    }
}

// The front where its kind is 0.
#[tactic(auto, using(crate::proofs::FrontLemmas::berth_split, crate::proofs::FrontLemmas::berth_none))]
fn berth_front(deck: &Deck, choices: &[Choice], marks: &[u32], at: usize) -> Front
    requires inside { at + 1 < length marks.now }
    requires kind { slice_index_or marks.now at 0 ≡ 0 }
    ensures { IsFront deck.now choices.now marks.now at result }
{
    prove!(deck.ships.as_slice().len() <= MOST);
    let ship = marks[at + 1];
    if is_open_berth(deck, choices, ship) {
        Front::Berth(ship as u8, at + 2)
    } else {
        Front::Nothing
    }
}

// The front where its kind is 7.
#[tactic(auto, using(crate::proofs::FrontLemmas::order_split, crate::proofs::FrontLemmas::order_none, crate::proofs::FrontLemmas::order_short))]
fn order_front(deck: &Deck, choices: &[Choice], marks: &[u32], at: usize) -> Front
    requires known { AreKnown deck.now choices.now }
    requires inside { at + 1 < length marks.now }
    requires kind { slice_index_or marks.now at 0 ≡ 7 }
    ensures { IsFront deck.now choices.now marks.now at result }
{
    prove!(deck.ships.as_slice().len() <= MOST);
    if at + 2 >= marks.len() {
        return Front::Nothing;
    }
    let first = marks[at + 1];
    let second = marks[at + 2];
    if are_unordered(deck, choices, first, second) {
        Front::Order(first as u8, second as u8, at + 3)
    } else {
        Front::Nothing
    }
}

// The front where its kind is none of these.
#[tactic(auto, using(crate::proofs::FrontLemmas::fault_leaf, crate::proofs::FrontLemmas::fault_none))]
fn fault_front(deck: &Deck, choices: &[Choice], marks: &[u32], at: usize) -> Front
    requires inside { at + 1 < length marks.now }
    requires no_berth { slice_index_or marks.now at 0 ≢ 0 }
    requires no_order { slice_index_or marks.now at 0 ≢ 7 }
    requires no_places { slice_index_or marks.now at 0 ≢ 8 }
    ensures { IsFront deck.now choices.now marks.now at result }
{
    if is_fault(deck, choices, marks[at], marks[at + 1]) {
        Front::Leaf(at + 2)
    } else {
        Front::Nothing
    }
}

/// What stands at a place of the marks.
#[tactic(auto, using(crate::proofs::FrontLemmas::none_at_end, crate::proofs::FrontLemmas::none_of_one))]
pub(crate) fn front_at(deck: &Deck, choices: &[Choice], marks: &[u32], at: usize) -> Front
    requires { AreKnown deck.now choices.now }
    ensures { IsFront deck.now choices.now marks.now at result }
{
    if at >= marks.len() {
        return Front::Nothing;
    }
    if marks[at] == 8 {
        return places_front(deck, choices, marks, at);
    }
    if at + 1 >= marks.len() {
        return Front::Nothing;
    }
    match marks[at] {
        0 => berth_front(deck, choices, marks, at),
        7 => order_front(deck, choices, marks, at),
        _ => fault_front(deck, choices, marks, at),
    }
}
