//! The placer by spots: places the ships of a deck at the places along the chamber where a ship that
//! is pushed to the near end can lie, or refutes the deck.
//!
//! `place_by_spots` goes through the spot cases of a deck: for each ship in order its berth and then
//! its x, one of the spot values. It is exact to the turn: the spots of the first whole spot case; or
//! a spot tree, and then the deck doesn't fit; or that the turns are spent.
//! - What it answers: `specs/Placing`, by the cases, lists and trees of `refute_rules`.
//! - What is kept of a spot case on its way: `specs/OnWay`, `Heights` and `SpotCase`.
//! - What the search of `case_search` goes by: `specs/Faults`, `Rules` and `Lawful`.
//!
//! Laws in `proofs/`: the spots of a whole spot case are legal (`WholeLemmas`).
#![tactic(auto)]

mod berths;
mod faults;
mod geometry;
mod heights;
mod judging;
mod options;
mod placing;
mod spot_case;
mod spots;
mod tracking;

pub use placing::{SpotPlaced, place_by_spots};
