//! The placer by berths and relations: where the ships of a deck lie, or why they don't fit.
//!
//! - `place` is exact to its turns: the first quick reason; the least solution of the first whole
//!   case, which is legal; a case tree that refutes all cases; or that the turns were too few.
//! - `shrink` makes a cut of a refuted deck that has no ship too many for `place`.
//!
//! Definitions: `refute_rules` says what cases, their edges and case trees are (`specs/Cases`,
//! `Edges`, `Trees`), which comes first (`Listing`), and when a deck is hard. Here `specs/Placing`
//! says what `place` answers and which decks it refutes, and `Parts` what `shrink` gives.
//!
//! The search is that of `case_search`. `DeckCase` holds its case: options are taken one by one and
//! taken back, each with its edges, and the longest paths of `diff_system` go on from the case
//! before. `specs/OnItsWay` says what it keeps.
#![tactic(auto)]

mod deck_case;
mod edges;
mod faults;
mod parts;
mod placing;
mod ranks;
mod shrinking;
mod solving;
mod spotting;

pub use placing::{Placed, place};
pub use shrinking::shrink;
