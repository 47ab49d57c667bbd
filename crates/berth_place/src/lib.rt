//! The placer by berths: decides the berths of a deck's ships, hosts and long ships first, and then the
//! order of each two that overlap, or refutes the deck.
//!
//! `place_by_berths` answers with legal spots, with a berth tree of the deck, or where its turns are
//! too few.
//! - What it answers: `specs/Placing`, by the trees of `refute_rules`, and `Unfinished` for a tree that
//!   the turns cut off.
//! - `deciding` splits by berths and `ordering` by orders; what the visit of a case does stands in
//!   `specs/Visits`. `search` is the case at hand and what the search has come to.
//! - `likely`, `lanes` and `crowds` guess a fault of the last berth; `faults` tests it before it is
//!   written.
//! - `along` and `pairs`: the difference constraints along the chamber, and the pairs that their
//!   least solution leaves touching (`specs/Along`, `Pairs`). `spotting` makes the spots of a case
//!   that decides all berths (`specs/Known`, `Spotting`).
//!
//! Cargo and quick reasons play no part.
#![tactic(auto)]

mod along;
mod crowds;
mod deciding;
mod faults;
mod lanes;
mod likely;
mod ordering;
mod pairs;
mod placing;
mod search;
mod spotting;

pub use placing::{BerthPlaced, place_by_berths};
