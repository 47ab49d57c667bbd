//! What is known of decks that don't fit, or that are hard: types that keep a fact.
//!
//! - `Cut` keeps that its refutation holds for its deck. `known_cut` takes it from who has proved it;
//!   `place_refute` makes one by a check, and `chamber_place` by shrinking. `copy_cut` copies a cut.
//! - `cut_hits` says exactly whether a cut speaks of a chamber and ships; then these don't fit.
//! - `Hard` and `HardSpots` keep that a deck needs more turns than it was given.
//!
//! No refutation is checked here, so that who passes cuts on stands on no checker.
//!
//! Definitions: `refute_rules` says what a cut keeps (`specs/Cuts`) and which decks are hard (`Cases`,
//! `Spots`), `lock_rules` what a cut hits (`Cut`). Here `specs/Tried` is a deck and its turns; of
//! private functions alone speaks `CutHits`.
#![tactic(auto)]

mod cut;
mod hard_deck;
mod hits;
mod known;

pub use cut::{Cut, copy_cut, known_cut};
pub use hard_deck::{Hard, HardSpots};
pub use hits::cut_hits;
pub use known::{hard, hard_spots};
pub use refute_rules::{Marks, Quick, Refutation};
