//! What the program of the picture answers to its words and a source.
//!
//! `picture` reads an instance and then a plan of it, as `judge` does, or a dossier, as `check` and
//! `lower` do: the line behind the instance tells which. It answers the plan's picture as one page, or
//! what those commands answer where they refuse. `--clock HH:MM` says which time of day minute 0 is,
//! and `--now N` which minute it is: the page then shows what has begun before it.
//!
//! `accepted_are_drawn` and `standing_are_drawn` are the laws that a dossier which is accepted, and an
//! open one that stands, are drawn, want of memory aside.
//!
//! Definitions: `specs/Asked` (what the words ask for), `Headings` (what follows an instance part),
//! `Pictures` (what is answered to bytes), `Runs` (what is answered to words and a source), `Complete`
//! (which dossiers are drawn).
#![tactic(auto)]

mod answers;
mod asked;
mod headings;
mod laws;
mod pages;
mod pictures;

pub use answers::answer_to;
pub use laws::{accepted_are_drawn, standing_are_drawn};
