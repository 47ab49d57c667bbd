//! The search through the cases of a deck, for the placers by cases and by spots.
//!
//! `search` goes through the cases of a `Track`, each before its extensions and extensions by rising
//! option, and counts turns. It is exact to the turn: it ends at the first whole case, or with a
//! tree of marks that refutes them all, or once its turns are spent.
//! - `Track` is a case on its way through the decisions. Its `Rules` say what the decisions, faults
//!   and ends are, and whether a faulty case takes a turn: `specs/Rules.antt`.
//! - What `search` answers: `specs/Found.antt`, by the lists and trees of `refute_rules`.
//! - `specs/Counts.antt` and `Visits.antt` say what the visit of one case does.
#![tactic(auto)]

mod searching;
mod tracks;
mod visits;

pub use searching::{Found, search};
pub use tracks::Track;
