//! What `solve`, `lot` and `trial` answer.
//!
//! `solve_answer` reads an instance text, searches all plans, and answers with the report of the best
//! one, with its dossier where it is cheapest, or with its open dossier where it is left open;
//! `lot_answer` prints the instance that a number makes, and `trial_answer` the first line of its
//! report. `report_answer`, `best_answer` and `dossier_text` serve other commands that search: they show
//! the best plan of a search that ended well. A text goes with one status, and each other answer has
//! its cause.
//!
//! Definitions: `specs/Options` (numbers in their ranges), `Searching` (a search that ended, and what
//! is answered then: of an open one its best plan and its verdict), `Keeping` (what is printed of a
//! search that is left open), `Solving` (what `solve` answers to bytes), `Lots` (what `lot` and `trial`
//! answer).
#![tactic(auto)]

mod keeping;
mod lots;
mod searching;
mod solving;

pub use lots::{lot_answer, trial_answer};
pub use searching::{best_answer, dossier_text, report_answer, shown, status_of};
pub use solving::solve_answer;
