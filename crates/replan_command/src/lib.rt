//! What `replan` answers.
//!
//! `replan_answer` reads an instance text and a plan text behind it, keeps the lockages of the plan
//! that start before a minute, and of a day as it is lived the empty turns that have begun, and plans
//! the other ships anew: it answers with the report of a plan that is cheapest of those that keep the
//! kept part, and of a day as it is lived can still be carried out, or with the dossier of the rest. A text goes
//! with one status, and each other answer has its cause.
//!
//! Definitions: `specs/Options` (numbers in their ranges), `Rests` (the rest that is asked for),
//! `Keeping` (what is printed where the part can be kept), `Replanning` (what is answered to bytes),
//! `Ends` (how replanning may end).
#![tactic(auto)]

mod keeping;
mod refusals;
mod replanning;
mod rests;
mod whole;

pub use replanning::replan_answer;
