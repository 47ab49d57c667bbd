//! A plan near loose lines.
//!
//! In loose lines a missing ship may stand several times, or not at all. `near_plan` keeps each ship in
//! the first of its groups, puts those that lack in where they cost least and fit, and then takes each
//! ship out and puts it in again, as long as that gains; where the caller asks for it, stretches of the
//! order of arrival too (`Moves`). Whether ships fit a chamber is asked of the caller (`Fitting`). By good
//! prices the plan is often a cheapest one.
//!
//! A line is walked once (`Row`, by the walks of `flow_bounds`), and a trial of a place goes on from the
//! walk there: to where it is in step with it again, or costs too much.
//!
//! - `lines`: lines with a ship more, or without it. `row`: a line with its walk. `entering`: the flow
//!   times of a row with a ship more. `draft`: rows as they are made. `keeping`: what is kept of loose
//!   lines. `putting`: where a ship costs least. `stretches`: several ships at a time. `near`: the whole.
//!   `plan`: the plan of a draft.
//!
//! The plan that comes out is legal and costs less than the caller asked; of how it is found nothing
//! is claimed.
//!
//! Definitions of private functions: `specs/Groups` says which ships may be asked of, `Rows` what a row
//! and a draft are.
#![tactic(auto)]

mod draft;
mod entering;
mod fitting;
mod keeping;
mod known;
mod lines;
mod near;
mod plan;
mod putting;
mod row;
mod sets;
mod stretches;

pub use fitting::{Fitting, fits};
pub use near::{Moves, near_plan};
