//! The opening plan: each ship alone, as early as a chamber that takes it can serve it, and then
//! lockages merged as long as that lowers the cost.
//!
//! `first_plan` is legal, and costs at most what the singles plan costs. `singles_plan` is the plan
//! before the merges, which takes no memory.
//!
//! Definitions: `lock_rules` says which ship is the first unfit one (`specs/Unfit`) and what the
//! singles plan and its cost are (`specs/Singles`); here `specs/Merging` (plans that cost less).
#![tactic(auto)]

mod choice;
mod joined;
mod merging;
mod opening;
mod singles;
mod standing;

pub use opening::{FirstError, first_plan, singles_plan};
