//! The groups that may come next in a loose line of a chamber, few of them: one of those that serve as
//! well, which dominates the others.
//!
//! `successors` gives of the groups that have grown those that are enough: for each uncut group one of
//! them dominates it, or it gains nothing. `late_lists_of` gives fewer that are enough from minutes on,
//! later and later ones, and `successor_lists_of` what may come next at each place of the line.
//!
//! Definitions: `specs/Successors` says what a successor is, `Dominance` when one serves as well as
//! another, `Enough` which successors are enough for a line, `LateLists` and `SuccessorLists` which are
//! from a minute on and at a place, and `Counted` when what begins with a successor is known to be worth
//! no less.
#![tactic(auto)]

mod bests;
mod buckets;
mod choosing;
mod dominance;
mod gainless;
mod late_list;
mod late_lists;
mod lateness;
mod paying;
mod successor;
mod successor_list;
mod successor_lists;

pub use buckets::Buckets;
pub use choosing::successors;
pub use late_list::LateList;
pub use late_lists::late_lists_of;
pub use lateness::latest;
pub use successor::{Successor, led};
pub use successor_list::SuccessorList;
pub use successor_lists::successor_lists_of;
