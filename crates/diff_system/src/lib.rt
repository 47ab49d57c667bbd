//! Systems of difference constraints: the least solution, or a closed walk of positive total.
//!
//! `least` solves a system from nothing. `LongestPaths` keeps the least solution of a system, and
//! `LongestPaths::extended` goes on from it to the system with further edges; the caller keeps the
//! one before and so takes the edges back for free.
//! - What a least solution and such a walk are: `diff_rules`, `specs/Differences.antt`.
//! - What `LongestPaths` keeps: `specs/PathTree.antt`. What `least` answers: `specs/Solving.antt`.
#![tactic(auto)]

mod climb;
mod lists;
mod origin;
mod paths;
mod rounds;
mod solve;

pub use diff_rules::Edge;
pub use lists::{Edges, Numbers, Values};
pub use paths::LongestPaths;
pub use solve::{Solved, least};
