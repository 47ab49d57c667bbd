//! Why a node of a search is closed, in a book and in a certificate, without code.
//!
//! - `Ground` is why, and `specs/Grounds` what it asks of the node.
//! - `specs/ProvedCuts`: a cut with its refutation, and when it is proved.
//! - `specs/ListedPrices`: prices and cuts by their numbers, what a node reaches by them, and when a
//!   cost is swept.
//! - `specs/Laws`: what a book and a certificate both rest on, that children split the plans, that
//!   bounds hold, that no legal plan is under a node that a proved cut hits, and that a cost that a
//!   node reaches by prices and cuts that hold is a lower bound, as is one that such cuts have swept.
//!
//! The laws stand in `proofs/`: those of the tree hold, given heredity and normal placements
//! (`LawLemmas`), and a number at or below one of a list is at or above the list's least
//! (`BelowLemmas`).
#![tactic(auto)]

mod grounds;

pub use grounds::Ground;
