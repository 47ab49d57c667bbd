//! Lower bounds by prices: definitions and laws.
//!
//! A price is set for each ship, in hundredths of a minute of flow time, and the lines of the
//! chambers are loosened: a ship that a node lacks may stand in several groups or in none, and pays
//! its price each time. This is the Lagrangian relaxation of a set partition by chamber lines, so
//! the chambers come apart: what is least for each of them adds up to a lower bound. A `Triple` of
//! ships has a price besides, which each group with two of the three is charged: at most one lockage
//! of a legal plan has two of them (subset-row inequalities).
//!
//! `specs/Prices` has the definitions: cuts without their proofs, uncut groups, loose lines, what a
//! loose line pays and is charged, and the costs that a node reaches by prices and cuts; `specs/Triples`
//! says which triples a list of prices has.
//!
//! The laws stand in `proofs/`: each line of a legal plan under a node is loose where the cuts hold
//! (`LooseLemmas`), groups that have each ship once are charged for each triple at most once, and
//! fewer ships no more (`ChargeLemmas`), what is reached is a lower bound and stays reached with more
//! cuts and a lower cost (`ReachLemmas`), and what the root reaches each node reaches (`BelowLemmas`).
//! The first and the third take `IsHereditary` of `lock_rules`, which `deck_laws` proves;
//! that cuts hold is what a refutation shows. `Rows` holds worked lines that compute.
#![tactic(auto)]

mod triple;

pub use triple::{TRIPLES, Triple};
