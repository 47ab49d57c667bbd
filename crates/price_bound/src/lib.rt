//! Lower bounds by prices, worked out: the Lagrangian relaxation of a set partition by chamber lines.
//!
//! `reaches` says whether a node reaches a cost by prices and cuts, exactly; `price_sum` is the sum by
//! which it does, and `greatest_cost` the greatest that it reaches; `show` makes a `Shown`, the value that
//! carries the fact, and `shown_below` one of a node from that of the root; `least_lines` gives for each
//! chamber a loose line with the least of `100 * flow + charged - paid`.
//!
//! What is worked out is kept for later calls in `KeptLines`, which helps speed alone; nothing else that
//! a call is given changes. Groups are grown at ceilings of the prices, so that they serve until a price
//! is above its own, and under the cuts so far, so that those which a later cut forbids are taken out.
//! Refused are want of memory, and more groups or turns than the caller's `Limits` allow.
//!
//! Definitions: `price_rules` says what loose lines are, what they pay and what a node reaches, and
//! `Claim` of `price_terms` what a `Shown` carries. Here `specs/Asks` says once what is asked of a node
//! and `Asked` that a `PricedNode` asks it, and `Total` says the sum over the chambers, by `Lines` of
//! `price_table` and `Worth` of `price_groups`. `Greatest` says which cost is the greatest. `Keeping`
//! and `KeptGroups` are of what is kept.
#![tactic(auto)]

mod keeping;
mod kept_groups;
mod priced_node;
mod reaching;
mod showing;
mod terms;

pub use keeping::KeptLines;
pub use priced_node::PricedNode;
pub use reaching::{greatest_cost, least_lines, price_sum, reaches};
pub use showing::{show, shown_below};
