//! The search tree: nodes, the steps to their children, and the laws of branching.
//!
//! A `Node` holds the first ships in arrival order in groups, chamber by chamber in order of
//! service. Its children put the next ship into it: `child` gives child number `i` of
//! `child_count`, `steps_by` lists what each child does, in the same order, and `take_step` and
//! `descend` turn a node into a child in place. `children_split_plans` is the law: the children are
//! nodes, they differ, and each legal plan under a node lies under exactly one of them. From the
//! root, `node_limit` bounds the number of nodes. `with_ship` is a group with one ship more. No call
//! takes memory.
//!
//! Definitions: `specs/Node` (the nodes of an instance, and their children), `Steps` (what the
//! children do, as a list), `Split` (a plan under exactly one child); what a node, its children,
//! arrival order and a plan under a node are stands in `lock_rules`.
#![tactic(auto)]

mod arrival;
mod branching;
mod joining;
mod laws;
mod lines;
mod node;
mod step;

pub use arrival::{ShipOrder, arrival_order, next_ship};
pub use branching::{child, child_count, descend, take_step};
pub use joining::with_ship;
pub use laws::{children_split_plans, node_limit};
pub use node::{Node, root};
pub use step::{Step, Steps, steps_by};
