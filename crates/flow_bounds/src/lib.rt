//! Lower bounds on the cost of plans.
//!
//! Every legal plan under a node costs at least `bound` of the node and at least `probe` of it and
//! a ship that it lacks (`is_missing`), and every legal plan at least `throughput`. At a node that
//! holds all ships `bound` is the cost of its earliest plan. `child_bounds` gives the bounds of all
//! children of a node at once, `children_reaching` tells only which of them are at least a cost; a
//! `Roster` spares both what is the same at all nodes, and `NodeWalks` is room for what the second
//! works out of a node. `least_passage` is the least that a ship can take, served first and alone, and
//! `least_passages` adds it over all ships. `least_bound_is_cheapest` is the law that a search rests
//! on: the least bound of the nodes that hold all ships and whose groups all fit is the cost of a
//! cheapest plan. No call takes memory.
//!
//! `walk_along` walks along any line and keeps how far the walk is at each group (`LineWalks`);
//! `joined` and `opened` let a ship enter it, and `flow_below` tells what the line comes to with it.
//!
//! Definitions: `lock_rules` says what these numbers are and what a lower bound is (`specs/Bound`,
//! `Throughput`), and what the search of the whole tree comes to (`Search`). Here `specs/Walk` walks
//! along a line by the loads of its groups (`Load`, `Along`), `Entering` says how a walk goes on once a
//! ship has entered its line, `Most` how great the numbers become, `Whole` what the earliest plan of a
//! node is, `Missing` a ship that a node lacks, `Least` the passages of a ship, and `Roster` what a
//! roster is. Private functions rest on `Places`, the minutes of the throughput.
#![tactic(auto)]

mod capacity;
mod entering;
mod laws;
mod least;
mod line_walks;
mod load;
mod node_bound;
mod node_walks;
mod passage;
mod places;
mod probing;
mod reaching;
mod roster;
mod walk;

pub use capacity::throughput;
pub use entering::{Entered, joined, opened};
pub use laws::least_bound_is_cheapest;
pub use line_walks::{LineWalks, flow_below, walk_along};
pub use load::Load;
pub use node_bound::bound;
pub use node_walks::NodeWalks;
pub use passage::{least_passage, least_passages};
pub use probing::{Bounds, child_bounds, is_missing, probe};
pub use reaching::{Reached, children_reaching};
pub use roster::Roster;
pub use walk::Walk;
