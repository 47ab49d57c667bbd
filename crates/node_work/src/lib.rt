//! The work on one node of the search tree.
//!
//! `closed_early`, `inner_fate` (of a node that lacks ships) and `whole_fate` (of one that holds all)
//! say what becomes of a node, where the best cost is known: it is closed on a ground, it is split,
//! it gives its plan, a new cut hits it, or a group of it is spent. A search only carries that out.
//! What is the same for all nodes stands in `Search`, and what is known of cuts is asked through
//! `KnownCuts`, which a book is by its list of cuts.
//!
//! Of a node that lacks ships one group is looked at, the one that its parent doesn't have (`last`,
//! `inner`); of a node that holds all ships every group, since its plan needs the spots of all
//! (`whole`). Once each has a legal mooring, `leaf_plan` gives the plan of the node at the earliest: it
//! is legal and costs the node's bound, so no legal plan under the node costs less. What is remembered
//! is tested again before a fact rests on it (`recalling`), but for a group of a node that is only
//! split: there nothing rests on it.
//!
//! What is found of a group's ships (`settle_known`) comes from three placers, asked one after the
//! other (`settling`), the one by berths about the largest ships before all (`largest`), and the cut of
//! what one of them refutes is shrunk (`cutting`). The groups of a node are asked about by cases first,
//! and those that prices propose by berths (`FirstPlacer`), since they crowd the deck.
//!
//! Definitions: `specs/Fates` (what becomes of a node), `Known` (cuts of a book), `Settling` (what is
//! found of a group), `Last` (the group that a ship is in), `Moorings` (where the groups of a node
//! lie); the plan of a node's lines at the earliest stands in `lock_rules` (`specs/Leaf`). `Lines` (the
//! moorings of a node as they are made) serves proofs alone.
#![tactic(auto)]

mod boxed;
mod cutting;
mod fate;
mod first_placer;
mod group_fate;
mod inner;
mod known_cuts;
mod largest;
mod last;
mod leaf;
mod moorings;
mod recalling;
mod search;
mod settling;
mod whole;

pub use fate::Fate;
pub use first_placer::FirstPlacer;
pub use inner::{closed_early, inner_fate};
pub use known_cuts::KnownCuts;
pub use leaf::leaf_plan;
pub use moorings::{Mooring, Moorings};
pub use recalling::settle_known;
pub use search::Search;
pub use settling::Settled;
pub use whole::whole_fate;
