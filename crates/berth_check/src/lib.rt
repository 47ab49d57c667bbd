//! Berth cases of a deck, and berth trees checked without any search.
//!
//! A `BerthCase` keeps the berths of some ships, and which of two ships lies before the other. It
//! grows by options and shrinks again. What its options say is read exactly, whatever numbers of
//! ships it is asked about; `deck_cases` looks up what they say of one ship, and here stand
//! - `pairs`: two ships that overlap, or that have no order yet.
//! - `spans`: a ship longer than its host, guests that are too many, ships too long one behind the
//!   other.
//!
//! `check_berth_tree` says exactly whether some marks are a berth tree of a deck; then the deck
//! doesn't fit. One walk over the marks and no recursion over the tree: the cases whose trees are
//! still to be read lie on a stack. It shares with a placer what a case says, and no search.
//! - `walk` reads the case at hand and goes on with its options; `front` tells what stands at a
//!   place of the marks; `pending` is the case at hand and the stack.
//! - `places` says whether some places along the chamber obey a case, for the leaf that names no
//!   walk.
//!
//! Definitions: `refute_rules` says what a case is, what faults it may have, and what a berth tree
//! is. Here of private functions alone speak `specs/PairReads` and `CrowdReads`, what is looked up of
//! more ships; `Pending` and `Fronts`, what is read and what is left; and `Raises`, how places are
//! raised.
#![tactic(auto)]

mod case;
mod front;
mod pairs;
mod pending;
mod places;
mod spans;
mod walk;

pub use case::BerthCase;
pub use pairs::{are_unordered, do_overlap};
pub use spans::{are_too_many, is_crowd, is_too_long};
pub use walk::check_berth_tree;
