//! Refutations of decks checked without any search.
//!
//! - `check_refutation` says exactly whether a refutation holds for a deck; then the deck doesn't
//!   fit. One walk over the marks, no deeper than the decisions of the deck. It shares no code with
//!   the placers that search but the words of `deck_cases`.
//! - `make_cut` makes a cut by this check. The types that keep such facts stand in `deck_cuts` and
//!   are offered here again.
//!
//! Definitions: `refute_rules` says what a refutation is (`specs/Refutes`, `Trees`). Of private
//! functions alone speak `specs/Drawn`, how cases are kept, `SpotReads`, what is looked up in them,
//! `Reading` and `Walking`, how a tree stands in its marks.
#![tactic(auto)]

mod case;
mod check;
mod edge_list;
mod leaf;
mod make;
mod spot_faults;
mod tree;
mod walk;

pub use check::check_refutation;
pub use deck_cuts::{Cut, Hard, HardSpots, copy_cut, cut_hits, hard, hard_spots, known_cut};
pub use make::{CutError, make_cut};
pub use refute_rules::{Marks, Quick, Refutation};
