//! Cases of a deck: its decisions, their options and edges, and what options have decided.
//!
//! - `case_decisions` and `spot_decisions` list what is decided of a deck; `option_count` and
//!   `option_at` give the options of a decision by their numbers, `berth_option` the berths of a
//!   ship.
//! - `push_choice` and `push_ship` append the difference constraints of an option and of a ship to an
//!   `EdgeList`, which each crate keeps as it likes.
//! - `berth_of`, `x_of`, `host_of` and `has_other_rank` look up what some options have decided of a
//!   ship, `leads_back`, `y_of` and `is_outside_across` what follows from the berths of its hosts.
//! - `length_of`, `width_of`, `is_below` and `is_inside_across` are plain measures.
//!
//! What is looked up is exact, whatever numbers of ships are asked about. No search stands here: the
//! checkers of trees speak by these words, and so do the placers.
//!
//! Definitions: `refute_rules` says what decisions and options are (`specs/Choices`), what they
//! decide (`Decided`, `Known`, `SpotFaults`) and what they ask (`Edges`). Here `specs/Asked` says
//! which of them are about ships of a deck, `Berths` and `Reach` how berths and y are told. Of
//! private functions alone speaks `Lookups`.
#![tactic(auto)]

mod across;
mod berths;
mod decided;
mod decisions;
mod edges;
mod known;
mod options;
mod sizes;

pub use across::{is_below, is_inside_across};
pub use berths::berth_option;
pub use decided::{berth_of, has_other_rank, host_of, x_of};
pub use decisions::{Decisions, case_decisions, spot_decisions};
pub use edges::{EdgeList, push_choice, push_ship, x_var, y_var};
pub use known::{is_outside_across, leads_back, y_of};
pub use options::{option_at, option_count};
pub use refute_rules::{Berth, Choice, Decision};
pub use sizes::{length_of, width_of};
