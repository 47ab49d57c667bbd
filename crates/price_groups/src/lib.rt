//! Uncut groups of missing ships, grown ship by ship, for lower bounds by prices.
//!
//! A `LineCase` is one chamber's part of a bound. `forbidden_sets` gives the ship sets that the cuts
//! forbid its chamber, and `completable_by_ship` for each ship those that it may complete, as numbers.
//! `list_for` grows a group of the chamber's line, or none, by missing ships in all ways that hold no
//! forbidden set, by what an `Extension` says; groups of which a ship gains nothing at prices that are no
//! lower are left out. So lists serve until prices rise above these, whatever triples have prices: fewer
//! ships are charged no more. `charge` and `charged` give what a group is charged.
//!
//! Definitions: `price_rules` says what uncut groups are. Here `specs/Asks` says once what is asked of a
//! chamber's line (`LineAsk`) and of its groups (`GroupAsk`), and `Asked` what a `LineCase` and an
//! `Extension` ask; `Worth` says what lines and groups are worth and when some serve as well as others,
//! `Sparing` what cuts forbid, `Masks` ship sets as numbers, `Sums` what groups count, and `GrownLists`
//! what a list of them holds. `Growing` is of the steps.
#![tactic(auto)]

mod charging;
mod completable_sets;
mod extension;
mod forbidden;
mod growing;
mod grown_lists;
mod idling;
mod line_case;
mod masks;
mod sums;
mod weighing;

pub use charging::{charge, charged};
pub use completable_sets::CompletableSets;
pub use extension::Extension;
pub use forbidden::{are_spared, forbidden_sets};
pub use grown_lists::{GrownGroup, GrownList, list_for};
pub use line_case::LineCase;
pub use masks::{ShipMask, completable_by_ship, marks, misses_all_of};
pub use sums::Sums;
pub use weighing::rates;
