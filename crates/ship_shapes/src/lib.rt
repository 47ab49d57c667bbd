//! Quick reasons: the sizes of some ships alone keep a deck from fitting.
//!
//! `find_reason` gives the first quick reason that holds for a deck, and None exactly where none
//! holds. `holds` says exactly whether one does. A reason that holds means that the deck doesn't
//! fit. Neither takes memory.
//!
//! Definitions: `refute_rules` says when a reason holds and which one is the first
//! (`specs/Reasons`). Rows and columns are searched as lanes, here `specs/Lanes`: what each ship
//! needs across a lane and along it.
#![tactic(auto)]

mod area;
mod jam;
mod lane;
mod lanes;
mod reason;
mod search;

pub use reason::{find_reason, holds};
pub use refute_rules::Quick;
