//! The arcs by which the labels of a sweep go on, and what prices bound behind labels.
//!
//! A `Lane` is one chamber of a sweep. `gain` gives how much its ways to go on may pay beyond 100 times
//! their flow times and what they are charged, in hundredths of a minute, behind a label of some minutes;
//! `arcs` gives the uncut groups that may come next for a way from a minute on, but for those whose worth
//! is above a room; and `arrivals` lists the ships that the chamber waits for. What was worked out is kept
//! by minute.
//!
//! Groups are grown for a spread, how far rooms may reach: those with a ship that even at the soonest costs
//! more than its price and the spread are left out. A chamber whose ways have more groups than the limits
//! allow is refused, and an instance whose groups may be served later than the greatest price counts.
//!
//! Definitions: `sweep_labels` says what arcs and gains are (`specs/Arcs`) and when ships are listed
//! (`specs/Coming`). Here `specs/Lanes` says what a `Lane` keeps and promises, `Ways` what it keeps of a
//! way, and `Awaited` which ships a chamber may want.
#![tactic(auto)]

mod arc_list;
mod arrivals;
mod asked;
mod gains;
mod lane;
mod listing;
mod way_arcs;
mod way_groups;
mod way_lane;

pub use asked::{ArcLimits, ArcsAsked};
pub use lane::Lane;
