//! The labels that a sweep has made, each open until the sweep is done with it.
//!
//! A `Label` says which ships are served, by chamber and way from when on a next lockage may start, and
//! the flow time of the served ships in minutes. `Labels` is the list of all that were made, in the order in
//! which they came; `put` appends one, unless one of the list dominates it, and closes those that it
//! dominates. `Queue` tells in which order to take them. What the table of `Labels` and the queue
//! answer are hints alone: `put` compares the labels themselves, and no contract speaks of the order.
//!
//! Definitions: `sweep_rules` says what labels stand for. Here `specs/Ships` says which ships a number
//! stands for, `Labels` which label of the rules one of the code is and which one dominates another,
//! `Coming` whom a chamber waits for, `Steps` how labels go on, `Arcs` what a chamber's arcs and gains
//! promise, `Rows` what is kept by minute, and `Sweeping` when labels are open or treated. `Made` and
//! `Putting` are of what becomes of the list.
#![tactic(auto)]

mod arrivals;
mod fronts;
mod going;
mod label;
mod labels;
mod made;
mod minute_row;
mod minutes;
mod queue;
mod ready_times;
mod ship_set;
mod step;

pub use arrivals::{Arrivals, Coming, ComingShips};
pub use going::{first_label, gone_on};
pub use label::{KeptLabel, Label};
pub use labels::{Labels, are_closed};
pub use made::Made;
pub use minute_row::MinuteRow;
pub use minutes::minute_of;
pub use queue::Queue;
pub use ready_times::{NEVER, ReadyTimes};
pub use ship_set::ShipSet;
pub use step::{Arc, Step};
