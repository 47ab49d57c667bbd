//! The least worth of a chamber's loose lines, by the table of its states.
//!
//! `least_line` gives a loose line with the least of `100 * flow + charged - paid` over all loose lines of
//! a chamber, exactly, or says that there is none. The states of the chamber that can be reached are worked
//! out with their values remembered, up to the horizon, the minute from which on missing ships may be
//! left out of a line. `EndValues` gives the least worth of ways to go on, exactly too, of a chamber
//! without a line from any minute on.
//!
//! Definitions: `specs/Lines` says which lines are least, `Ends` what `EndValues` keep and give; `Values` is
//! of the steps.
#![tactic(auto)]

mod counting;
mod end_values;
mod frame;
mod horizon;
mod least;
mod line_least;
mod next_group;
mod ready;
mod route;
mod serving;
mod state;
mod sweeping;
mod table;
mod values;
mod walking;

pub use end_values::EndValues;
pub use line_least::least_line;
