//! Timetables of a chamber: the earliest starts of a line, the judge of its starts, and the cost
//! of a plan.
//!
//! `earliest` gives the least lawful starts of a line of groups. `line_places` gives the places of a
//! chamber's lockages in the order of their starts, and `judge_line` names the first of them whose
//! start breaks a rule, and what it breaks. `cost` adds the flow times of a plan. `duration`,
//! `first_free`, `is_free`, `last_arrival`, `ready`, `stand_after` and `group_times` are the steps of
//! a timetable, for callers that walk a line themselves. No call takes memory.
//!
//! Definitions: `lock_rules` says when starts are lawful (`specs/Lawful`), what the earliest
//! timetable is (`Timetable`), and what a plan costs (`Plan`). Here `specs/Walk` says in which
//! order a judge walks a line, and `specs/FirstBreak` which break is its first.
#![tactic(auto)]

mod breaks;
mod costs;
mod judge;
mod service;
mod spans;
mod timetable;
mod walk;

pub use breaks::BrokenTime;
pub use costs::{cost, flow_time, flow_until, lockage_end};
pub use judge::judge_line;
pub use service::{duration, group_times, last_arrival, ready, stand_after};
pub use spans::{first_free, is_free};
pub use timetable::earliest;
pub use walk::line_places;
