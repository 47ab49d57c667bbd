//! Whether no uncut plan costs less than a goal, by dynamic programming over beginnings of plans.
//!
//! `sweep` goes on from the label that serves nobody, by each uncut group of missing ships of each chamber, and
//! drops labels that others dominate and labels whose bound by prices is above the goal. Goals rise from what
//! prices reach, and what was worked out of the chambers stays from goal to goal. Where it comes to an end with
//! no plan cheaper than the last goal, that is `Swept`; else it answers a cheapest plan with its cost, an uncut
//! one, which is swept too: the lines that led to a label are judged. The end is open where labels run out, and
//! the labels of the last goal come out either way.
//!
//! Late costs: bounds by prices know nothing of what they lack later in the day. So once a goal of a large
//! instance takes many labels, ships that come last, far behind all others, are swept alone first, from a label
//! that serves all others. A label that misses all of them costs at least what they cost alone, and what its
//! other missing ships cost by prices of their own; the sweep begins anew with that bound.
//!
//! `beam_plan` goes on from few labels of each number of served ships alone: it seeks an uncut plan that costs
//! less than a goal, and shows nothing of costs.
//!
//! Definitions: `sweep_rules` says when costs are swept and what labels are, `sweep_split` when late ships have
//! a cost of their own, `sweep_labels` what labels of the code stand for and what arcs promise. Here
//! `specs/Ends` says how a sweep begins and ends; `Bounds` (what prices bound behind labels), `Soonest` (what
//! missing ships cost at the least), `Late` (late costs, and labels that they bound), `Going` (labels that are
//! met as it goes on) and `Judging` (what lines are found to be) are of the steps.
#![tactic(auto)]

mod asked;
mod beam;
mod beam_level;
mod goals;
mod judging;
mod late;
mod late_bound;
mod late_costs;
mod origin;
mod plan;
mod soonest;
mod sums;
mod sweep_case;
mod sweeper;
mod sweeping;

pub use asked::{SweepAsked, SweepLimits};
pub use beam::beam_plan;
pub use plan::{UncutPlan, group_of};
pub use sweeping::{SweepEnd, SweepOutcome, sweep};
