//! Sweeps: definitions and laws, without code.
//!
//! A sweep goes through plans in the order of their starts. It is dynamic programming over sets of
//! served ships by label correcting: a label says which ships are served, when each chamber is
//! ready for each way, and the flow time so far; it is dropped where another one dominates it, or
//! where prices bound what can come behind it. Where no label is left no plan costs less than the
//! goal.
//!
//! `specs/Uncut` has uncut plans and swept costs, which public contracts rest on. The others are of
//! the sweep itself: `Label` (labels, and how they go on), `Completion` (what may come behind a
//! label), `Dominance`, `Covering` (what the labels that are left stand for), `Treated` (the labels
//! that were made, and those that are done with), `Gain` (what prices bound), `Beginning` (the lines
//! that lead to a label) and `Equal` (which of equal ships go first).
//!
//! The laws stand in `proofs/`:
//! - no legal plan costs less than a cost that is swept by cuts that hold (`SweptLemmas`, which takes
//!   `IsHereditary` of `lock_rules`, as `deck_laws` proves it);
//! - each uncut plan is a completion of a first label, at its cost (`FirstLemmas`);
//! - a label that serves for another has its completions (`DominanceLemmas`), and a label with a
//!   completion goes on by the first group of it (`GoingLemmas`);
//! - a label whose bound by prices is above the goal has no completion below it, nor has one that a
//!   group leads to whose own sum is (`GainLemmas`);
//! - what labels cover as they are replaced, and where none is left the goal is swept
//!   (`CoverLemmas`); for a program that keeps all labels that it made, the goal is swept where all
//!   are treated: dropped by their bound, served for by a later one, or gone on (`TreatedLemmas`);
//! - the lines that lead to a label of all ships are an uncut plan (`BeginningLemmas`);
//! - where the cuts have all swaps of equal ships, a label need go on only by groups that leave no
//!   equal ship before theirs behind (`OrderLemmas`).
//!
//! `Rows` and `PlanRows` hold a worked sweep that meets what the laws ask.
#![tactic(auto)]
