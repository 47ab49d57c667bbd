//! Labels of a sweep split in two, into one of some ships and one of the others: definitions and laws,
//! without code.
//!
//! Ships that a label misses cost at least what they cost at their soonest: a chamber takes none before it
//! is ready for its way. So some of them may be left out of all ways to go on, and count by that alone.
//!
//! The bound of a label by prices knows little of what crowds later in the day cost beyond their
//! prices. So the last ships of a day are swept alone first: a first label of theirs serves all
//! others. Its sweep tells their late cost, below which nothing serves them. A completion of any
//! label that misses all of them falls into two parts, an early one of the other ships and a late
//! one of these, and each part has a timetable of its own in which its ships have no more flow
//! time than in the whole. So a label is dropped, too, where the early bound, which asks for
//! nothing of the late ships, reaches the goal less the late cost.
//!
//! `specs/Soonest` says how soon ships can be served. `specs/Split` has early and late labels, late costs,
//! and what a program tests of a label before it splits it: that it misses all late ships, that its
//! chambers are ready no sooner than those of the late ships' sweep, and that each chamber that is ready
//! for one way is ready for the other a lockage later.
//!
//! The laws stand in `proofs/`: the lines of some ships of a completion (`KeptLemmas`), labels split
//! (`SplitLemmas`), what missing ships cost at their soonest (`SoonestLemmas`), what a sweep of the late
//! ships begins with and ends with (`LateLemmas`), and a worked split (`SplitRows`).
#![tactic(auto)]
