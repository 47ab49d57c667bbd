//! Tests of what the program searches by, each over the public items of the crate that it names.
//!
//! Decks and placers stand in `decks`: `deck_laws` (`laws`), `ship_shapes` (`shapes`), `berth_check` and
//! `berth_place` (`berths`), `chamber_place` (`cases`), `spot_place` (`spots`). Time, tree and bounds:
//! `master_branch` (`nodes`), `flow_bounds` (`bounds`), `price_bound` (`prices`), `price_raise` (`raising`),
//! `near_plan` (`near`), `first_plan` (`singles`), `sweep` (`sweeps`). Searches: `book_core` (`books`),
//! `search_worker` (`worker`), `solve_workers` (`searches`), and what stands round them: `gates` (`holding`), and
//! `plan_text` (`plan_texts`), which prints what no command does. Small chambers, ships, instances and decks for them
//! stand in `worked`.
//!
//! What a method of a book changes, also through the lock, its contract says, and so where the check rejects
//! a certificate that no text has. What prices find at a node rows of whole runs show. A crate with tests is
//! proved twice, and each program of tests is read whole with all that it reaches, so they stand together in a
//! crate of their own, which has no code but them. Times are minutes, and lengths are decimetres.
#![tactic(auto)]

#[cfg(test)]
mod books;
#[cfg(test)]
mod bounds;
#[cfg(test)]
mod decks;
#[cfg(test)]
mod fixture;
#[cfg(test)]
mod holding;
#[cfg(test)]
mod locks;
#[cfg(test)]
mod near;
#[cfg(test)]
mod nodes;
#[cfg(test)]
mod plan_texts;
#[cfg(test)]
mod prices;
#[cfg(test)]
mod raising;
#[cfg(test)]
mod searches;
#[cfg(test)]
mod singles;
#[cfg(test)]
mod sweeps;
#[cfg(test)]
mod walk;
#[cfg(test)]
mod worked;
#[cfg(test)]
mod worker;
