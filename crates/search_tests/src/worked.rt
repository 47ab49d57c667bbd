//! Worked locks: small chambers, ships, instances and decks.
//!
//! The base chamber is 2000 by 240 decimetres, and passes in 30 minutes; the base ship is 1100 by
//! 114, so that two of them lie side by side in a width of 240, and in one of 232 they don't.

mod decks;
mod groups;
mod locks;

pub(crate) use decks::{BASE, deck_of};
pub(crate) use groups::pair;
pub(crate) use locks::{chamber, one_chamber, ship, two_ships};
