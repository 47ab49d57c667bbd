//! What the placers said of groups, remembered.
//!
//! The search meets the same ships in the same chamber at many nodes. `Memory` keeps what was said
//! of them: their spots, or that the deck was too hard for the turns. It is a help to speed alone:
//! whoever rests a fact on a kept answer tests it again.
//!
//! Definitions: `specs/Said` (the key of a chamber and ships, and when two keys are the same).
#![tactic(auto)]

mod group_key;
mod memory;

pub use memory::{Memory, Said};
