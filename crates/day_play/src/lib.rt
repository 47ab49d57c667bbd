//! A plan played as a day at the lock.
//!
//! `play` gives the beats of a legal plan: the empty turns, the moorings, and the beginning and the
//! end of each lockage, by minute, then by chamber, then by their order in the chamber. A plan that
//! isn't legal is stuck at its first break, and has no lawful day. Takes no memory.
//!
//! Definitions: `specs/State` says what a beat changes, `Lawful` when it is lawful and which lists
//! of beats are lawful days of a plan, or lawful courses of any length, `ComingIn` in which order the
//! ships of a lockage can come in, `Playing` which day is played (with `Order`: by minute, and
//! `Rising`: what the type of a plan keeps), `GoingOn` when a day goes on from another.
#![tactic(auto)]

mod beat;
mod coming_in;
mod day;
mod lines;
mod order;
mod playing;
mod rising;

pub use beat::{Act, Beat};
pub use day::{BEATS, Day};
pub use order::moor_order;
pub use playing::{Played, play};
