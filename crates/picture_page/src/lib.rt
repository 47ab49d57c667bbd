//! The picture of a plan, as one page of HTML: a lane for each chamber along the clock, a row for each
//! ship, and the deck of each lockage drawn to scale.
//!
//! Its one public contract is that of `print_picture`: for a legal plan and its day it gives exactly the
//! bytes of `picture` in `specs/Page`, or wants memory. Along the axis sums and products of minutes stop
//! at the greatest number of 64 bits, which no plan within the limits comes near.
//!
//! Definitions, on which that contract rests: `specs/Forms`, `Times`, `Words` and `Shapes` (texts with
//! places for numbers, and the small texts and shapes that they make), `Passages` (the lockages of the
//! day, numbered as they begin, and all minutes at which something happens), `Capped`, `Points`, `Spans`,
//! `Steps`, `Axis` and `Ticks` (where each minute lies, what is left out, and the ticks), `Present` (the
//! minute that it is, where the page shows it, and what has begun before it), `Shared`,
//! `Ground`, `Labels`, `Lanes`, `ShipRows` and `Legend` (the timetable), `Scales`, `Waters`, `Berths`,
//! `Hulls`, `Ties`, `Writing` and `Cards` (the decks), `Page` (the page of them all). The style sheet is
//! the constant `STYLE`. Only private functions rest on `KnownPassages`: what passages name is in the
//! instance and in the plan, which `proofs/PassageLemmas` proves.
#![tactic(auto)]

mod axis;
mod berths;
mod breaks;
mod cards;
mod events;
mod form;
mod ground;
mod heads;
mod hulls;
mod labels;
mod lanes;
mod legend;
mod making;
mod outlines;
mod page;
mod passage;
mod passages;
mod pieces;
mod points;
mod present;
mod scales;
mod shapes;
mod shared;
mod ship_rows;
mod spans;
mod steps;
mod stretch;
mod style;
mod ticks;
mod ties;
mod times;
mod water;
mod waters;
mod words;
mod writing;

pub use heads::Known;
pub use page::print_picture;
pub use times::{Clock, Dial};
