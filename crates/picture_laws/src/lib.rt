//! What the picture of a plan says, over the definition of its page in `picture_page`.
//!
//! `pictures_show_plans` is the law, as the contract of a call that does nothing: the page of each legal
//! plan is its lanes, its rows and its cards one after the other, with shapes that show the plan. Each
//! lockage has one box, in its chamber's lane, from its start to its end by the scale of the axis. Each
//! ship has one row, with its arrival and the start and the end of the lockage that serves it. Each lockage
//! has one deck, with each of its ships at its place by the scale of the deck, and no other. A second outline
//! is no box of its own: exactly the boxes of lockages that start before the minute that it is have one.
//! Of what stands before, between and behind lanes, rows and cards the law says nothing: `picture_page` does.
//!
//! Definitions: `specs/Shapes` (boxes, rows, decks and their texts), `Shown` (when they show a plan),
//! `Pages` (where they stand in the bytes of a page).
#![tactic(auto)]

mod laws;

pub use laws::pictures_show_plans;
