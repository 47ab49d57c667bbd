//! Prices that are raised step by step: subgradient ascent on the Lagrangian dual of a set partition
//! by chamber lines.
//!
//! What a node reaches by prices (`price_bound`) is a Lagrangian relaxation: that each missing ship is
//! served once is asked no more, and a ship that is served less or more often is paid for. The bound is
//! concave in the prices, and how often each ship stands in least loose lines is a direction of ascent.
//! So a ship that stands in none of them gets dearer, one that stands in several gets cheaper, by steps
//! that shrink (Held, Wolfe and Crowder, Validation of subgradient optimization, Mathematical
//! Programming 6, 1974; Fisher, The Lagrangian relaxation method, Management Science 27, 1981).
//!
//! A triple of ships gets dearer while several groups have two of the three, of which one at most may. So
//! many triples could have a price that only some get one, once an ascent ends (`Ascent::widen`): those that
//! groups of the least lines had more than once a round of late, which stand for a plan in fractions (cutting
//! planes in a subgradient ascent, as in: Lucena, Non delayed relax-and-cut algorithms, Annals of Operations
//! Research 140, 2005).
//!
//! - `first_prices`: what each ship costs in a plan.
//! - `Stands`: how often each ship stands in lines, and the groups in which it does.
//! - `Ascent`: prices that are tried, and the best ones so far. Steps are whole numbers (`steps`). `raised`:
//!   the triples, `recent`: groups of late, `picking`: which triples get a price.
//!
//! Nothing is claimed of the prices but their shape: one for each ship and at most `TRIPLES` of triples, none
//! above 1,000,000, which the contracts of `Ascent` and `Prices` keep. No call takes memory. `specs/Raising`
//! says what an ascent keeps.
#![tactic(auto)]

mod ascent;
mod first;
mod picking;
mod raised;
mod recent;
mod stands;
mod steps;

pub use ascent::{Ascent, Pace};
pub use first::first_prices;
pub use stands::Stands;
