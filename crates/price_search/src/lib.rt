//! What prices find at a node of the search tree, and how it is carried out.
//!
//! `Pricing` keeps prices from node to node: those of the nodes on the way from the root to the one in
//! hand, with which each node below begins. At a node a search makes rounds (`Pricing::round`). A round
//! works out the least loose lines by the prices of the node, asks the placers about their groups, and
//! raises the prices. At the first node that prices can serve, mostly the root, many rounds are made
//! (`FirstNode`), at any other few. Where the root has too many groups, the placers are asked about some that
//! crowd, once, so that cuts leave fewer.
//!
//! `price` makes the rounds of a node in hand, and carries out what they find: it posts the new cuts, gives
//! the plan to the book, and closes the node where prices reach the best cost. It reaches the book through a
//! `Desk`. A driver's is the book in its hand, a worker's a book that several share; each says by its ghost
//! members what holds of a hand while the slot is held, and once it is closed.
//! What more is done at the root is `root_pricing`.
//!
//! Nothing is claimed of prices: what a node reaches by them is shown to who closes it (`Pricing::show`).
//! So a round promises no more than that its parts are of their types, and that a search comes to an end:
//! all rounds together are limited.
//!
//! - `pricing`: what is kept, `offers`: what nodes leave to those below them. `round`: one round.
//!   `placing`: groups that prices propose, placed. `seeding`: groups that crowd.
//! - `carrying`: a node's rounds. `found`: what they find, carried out. `desk`: where.
//!
//! Definitions: `specs/Serving` says where rounds may be made, `Showing` what is shown of a node, and
//! `Holding` what becomes of a slot that is held.
#![tactic(auto)]

mod appending;
mod carrying;
mod desk;
mod found;
mod offers;
mod placing;
mod pricing;
mod round;
mod seeding;

pub use carrying::{close_as_inherited, close_by, make_round, price};
pub use desk::{Desk, InHand};
pub use found::{Found, carry_out};
pub use offers::{Offer, Offers};
pub use placing::Placer;
pub use pricing::{FirstNode, MOST_AT_A_NODE, Pricing};
pub use round::{Asked, ROOT_LIMITS, Round, RoundEnd};
