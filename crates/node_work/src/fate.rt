//! What becomes of a node.

use closing_rules::Ground;
use deck_cuts::{Cut, Hard};
use lock_model::Plan;

/// What becomes of a node. Large parts are boxed, since few nodes have them.
#[derive(Drop)]
pub enum Fate {
    /// It is closed on this ground.
    Closed(Ground),
    /// It lacks a ship, and is to be split.
    Split,
    /// It holds all ships, and this is its plan.
    Plan(Box<Plan>),
    /// This new cut hits one of its groups.
    Refuted(Box<Cut>),
    /// The group of this chamber and place in its line is spent.
    Spent(u8, u8, Box<Hard>),
}

const _: () = prove!(size_of::<Fate>() <= 24);
