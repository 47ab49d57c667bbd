//! How placements and plans break the rules.

use chamber_times::BrokenTime;

/// The first break of a placement. Ships are told by their places in the deck, from 0.
#[derive(Clone, Copy, PartialEq, Eq)]
pub enum Broken {
    /// The ship isn't inside the chamber with the clearance at both ends.
    Outside(u8),
    /// The two ships aren't apart; the first number is the smaller.
    Touching(u8, u8),
    /// The ship is moored to the quay and doesn't lie at the quay of its rank.
    Adrift(u8),
    /// The ship is moored to the second one, which can't be its host: it is the ship itself or no
    /// ship of the deck, lies in the other rank or not beside it, or is passed at one of its ends.
    BadHost(u8, u8),
}

/// The first break of a plan. Lockages are told by their places in the plan, ships and chambers
/// by their numbers in the instance, all from 0.
#[derive(Clone, Copy, PartialEq, Eq)]
pub enum BrokenPlan {
    /// The lockage names a chamber or a ship that isn't in the instance, has no ship or more than
    /// the chamber's `most`, has spots of another count than ships, or has a ship of the other way.
    Shape(u8),
    /// The ship lies in more than one lockage.
    Double(u8),
    /// The ship lies in no lockage.
    Missing(u8),
    /// The placement of the lockage has this first break.
    Deck(u8, Broken),
    /// The line of the chamber has this first break.
    Time(u8, BrokenTime),
    /// Two ships of the lockage clash; they are told by their places in its deck, and the first
    /// number is the smaller.
    Clash(u8, u8, u8),
}
