//! Verdicts.

use crate::group::Ships;

/// What a search has shown of its best plan: that it is cheapest, or why the search stopped.
/// `low` is a cost that no legal plan goes below.
#[derive(Drop)]
pub enum Verdict {
    /// No legal plan costs less.
    Optimal,
    /// The budget of nodes is spent: so many were used.
    OpenNodes {
        used: u32,
        low: u64,
    },
    /// The placers spent their turns on these ships in this chamber.
    OpenTurns {
        chamber: u8,
        ships: Ships,
        turns: u32,
        low: u64,
    },
}
