//! The placer by berths.
ghost use Rattle.std.specs.Prelude.{IfOk};
ghost use Rattle.berth_place.specs.Placing.{IsBerthPlaced, RefutesSoundly};

use crate::deciding::decide;
use crate::search::{Visit, begin};
use lock_model::{Deck, Spots};
use no_memory::NoMemory;
use refute_rules::Marks;
use std::alloc::Global;

/// What the placer by berths answers of a deck.
#[derive(Drop)]
pub enum BerthPlaced {
    /// The ships lie legally at these spots.
    Fits(Spots),
    /// This berth tree refutes the deck, so it doesn't fit.
    Refuted(Marks),
    /// The turns were too few. This berth tree is unfinished, and has as many options as turns.
    Spent(Marks),
}

/// Places the ships of a deck, or refutes it, and tries at most so many options. An option is a
/// berth of a ship, or which of two ships lies before the other. Cargo plays no part.
/// - `Fits` with spots that are legal.
/// - `Refuted` with a berth tree of the deck. Then the deck doesn't fit.
/// - `Spent` where one option more than the turns would be needed, with the berth tree so far, which
///   has a node for the deck and for each of as many options as turns.
///
/// Refuses want of memory alone.
pub fn place_by_berths(alloc: Global, deck: &Deck, turns: u32) -> Result<BerthPlaced, NoMemory>
    ensures answer { IfOk result (IsBerthPlaced deck.now turns) }
    ensures refutes { IfOk result (RefutesSoundly deck.now) }
{
    // a deck keeps its limits
    prove!(!deck.ships.as_slice().is_empty());
    let mut search = begin(alloc, turns);
    match decide(&mut search, deck)? {
        Visit::Closed => Ok(BerthPlaced::Refuted(search.marks)),
        Visit::Placed => Ok(BerthPlaced::Fits(search.spots)),
        Visit::Spent => Ok(BerthPlaced::Spent(search.marks)),
    }
}
