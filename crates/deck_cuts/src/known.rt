//! Decks that are known to be hard.
ghost use Rattle.std.specs.Prelude.{◌≡◌};
ghost use Rattle.refute_rules.specs.Cases.{IsHard};
ghost use Rattle.refute_rules.specs.Spots.{IsSpotHard};

use crate::hard_deck::{Hard, HardSpots};
use lock_model::Deck;

/// A deck that is known to be hard for these turns. Takes no memory.
pub fn hard(deck: Deck, turns: u32) -> Hard
    requires { IsHard deck turns }
    ensures { result ≡ record { deck = deck; turns = turns } }
{
    Hard { deck, turns }
}

/// A deck that is known to be spot-hard for these turns. Takes no memory.
pub fn hard_spots(deck: Deck, turns: u32) -> HardSpots
    requires { IsSpotHard deck turns }
    ensures { result ≡ record { deck = deck; turns = turns } }
{
    HardSpots { deck, turns }
}
