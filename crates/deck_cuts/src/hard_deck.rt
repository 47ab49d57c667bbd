//! Decks that need more turns than they were given.
use lock_model::Deck;
use std::marker::Model;

/// A deck that is hard for `turns` turns, at least 1: it has no quick reason, more than `turns`
/// consistent cases, and none of the first `turns` of them is whole.
#[derive(Drop)]
pub struct Hard {
    pub deck: Deck,
    pub turns: u32,
}

impl Model for Hard {
    ghost use Rattle.refute_rules.specs.Cases.{IsHard};
    ghost use Rattle.deck_cuts.specs.Tried.{Tried};

    ghost Value = { Tried };

    ghost view = { λ a. record { deck = a.deck; turns = a.turns } };

    ghost invariant = { λ a. IsHard a.deck a.turns };
}

/// A deck that is spot-hard for `turns` turns: it has more than `turns` listed spot cases, and none
/// of the first `turns` of them is whole.
#[derive(Drop)]
pub struct HardSpots {
    pub deck: Deck,
    pub turns: u32,
}

impl Model for HardSpots {
    ghost use Rattle.refute_rules.specs.Spots.{IsSpotHard};
    ghost use Rattle.deck_cuts.specs.Tried.{Tried};

    ghost Value = { Tried };

    ghost view = { λ a. record { deck = a.deck; turns = a.turns } };

    ghost invariant = { λ a. IsSpotHard a.deck a.turns };
}
