//! The options of a decision, by their number.
ghost use Rattle.std.specs.Prelude.{◌≡◌, ◌≢◌, ◌<◌, ◌≤◌, ◌+◌, ◌*◌, length, slice_index_or};
ghost use Rattle.refute_rules.specs.declared.choices.Decision.TheVariants.{BerthOf, PairOf};
ghost use Rattle.refute_rules.specs.declared.choices.Choice.TheVariants.{Before as IsBefore};
ghost use Rattle.refute_rules.specs.Choices.{options_of};
ghost use Rattle.deck_cases.specs.Asked.{IsOfDeck, IsAsked};

use crate::berths::berth_option;
use lock_model::Deck;
use refute_rules::{Choice, Decision};

// A berth of a ship by its number.
fn berth_choice(deck: &Deck, ship: u8, number: usize) -> Choice
    requires ship { ship < length deck.now.ships }
    requires number { number < 2 * length deck.now.ships }
    ensures value { result ≡ slice_index_or (options_of deck.now (BerthOf ship)) number (IsBefore 0 0) }
    ensures known { IsOfDeck deck.now result }
{
    let ships = deck.ships.as_slice().len() as u8;
    Choice::Lies(ship, berth_option(ships, ship, number as u32))
}

// How two ships are apart by number: one before the other, or one below it, each way round.
fn pair_choice(deck: &Deck, first: u8, second: u8, number: usize) -> Choice
    requires first { first < length deck.now.ships }
    requires second { second < length deck.now.ships }
    requires differ { first ≢ second }
    requires number { number < 4 }
    ensures value { result ≡ slice_index_or (options_of deck.now (PairOf first second)) number (IsBefore 0 0) }
    ensures known { IsOfDeck deck.now result }
{
    match number {
        0 => Choice::Before(first, second),
        1 => Choice::Before(second, first),
        2 => Choice::Below(first, second),
        _ => Choice::Below(second, first),
    }
}

/// How many options a decision about ships of the deck has; the values are those of an x.
#[tactic(auto, using(crate::proofs::OptionLemmas::berth_count, crate::proofs::OptionLemmas::x_count))]
pub fn option_count(deck: &Deck, values: &[u32], decision: Decision) -> usize
    requires { IsAsked deck.now values.now decision }
    ensures count { result ≡ length (options_of deck.now decision) }
    ensures few { result ≤ 16 + length values.now }
{
    match decision {
        Decision::BerthOf(_) => 2 * deck.ships.as_slice().len(),
        Decision::PairOf(_, _) => 4,
        Decision::XOf(_) => values.len(),
    }
}

/// An option of a decision about ships of the deck by its number; the values are those of an x.
pub fn option_at(deck: &Deck, values: &[u32], decision: Decision, number: usize) -> Choice
    requires asked { IsAsked deck.now values.now decision }
    requires number { number < length (options_of deck.now decision) }
    ensures value { result ≡ slice_index_or (options_of deck.now decision) number (IsBefore 0 0) }
    ensures known { IsOfDeck deck.now result }
{
    match decision {
        Decision::BerthOf(ship) => berth_choice(deck, ship, number),
        Decision::PairOf(first, second) => pair_choice(deck, first, second, number),
        Decision::XOf(ship) => Choice::LiesAt(ship, values[number]),
    }
}
