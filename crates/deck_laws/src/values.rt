//! Spot values: where an anchored ship may lie along the chamber.
ghost use Rattle.std.specs.Prelude.{◌≡◌, ◌+◌, ◌-◌, ◌<◌, ◌≤◌, [], ◌∷◌, ◌++◌, length, OnOk, IfOk, IfSome, IfNone, if◌then◌else◌};
ghost use Rattle.refute_rules.specs.Values.{spot_values};
ghost use Rattle.deck_laws.specs.Reach.{HasReached, least_length, reached_of};
ghost use Rattle.deck_laws.specs.Laws.{HoldNormalPlaces};

use crate::reach::reach_next;
use crate::spot_list::SpotList;
use lock_model::Deck;
use no_memory::NoMemory;
use std::alloc::{AllocError, Global};

// The length of the shortest ship.
#[tactic(auto, using(crate::proofs::LeastLemmas::least_begun, crate::proofs::LeastLemmas::least_more, crate::proofs::LeastLemmas::least_done))]
fn least_length(deck: &Deck) -> u32
    ensures { result ≡ least_length deck.now }
{
    let sizes = deck.ships.as_slice();
    let mut least = sizes[0].length;
    for size in sizes {
        least = least.min(size.length);
    }
    least
}

// The last place where the shortest ship has room, if there is one.
fn last_place(deck: &Deck) -> Option<u32>
    ensures some { IfSome result (λ last. (deck.now.end ≤ last) × (last + least_length deck.now + deck.now.end ≡ deck.now.length)) }
    ensures none { IfNone result (deck.now.length < deck.now.end + least_length deck.now + deck.now.end) }
{
    let least = least_length(deck);
    if least as u64 + 2 * deck.end as u64 <= deck.length as u64 {
        Some(deck.length - least - deck.end)
    } else {
        None
    }
}

// All rounds after the first: as many as the deck has ships beside the first.
fn reach_all(deck: &Deck, rounds: &mut [Option<u8>])
    requires size { length rounds.old ≤ 100001 }
    requires begun { HasReached deck.now 0 rounds.old }
    ensures { HasReached deck.now (length deck.now.ships - 1) rounds.new }
{
    let count = deck.ships.as_slice().len() as u8;
    for before in 0..count - 1 {
        reach_next(deck, rounds, before);
    }
}

// Appends a place if it is reached.
fn push_reached(items: &mut Vec<u32>, reached: bool, place: u32) -> Result<(), AllocError>
    ensures { OnOk result (items.new.items ≡ items.old.items ++ (if reached then place ∷ [] else [])) }
{
    if reached {
        items.push(place)?;
    }
    Ok(())
}

// The places that are reached, in rising order.
#[tactic(auto, using(crate::proofs::CollectLemmas::reached_more, crate::proofs::CollectLemmas::reached_rises))]
fn reached_places(alloc: Global, rounds: &[Option<u8>]) -> Result<SpotList, NoMemory>
    requires { length rounds.now ≤ 100001 }
    ensures { IfOk result (λ places. places ≡ reached_of rounds.now (length rounds.now)) }
{
    let mut items = Vec::new(alloc);
    let count = rounds.len() as u32;
    for place in 0..count {
        push_reached(&mut items, rounds[place as usize].is_some(), place)?;
    }
    Ok(SpotList { items })
}

/// The spot values of a deck in decimetres, rising: the places that the near end gives in as many
/// rounds of steps as the deck has ships beside the first. A step goes from a ship's place to the
/// place tight behind it, or to that of another ship with the same far end; places are kept where
/// the shortest ship has room. The x of every ship of a normal placement is among them. Where no
/// ship has room the list is empty. Refuses want of memory alone.
#[tactic(auto, using(crate::proofs::ValueLemmas::no_values, crate::proofs::ValueLemmas::normal_of))]
pub fn spot_values(alloc: Global, deck: &Deck) -> Result<SpotList, NoMemory>
    ensures values { IfOk result (λ values. values ≡ spot_values deck.now) }
    ensures normal { IfOk result (λ values. HoldNormalPlaces deck.now values) }
{
    match last_place(deck) {
        None => Ok(SpotList {
            items: Vec::new(alloc),
        }),
        Some(last) => values_up_to(alloc, deck, last),
    }
}

// The spot values, where the shortest ship has room up to a last place.
#[tactic(auto, using(crate::proofs::ValueLemmas::first_reached))]
fn values_up_to(alloc: Global, deck: &Deck, last: u32) -> Result<SpotList, NoMemory>
    requires near { deck.now.end ≤ last }
    requires last { last + least_length deck.now + deck.now.end ≡ deck.now.length }
    ensures values { IfOk result (λ values. values ≡ spot_values deck.now) }
    ensures normal { IfOk result (λ values. HoldNormalPlaces deck.now values) }
{
    let mut rounds = vec![in alloc; None; last as usize + 1]?;
    rounds[deck.end as usize] = Some(0u8);
    values_in(alloc, deck, &mut rounds)
}

// The spot values, in a table where the near end alone is reached.
fn values_in(alloc: Global, deck: &Deck, rounds: &mut [Option<u8>]) -> Result<SpotList, NoMemory>
    requires size { length rounds.old ≤ 100001 }
    requires begun { HasReached deck.now 0 rounds.old }
    ensures { IfOk result (λ values. values ≡ spot_values deck.now) }
{
    reach_all(deck, rounds);
    reached_places(alloc, rounds)
}
