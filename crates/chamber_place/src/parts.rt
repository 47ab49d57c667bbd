//! Some of a deck's ships, by their places.
ghost use Rattle.std.specs.Prelude.{◌≡◌, ◌+◌, ◌≤◌, ◌<◌, ◌++◌, length, map, All, slice_index_or};
ghost use Rattle.std.specs.List.{remove};
ghost use Rattle.std.specs.List.Sorted.{IsStrictlyIncreasing};
ghost use Rattle.lock_model.specs.Deck.{IsDeck, no_size};
ghost use Rattle.lock_rules.specs.Arrival.{numbers_from};
ghost use Rattle.refute_rules.specs.Reasons.{AreSome};
ghost use Rattle.chamber_place.specs.Parts.{part_of};

use lock_model::{Deck, MOST, Ships, Size, Sizes};

/// How many ships the deck has.
pub(crate) fn ship_count(deck: &Deck) -> u8
    ensures value { result ≡ length deck.now.ships }
    ensures some { 1 ≤ result }
    ensures few { result ≤ MOST }
{
    deck.ships.as_slice().len() as u8
}

// The sizes at these places.
fn sizes_at(sizes: &[Size], places: &[u8]) -> Sizes
    requires few { length places.now ≤ MOST }
    requires known { All (λ k. k < length sizes.now) places.now }
    ensures { result ≡ map (λ k. slice_index_or sizes.now k no_size) places.now }
{
    let mut own = Sizes::new();
    for &place in places {
        own.push(sizes[place as usize]);
    }
    own
}

/// The deck with the ships at these places alone.
pub(crate) fn part_of(deck: &Deck, places: &Ships) -> Deck
    requires { AreSome deck.now places.now }
    ensures value { result ≡ part_of deck.now places.now }
    ensures limits { IsDeck result }
{
    Deck {
        length: deck.length,
        width: deck.width,
        end: deck.end,
        gap: deck.gap,
        side: deck.side,
        ships: sizes_at(deck.ships.as_slice(), places.as_slice()),
    }
}

// Appends rising ships.
fn push_all(ships: &mut Ships, more: &[u8])
    requires few { length ships.old + length more.now ≤ MOST }
    requires rising { IsStrictlyIncreasing (ships.old ++ more.now) }
    ensures { ships.new ≡ ships.old ++ more.now }
{
    for &ship in more {
        ships.push(ship);
    }
}

/// These places without the one of this number.
pub(crate) fn without(places: &Ships, number: usize) -> Ships
    requires { number < length places.now }
    ensures { result ≡ remove places.now number }
{
    let all = places.as_slice();
    let mut fewer = Ships::new();
    push_all(&mut fewer, &all[..number]);
    push_all(&mut fewer, &all[number + 1..]);
    fewer
}

/// All places of a deck of so many ships.
pub(crate) fn all_places(ships: u8) -> Ships
    requires { ships ≤ MOST }
    ensures { result ≡ numbers_from 0 ships }
{
    let mut places = Ships::new();
    for place in 0..ships {
        places.push(place);
    }
    places
}

/// The ships at these places.
pub(crate) fn ships_at(ships: &Ships, places: &Ships) -> Ships
    requires { All (λ k. k < length ships.now) places.now }
    ensures value { result ≡ map (λ k. slice_index_or ships.now k 0) places.now }
    ensures rising { IsStrictlyIncreasing result }
{
    let numbers = ships.as_slice();
    let mut own = Ships::new();
    for &place in places.as_slice() {
        own.push(numbers[place as usize]);
    }
    let _rising = own.as_slice();
    own
}
