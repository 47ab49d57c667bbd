//! Smaller cuts.
ghost use Rattle.std.specs.Prelude.{◌≡◌, ◌≤◌, [], ◌∷◌, length, IfOk, IfSome, IfNone};
ghost use Rattle.refute_rules.specs.Clashes.{IsClashingPair};
ghost use Rattle.refute_rules.specs.Cuts.{IsCut};
ghost use Rattle.refute_rules.specs.Refutes.{IsRefuted};
ghost use Rattle.refute_rules.specs.Reasons.{AreSome};
ghost use Rattle.chamber_place.specs.Placing.{PlaceRefutes};
ghost use Rattle.chamber_place.specs.Parts.{part_of, IsLeast, IsShrunk, IsPart, IsRefutedPart, IsSmaller, IsSmallerPart, HasNoSmallerPart, BeginsWithClash};

use crate::parts::{all_places, part_of, ship_count, ships_at, without};
use crate::placing::{Placed, place};
use deck_cuts::{Cut, known_cut};
use lock_model::{Deck, Ships};
use no_memory::NoMemory;
use refute_rules::{Quick, Refutation};
use std::alloc::Global;

// Places of a deck, and a refutation of the deck with the ships there alone.
#[derive(Drop)]
struct Part {
    places: Ships,
    refutation: Refutation,
}

// What `place` refutes of the deck with the ships at these places alone.
fn refuted_part(
    alloc: Global,
    deck: &Deck,
    places: Ships,
    turns: u32,
) -> Result<Option<Part>, NoMemory>
    requires turns { 1 ≤ turns }
    requires some { AreSome deck.now places }
    ensures some { IfOk result (λ found. IfSome found (λ part. IsRefutedPart deck.now turns places part.places part.refutation)) }
    ensures none { IfOk result (λ found. IfNone found (PlaceRefutes (part_of deck.now places) turns → ⊥)) }
{
    match place(alloc, &part_of(deck, &places), turns)? {
        Placed::Refuted(refutation) => Ok(Some(Part { places, refutation })),
        Placed::Fits(_) => Ok(None),
        Placed::Spent(_) => Ok(None),
    }
}

// The first part with one ship fewer that `place` refutes.
fn smaller_part(
    alloc: Global,
    deck: &Deck,
    places: &Ships,
    turns: u32,
) -> Result<Option<Part>, NoMemory>
    requires turns { 1 ≤ turns }
    requires some { AreSome deck.now places.now }
    requires two { 2 ≤ length places.now }
    ensures some { IfOk result (λ found. IfSome found (λ part. IsSmallerPart deck.now turns places.now part.places part.refutation)) }
    ensures none { IfOk result (λ found. IfNone found (HasNoSmallerPart deck.now turns places.now)) }
{
    for number in 0..places.len() {
        if let Some(part) = refuted_part(alloc, deck, without(places, number), turns)? {
            return Ok(Some(part));
        }
    }
    Ok(None)
}

// Leaves ships out as long as `place` refutes what is left.
fn least_part(alloc: Global, deck: &Deck, part: Part, turns: u32) -> Result<Part, NoMemory>
    requires turns { 1 ≤ turns }
    requires part { IsPart deck.now part.places part.refutation }
    ensures part { IfOk result (λ least. IsPart deck.now least.places least.refutation) }
    ensures smaller { IfOk result (λ least. IsSmaller deck.now turns part.places least.places) }
    ensures least { IfOk result (λ least. IsLeast (part_of deck.now least.places) turns) }
{
    let mut least = part;
    while least.places.len() > 1 {
        match smaller_part(alloc, deck, &least.places, turns)? {
            Some(smaller) => least = smaller,
            None => return Ok(least),
        }
    }
    Ok(least)
}

// The ships that a quick reason names.
fn named(deck: &Deck, refutation: &Refutation) -> Option<Ships>
    requires { IsRefuted deck.now refutation.now }
    ensures { IfSome result (AreSome deck.now) }
{
    match refutation {
        Refutation::Quick(Quick::Row(ships)) => Some(ships.copy()),
        Refutation::Quick(Quick::Column(ships)) => Some(ships.copy()),
        _ => None,
    }
}

// All ships, with the refutation itself.
fn whole_part(deck: &Deck, refutation: Refutation) -> Part
    requires { IsRefuted deck.now refutation }
    ensures { IsPart deck.now result.places result.refutation }
{
    Part {
        places: all_places(ship_count(deck)),
        refutation,
    }
}

// The two ships of a clash.
fn clash_part(deck: &Deck, first: u8, second: u8) -> Part
    requires { IsClashingPair deck.now first second }
    ensures places { result.places ≡ first ∷ second ∷ [] }
    ensures part { IsPart deck.now result.places result.refutation }
{
    let mut places = Ships::single(first);
    places.push(second);
    Part {
        places,
        refutation: Refutation::Clash(0, 1),
    }
}

// The ships that a quick reason names, where `place` refutes these alone, or all ships.
fn named_part(
    alloc: Global,
    deck: &Deck,
    refutation: Refutation,
    turns: u32,
) -> Result<Part, NoMemory>
    requires turns { 1 ≤ turns }
    requires refuted { IsRefuted deck.now refutation }
    ensures { IfOk result (λ part. IsPart deck.now part.places part.refutation) }
{
    if let Some(places) = named(deck, &refutation) {
        if let Some(part) = refuted_part(alloc, deck, places, turns)? {
            return Ok(part);
        }
    }
    Ok(whole_part(deck, refutation))
}

// Where shrinking begins.
fn first_part(
    alloc: Global,
    deck: &Deck,
    refutation: Refutation,
    turns: u32,
) -> Result<Part, NoMemory>
    requires turns { 1 ≤ turns }
    requires refuted { IsRefuted deck.now refutation }
    ensures part { IfOk result (λ part. IsPart deck.now part.places part.refutation) }
    ensures clash { IfOk result (λ part. BeginsWithClash refutation part.places) }
{
    match refutation {
        Refutation::Clash(first, second) => Ok(clash_part(deck, first, second)),
        Refutation::Quick(reason) => named_part(alloc, deck, Refutation::Quick(reason), turns),
        Refutation::Cases(marks) => Ok(whole_part(deck, Refutation::Cases(marks))),
        Refutation::Spots(marks) => Ok(whole_part(deck, Refutation::Spots(marks))),
        Refutation::Berths(marks) => Ok(whole_part(deck, Refutation::Berths(marks))),
    }
}

/// A cut of as few of these ships as `place` refutes within so many turns, at least 1.
///
/// The ships are those of the deck, in its order, and the refutation holds for the deck. The cut
/// has the given chamber, some of the ships, and their sizes in a deck of the given measures. Where
/// it has two ships or more, `place` refutes no deck that leaves out one of them. Of a clash it
/// keeps the pair, or one ship of the pair that `place` refutes alone. Its only refusal is want of
/// memory.
pub fn shrink(
    alloc: Global,
    chamber: u8,
    ships: &Ships,
    deck: &Deck,
    refutation: Refutation,
    turns: u32,
) -> Result<Cut, NoMemory>
    requires turns { 1 ≤ turns }
    requires refuted { IsRefuted deck.now refutation }
    requires sizes { length ships.now ≡ length deck.now.ships }
    ensures shrunk { IfOk result (IsShrunk chamber ships.now deck.now refutation turns) }
    ensures cut { IfOk result IsCut }
{
    let begun = first_part(alloc, deck, refutation, turns)?;
    let least = least_part(alloc, deck, begun, turns)?;
    let own = ships_at(ships, &least.places);
    let part = part_of(deck, &least.places);
    Ok(known_cut(chamber, own, part, least.refutation))
}
