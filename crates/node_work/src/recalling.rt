//! What was found of the ships of a chamber before.
ghost use Rattle.std.specs.Prelude.{◌≡◌, ◌<◌, ◌≤◌, length, All, IfOk, IfSome};
ghost use Rattle.std.specs.Bool.{OnTrue};
ghost use Rattle.refute_rules.specs.Cases.{IsHard};
ghost use Rattle.refute_rules.specs.Spots.{IsSpotHard};
ghost use Rattle.node_work.specs.Settling.{AreMooredAt, IsSettled, IsRecalled};

use crate::cutting::GroupAsked;
use crate::first_placer::FirstPlacer;
use crate::search::Search;
use crate::settling::{Settled, settle};
use deck_cuts::{Hard, HardSpots, hard, hard_spots};
use lock_model::{Deck, Instance, Ships, Spots, deck_of};
use mooring_rules::{first_clash, judge_spots};
use no_memory::NoMemory;
use placed_groups::{Memory, Said};
use std::alloc::Global;

// Whether two decks are the same.
fn same_deck(a: &Deck, b: &Deck) -> bool
    ensures { OnTrue result (a.now ≡ b.now) }
{
    a == b
}

// Whether these spots are legal for a deck of which no two ships clash.
fn are_moored(deck: &Deck, spots: &Spots) -> bool
    ensures { OnTrue result (AreMooredAt deck.now spots.now) }
{
    spots.as_slice().len() == deck.ships.as_slice().len()
        && judge_spots(deck, spots).is_none()
        && first_clash(deck).is_none()
}

// That a deck is hard for exactly these turns, if that was found of it.
fn hard_again(deck: &Deck, turns: u32, known: &Hard) -> Option<Hard>
    ensures told { IfSome result (λ hard. hard ≡ record { deck = deck.now; turns = turns }) }
    ensures hard { IfSome result (λ _. IsHard deck.now turns) }
{
    if known.turns == turns && same_deck(&known.deck, deck) {
        Some(hard(deck.copy(), turns))
    } else {
        None
    }
}

// That a deck is spot-hard for exactly these turns, if that was found of it.
fn spots_again(deck: &Deck, turns: u32, known: &HardSpots) -> Option<HardSpots>
    ensures told { IfSome result (λ spots. spots ≡ record { deck = deck.now; turns = turns }) }
    ensures spot_hard { IfSome result (λ _. IsSpotHard deck.now turns) }
{
    if known.turns == turns && same_deck(&known.deck, deck) {
        Some(hard_spots(deck.copy(), turns))
    } else {
        None
    }
}

// The spots that a deck was given before.
fn recall_spots(deck: &Deck, turns: u32, spots: &Spots) -> Option<Settled>
    ensures { IfSome result (IsRecalled deck.now turns) }
{
    let _ = turns;
    if are_moored(deck, spots) {
        Some(Settled::Fits(spots.copy()))
    } else {
        None
    }
}

#[tactic(auto, using(crate::proofs::RecallLemmas::too_hard))]
// That a deck was too hard before.
fn recall_hard(deck: &Deck, turns: u32, known: &Hard, spots: &HardSpots) -> Option<Settled>
    ensures { IfSome result (IsRecalled deck.now turns) }
{
    let hard = hard_again(deck, turns, known)?;
    let spots = spots_again(deck, turns, spots)?;
    match first_clash(deck) {
        Some(_) => None,
        None => Some(Settled::Spent(hard, spots)),
    }
}

#[tactic(auto, using(crate::proofs::RecallLemmas::recalled_settles))]
/// That the ships of a chamber were too hard before, if that was for exactly these turns.
pub(crate) fn recall_spent(
    instance: &Instance,
    chamber: u8,
    ships: &Ships,
    turns: u32,
    known: &Hard,
    spots: &HardSpots,
) -> Option<Settled>
    requires chamber_in { chamber < length instance.now.chambers }
    requires ships_in { All (λ s. s < length instance.now.ships) ships.now }
    requires some { 1 ≤ length ships.now }
    ensures { IfSome result (IsSettled instance.now chamber ships.now turns) }
{
    let deck = deck_of(instance, chamber, ships);
    recall_hard(&deck, turns, known, spots)
}

#[tactic(auto, using(crate::proofs::RecallLemmas::recalled_settles))]
// The spots that the ships of a chamber were given before, if they are legal.
fn recall_fits(
    instance: &Instance,
    chamber: u8,
    ships: &Ships,
    turns: u32,
    spots: &Spots,
) -> Option<Settled>
    requires chamber_in { chamber < length instance.now.chambers }
    requires ships_in { All (λ s. s < length instance.now.ships) ships.now }
    requires some { 1 ≤ length ships.now }
    ensures { IfSome result (IsSettled instance.now chamber ships.now turns) }
{
    let deck = deck_of(instance, chamber, ships);
    recall_spots(&deck, turns, spots)
}

// What was found of these ships of this chamber, if it stands.
fn recall(
    instance: &Instance,
    chamber: u8,
    ships: &Ships,
    turns: u32,
    memory: &Memory,
) -> Option<Settled>
    requires chamber_in { chamber < length instance.now.chambers }
    requires ships_in { All (λ s. s < length instance.now.ships) ships.now }
    requires some { 1 ≤ length ships.now }
    ensures { IfSome result (IsSettled instance.now chamber ships.now turns) }
{
    match memory.find(chamber, ships)? {
        Said::Fits(spots) => recall_fits(instance, chamber, ships, turns, spots),
        Said::Spent(known, spots) => recall_spent(instance, chamber, ships, turns, known, spots),
    }
}

// The same as an answer to remember.
fn said_of(settled: &Settled) -> Option<Said> {
    match settled {
        Settled::Fits(spots) => Some(Said::Fits(spots.copy())),
        Settled::Refuted(_) => None,
        Settled::Spent(known, spots) => Some(Said::Spent(copy_hard(known), copy_spots(spots))),
    }
}

// The same hard deck.
fn copy_hard(known: &Hard) -> Hard {
    hard(known.deck.copy(), known.turns)
}

// The same spot-hard deck.
fn copy_spots(known: &HardSpots) -> HardSpots {
    hard_spots(known.deck.copy(), known.turns)
}

/// Asks the placers whether ships fit a chamber, within the search's turns of each, and remembers what
/// they find. Its only refusal is want of memory.
pub(crate) fn settle_anew(
    alloc: Global,
    search: &Search<'_>,
    first: FirstPlacer,
    chamber: u8,
    ships: &Ships,
    memory: &mut Memory,
) -> Result<Settled, NoMemory>
    requires chamber_in { chamber < length search.now.instance.now.chambers }
    requires ships_in { All (λ s. s < length search.now.instance.now.ships) ships.now }
    requires some { 1 ≤ length ships.now }
    ensures { IfOk result (IsSettled search.now.instance.now chamber ships.now search.now.turns) }
{
    let asked = GroupAsked {
        instance: search.instance,
        chamber,
        ships,
    };
    let settled = settle(alloc, &asked, first, search.turns)?;
    if let Some(said) = said_of(&settled) {
        memory.keep(chamber, ships, said)?;
    }
    Ok(settled)
}

/// Finds out whether ships fit a chamber, within the search's turns of each placer, and remembers it;
/// what was found before is tested again, and no placer is asked, whichever came first then. Its only
/// refusal is want of memory.
pub fn settle_known(
    alloc: Global,
    search: &Search<'_>,
    first: FirstPlacer,
    chamber: u8,
    ships: &Ships,
    memory: &mut Memory,
) -> Result<Settled, NoMemory>
    requires chamber_in { chamber < length search.now.instance.now.chambers }
    requires ships_in { All (λ s. s < length search.now.instance.now.ships) ships.now }
    requires some { 1 ≤ length ships.now }
    ensures { IfOk result (IsSettled search.now.instance.now chamber ships.now search.now.turns) }
{
    match recall(search.instance, chamber, ships, search.turns, memory) {
        Some(settled) => Ok(settled),
        None => settle_anew(alloc, search, first, chamber, ships, memory),
    }
}
