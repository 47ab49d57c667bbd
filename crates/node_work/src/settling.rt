//! What the placers find of the ships of a chamber.
ghost use Rattle.std.specs.Prelude.{◌≡◌, ◌<◌, ◌≤◌, length, All, IfOk, IfSome, IfNone};
ghost use Rattle.lock_model.specs.Fitting.{deck_of};
ghost use Rattle.lock_model.specs.Placement.{IsLegalPlacement};
ghost use Rattle.lock_model.specs.Cargo.{HasNoClash};
ghost use Rattle.refute_rules.specs.Cases.{IsHard};
ghost use Rattle.node_work.specs.Settling.{IsAnswered, IsPartOf, IsSettled};

use crate::cutting::{GroupAsked, Part, cut_of, whole_part};
use crate::first_placer::FirstPlacer;
use crate::largest::large_part;
use berth_place::{BerthPlaced, place_by_berths};
use chamber_place::{Placed, place};
use deck_cuts::{Cut, Hard, HardSpots};
use lock_model::{Deck, Moor, Rank, Spot, Spots, deck_of};
use mooring_rules::{first_clash, judge_spots};
use no_memory::NoMemory;
use refute_rules::Refutation;
use ship_shapes::find_reason;
use spot_place::{SpotPlaced, place_by_spots};
use std::alloc::Global;

/// What is found of the ships of a chamber.
#[derive(Drop)]
pub enum Settled {
    /// The ships fit; these are legal spots.
    Fits(Spots),
    /// The ships don't fit; this cut hits them.
    Refuted(Cut),
    /// No placer came to an end within the turns.
    Spent(Hard, HardSpots),
}

/// What the placers say of a deck.
#[derive(Drop)]
pub(crate) enum Answer {
    /// The ships fit; these are legal spots.
    Fits(Spots),
    /// This keeps the ships from fitting.
    Refuted(Refutation),
    /// No placer came to an end within the turns.
    Spent(Hard, HardSpots),
}

// The most turns that `place` is asked before the placer by berths, where `place` comes first.
const FIRST_TURNS: u32 = 500;

// The most options that the placer by berths tries before the largest ships are asked about alone.
const SOON_TRIES: u32 = 4_000;

// How many turns the placer by berths has for each turn of the others, where these have many. Its
// turns are short, since most of its options are faults, and the others seldom decide what it can't.
const BERTHS_A_TURN: u32 = 8;

// The spot of a ship alone: at the near end of the left quay.
fn alone(deck: &Deck) -> Spots {
    let mut spots = Spots::new();
    spots.push(Spot {
        x: deck.end,
        y: 0,
        rank: Rank::Left,
        moor: Moor::Quay,
    });
    spots
}

// The spots of one ship that fits its chamber alone.
fn spots_alone(deck: &Deck) -> Option<Spots>
    ensures { IfSome result (IsLegalPlacement deck.now) }
{
    if deck.ships.as_slice().len() != 1 {
        return None;
    }
    let spots = alone(deck);
    if spots.as_slice().len() == 1 && judge_spots(deck, &spots).is_none() {
        Some(spots)
    } else {
        None
    }
}

// How many of these turns `place` is asked before the placer by berths, where `place` comes first.
fn first_turns(turns: u32) -> u32
    requires { 1 ≤ turns }
    ensures { 1 ≤ result }
{
    if turns < FIRST_TURNS {
        turns
    } else {
        FIRST_TURNS
    }
}

// Asks the placer by spots, where the one by cases has spent its turns.
fn ask_by_spots(alloc: Global, deck: &Deck, turns: u32, hard: Hard) -> Result<Answer, NoMemory>
    requires turns { 1 ≤ turns }
    requires clear { HasNoClash deck.now }
    requires spent { IsHard deck.now turns }
    requires told { hard ≡ record { deck = deck.now; turns = turns } }
    ensures { IfOk result (IsAnswered deck.now turns) }
{
    match place_by_spots(alloc, deck, turns)? {
        SpotPlaced::Fits(spots) => Ok(Answer::Fits(spots)),
        SpotPlaced::Refuted(marks) => Ok(Answer::Refuted(Refutation::Spots(marks))),
        SpotPlaced::Spent(spots) => Ok(Answer::Spent(hard, spots)),
    }
}

// Asks the placers by cases and by spots with all turns, where the one by berths has spent them.
fn ask_all(alloc: Global, deck: &Deck, turns: u32) -> Result<Answer, NoMemory>
    requires turns { 1 ≤ turns }
    requires clear { HasNoClash deck.now }
    ensures { IfOk result (IsAnswered deck.now turns) }
{
    match place(alloc, deck, turns)? {
        Placed::Fits(spots) => Ok(Answer::Fits(spots)),
        Placed::Refuted(refutation) => Ok(Answer::Refuted(refutation)),
        Placed::Spent(hard) => ask_by_spots(alloc, deck, turns, hard),
    }
}

// How many turns the placer by berths has.
fn berth_turns(turns: u32) -> u32 {
    if turns < FIRST_TURNS {
        turns
    } else {
        turns.saturating_mul(BERTHS_A_TURN)
    }
}

// Asks the placer by berths, and the other two where that one has spent its turns.
fn ask_by_berths(alloc: Global, deck: &Deck, turns: u32) -> Result<Answer, NoMemory>
    requires turns { 1 ≤ turns }
    requires clear { HasNoClash deck.now }
    ensures { IfOk result (IsAnswered deck.now turns) }
{
    match place_by_berths(alloc, deck, berth_turns(turns))? {
        BerthPlaced::Fits(spots) => Ok(Answer::Fits(spots)),
        BerthPlaced::Refuted(marks) => Ok(Answer::Refuted(Refutation::Berths(marks))),
        BerthPlaced::Spent(_) => ask_all(alloc, deck, turns),
    }
}

// Asks the placer by berths with few tries, where its turns are many.
fn ask_berths_soon(alloc: Global, deck: &Deck, turns: u32) -> Result<Option<Answer>, NoMemory>
    requires clear { HasNoClash deck.now }
    ensures { IfOk result (λ found. IfSome found (IsAnswered deck.now turns)) }
{
    if turns <= FIRST_TURNS {
        return Ok(None);
    }
    match place_by_berths(alloc, deck, SOON_TRIES)? {
        BerthPlaced::Fits(spots) => Ok(Some(Answer::Fits(spots))),
        BerthPlaced::Refuted(marks) => Ok(Some(Answer::Refuted(Refutation::Berths(marks)))),
        BerthPlaced::Spent(_) => Ok(None),
    }
}

// Asks `place` with its first turns, and the placer by berths with few where these are spent.
fn ask_cases_first(alloc: Global, deck: &Deck, turns: u32) -> Result<Option<Answer>, NoMemory>
    requires turns { 1 ≤ turns }
    requires clear { HasNoClash deck.now }
    ensures { IfOk result (λ found. IfSome found (IsAnswered deck.now turns)) }
{
    match place(alloc, deck, first_turns(turns))? {
        Placed::Fits(spots) => Ok(Some(Answer::Fits(spots))),
        Placed::Refuted(refutation) => Ok(Some(Answer::Refuted(refutation))),
        Placed::Spent(_) => ask_berths_soon(alloc, deck, turns),
    }
}

// Asks the placer by berths with few tries, of decks that have no quick reason.
fn ask_berths_first(alloc: Global, deck: &Deck, turns: u32) -> Result<Option<Answer>, NoMemory>
    requires clear { HasNoClash deck.now }
    ensures { IfOk result (λ found. IfSome found (IsAnswered deck.now turns)) }
{
    match find_reason(deck) {
        Some(reason) => Ok(Some(Answer::Refuted(Refutation::Quick(reason)))),
        None => ask_berths_soon(alloc, deck, turns),
    }
}

// Asks the placers with few turns about ships of which no two clash.
fn ask_in_turn(
    alloc: Global,
    deck: &Deck,
    first: FirstPlacer,
    turns: u32,
) -> Result<Option<Answer>, NoMemory>
    requires turns { 1 ≤ turns }
    requires clear { HasNoClash deck.now }
    ensures { IfOk result (λ found. IfSome found (IsAnswered deck.now turns)) }
{
    if let Some(spots) = spots_alone(deck) {
        return Ok(Some(Answer::Fits(spots)));
    }
    match first {
        FirstPlacer::Cases => ask_cases_first(alloc, deck, turns),
        FirstPlacer::Berths => ask_berths_first(alloc, deck, turns),
    }
}

// What is found soon of the ships of this deck.
fn ask_soon(
    alloc: Global,
    deck: &Deck,
    first: FirstPlacer,
    turns: u32,
) -> Result<Option<Answer>, NoMemory>
    requires turns { 1 ≤ turns }
    ensures answer { IfOk result (λ found. IfSome found (IsAnswered deck.now turns)) }
    ensures clear { IfOk result (λ found. IfNone found (HasNoClash deck.now)) }
{
    match first_clash(deck) {
        Some((one, other)) => Ok(Some(Answer::Refuted(Refutation::Clash(one, other)))),
        None => ask_in_turn(alloc, deck, first, turns),
    }
}

// A part of the largest ships that the placer by berths refutes. More tries come only after fewer
// refuted no part, so that the tree is small.
fn refuted_large(
    alloc: Global,
    asked: &GroupAsked<'_>,
    turns: u32,
) -> Result<Option<Part>, NoMemory>
    requires chamber_in { asked.now.chamber < length asked.now.instance.now.chambers }
    requires ships_in { All (λ s. s < length asked.now.instance.now.ships) asked.now.ships.now }
    ensures { IfOk result (λ found. IfSome found (λ part. IsPartOf asked.now.instance.now asked.now.chamber asked.now.ships.now part.ships part.refutation)) }
{
    if turns <= FIRST_TURNS {
        return Ok(None);
    }
    if let Some(part) = large_part(alloc, asked, turns / BERTHS_A_TURN)? {
        return Ok(Some(part));
    }
    if let Some(part) = large_part(alloc, asked, turns)? {
        return Ok(Some(part));
    }
    large_part(alloc, asked, berth_turns(turns))
}

// The cut of a refuted part, which hits all of the ships.
#[tactic(auto, using(crate::proofs::CutLemmas::cut_settles))]
fn refuted_by(
    alloc: Global,
    asked: &GroupAsked<'_>,
    first: FirstPlacer,
    part: Part,
    turns: u32,
) -> Result<Settled, NoMemory>
    requires chamber_in { asked.now.chamber < length asked.now.instance.now.chambers }
    requires ships_in { All (λ s. s < length asked.now.instance.now.ships) asked.now.ships.now }
    requires turns { 1 ≤ turns }
    requires part { IsPartOf asked.now.instance.now asked.now.chamber asked.now.ships.now part.ships part.refutation }
    ensures { IfOk result (IsSettled asked.now.instance.now asked.now.chamber asked.now.ships.now turns) }
{
    let cut = cut_of(alloc, asked, first, part, turns)?;
    Ok(Settled::Refuted(cut))
}

// What an answer of the deck of these ships comes to.
fn answered(
    alloc: Global,
    asked: &GroupAsked<'_>,
    first: FirstPlacer,
    answer: Answer,
    turns: u32,
) -> Result<Settled, NoMemory>
    requires chamber_in { asked.now.chamber < length asked.now.instance.now.chambers }
    requires ships_in { All (λ s. s < length asked.now.instance.now.ships) asked.now.ships.now }
    requires some { 1 ≤ length asked.now.ships.now }
    requires turns { 1 ≤ turns }
    requires answer { IsAnswered (deck_of asked.now.instance.now asked.now.chamber asked.now.ships.now) turns answer }
    ensures { IfOk result (IsSettled asked.now.instance.now asked.now.chamber asked.now.ships.now turns) }
{
    match answer {
        Answer::Fits(spots) => Ok(Settled::Fits(spots)),
        Answer::Spent(hard, spots) => Ok(Settled::Spent(hard, spots)),
        Answer::Refuted(refutation) => {
            let part = whole_part(asked, refutation);
            refuted_by(alloc, asked, first, part, turns)
        }
    }
}

/// Finds out whether ships fit a chamber, within so many turns of each placer. Two ships that clash
/// refute it, and a ship that fits alone lies at the near end of the left quay. For all others the
/// placers are asked, each where those before it were spent: `place` with at most 500 of the turns, or
/// only a quick reason is looked for where the placer by berths is to come first; then
/// `place_by_berths` with eight times the turns, or as many where they are fewer than 500, and `place`
/// and `place_by_spots` with all turns. Of more than 500 turns, `place_by_berths` first tries 4,000
/// options, and then asks about the largest ships alone, from five to all but one, of which a smaller
/// tree may refute all. So `Spent` comes only where all three gave up on all of the ships. Its only
/// refusal is want of memory.
pub(crate) fn settle(
    alloc: Global,
    asked: &GroupAsked<'_>,
    first: FirstPlacer,
    turns: u32,
) -> Result<Settled, NoMemory>
    requires chamber_in { asked.now.chamber < length asked.now.instance.now.chambers }
    requires ships_in { All (λ s. s < length asked.now.instance.now.ships) asked.now.ships.now }
    requires some { 1 ≤ length asked.now.ships.now }
    requires turns { 1 ≤ turns }
    ensures { IfOk result (IsSettled asked.now.instance.now asked.now.chamber asked.now.ships.now turns) }
{
    let deck = deck_of(asked.instance, asked.chamber, asked.ships);
    if let Some(answer) = ask_soon(alloc, &deck, first, turns)? {
        return answered(alloc, asked, first, answer, turns);
    }
    if let Some(part) = refuted_large(alloc, asked, turns)? {
        return refuted_by(alloc, asked, first, part, turns);
    }
    let answer = ask_by_berths(alloc, &deck, turns)?;
    answered(alloc, asked, first, answer, turns)
}
