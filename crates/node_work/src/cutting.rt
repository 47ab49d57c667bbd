//! Cuts of what the placers refute.
ghost use Rattle.std.specs.Prelude.{◌≡◌, ◌<◌, ◌≤◌, ◌+◌, length, All, Contains, IfOk, IfSome};
ghost use Rattle.refute_rules.specs.Refutes.{IsRefuted};
ghost use Rattle.lock_model.specs.Fitting.{deck_of};
ghost use Rattle.node_work.specs.Settling.{turns_by_cases, shrink_turns, IsPartOf, IsCutOfPart};

use crate::first_placer::FirstPlacer;
use crate::last::is_among;
use berth_place::{BerthPlaced, place_by_berths};
use chamber_place::shrink;
use deck_cuts::{Cut, copy_cut};
use lock_model::{Instance, MOST, SHIPS, Ships, deck_of};
use no_memory::NoMemory;
use refute_rules::Refutation;
use std::alloc::Global;

/// Ships that are asked about, and their chamber.
#[derive(Clone, Copy)]
pub(crate) struct GroupAsked<'i> {
    pub(crate) instance: &'i Instance,
    pub(crate) chamber: u8,
    pub(crate) ships: &'i Ships,
}

/// Some of the ships, and a refutation of their deck.
#[derive(Drop)]
pub(crate) struct Part {
    pub(crate) ships: Ships,
    pub(crate) refutation: Refutation,
}

/// Appends a ship of these, if it is to be kept.
pub(crate) fn add_kept(ships: &Ships, is_kept: bool, ship: u8, fewer: &mut Ships)
    requires below { All (λ s. s < ship) fewer.old }
    requires among { All (Contains ships.now) fewer.old }
    ensures below { All (λ s. s < ship + 1) fewer.new }
    ensures among { All (Contains ships.now) fewer.new }
{
    if is_kept && is_among(ship, ships.as_slice()) && fewer.len() < MOST {
        fewer.push(ship);
    }
}

// These ships but one.
fn without(ships: &Ships, gone: u8) -> Ships
    ensures { All (Contains ships.now) result }
{
    let mut fewer = Ships::new();
    for ship in 0..SHIPS as u8 {
        add_kept(ships, ship != gone, ship, &mut fewer);
    }
    fewer
}

/// The part of these ships, where the placer by berths refutes them.
#[tactic(auto, using(crate::proofs::CutLemmas::part_is))]
pub(crate) fn berth_part(
    alloc: Global,
    asked: &GroupAsked<'_>,
    ships: Ships,
    turns: u32,
) -> Result<Option<Part>, NoMemory>
    requires chamber_in { asked.now.chamber < length asked.now.instance.now.chambers }
    requires ships_in { All (λ s. s < length asked.now.instance.now.ships) asked.now.ships.now }
    requires among { All (Contains asked.now.ships.now) ships }
    requires some { 1 ≤ length ships }
    ensures { IfOk result (λ found. IfSome found (λ part. IsPartOf asked.now.instance.now asked.now.chamber asked.now.ships.now part.ships part.refutation)) }
{
    let deck = deck_of(asked.instance, asked.chamber, &ships);
    match place_by_berths(alloc, &deck, turns)? {
        BerthPlaced::Refuted(marks) => Ok(Some(Part {
            ships,
            refutation: Refutation::Berths(marks),
        })),
        BerthPlaced::Fits(_) => Ok(None),
        BerthPlaced::Spent(_) => Ok(None),
    }
}

// The part without a ship, where the placer by berths refutes what is left, or the part itself.
fn left_out(
    alloc: Global,
    asked: &GroupAsked<'_>,
    part: Part,
    gone: u8,
    turns: u32,
) -> Result<Part, NoMemory>
    requires chamber_in { asked.now.chamber < length asked.now.instance.now.chambers }
    requires ships_in { All (λ s. s < length asked.now.instance.now.ships) asked.now.ships.now }
    requires part { IsPartOf asked.now.instance.now asked.now.chamber asked.now.ships.now part.ships part.refutation }
    ensures { IfOk result (λ left. IsPartOf asked.now.instance.now asked.now.chamber asked.now.ships.now left.ships left.refutation) }
{
    let fewer = without(&part.ships, gone);
    if fewer.len() == 0 {
        return Ok(part);
    }
    match berth_part(alloc, asked, fewer, turns)? {
        Some(smaller) => Ok(smaller),
        None => Ok(part),
    }
}

// Leaves each ship out in turn, as long as the placer by berths refutes what is left.
fn least_part(
    alloc: Global,
    asked: &GroupAsked<'_>,
    part: Part,
    turns: u32,
) -> Result<Part, NoMemory>
    requires chamber_in { asked.now.chamber < length asked.now.instance.now.chambers }
    requires ships_in { All (λ s. s < length asked.now.instance.now.ships) asked.now.ships.now }
    requires part { IsPartOf asked.now.instance.now asked.now.chamber asked.now.ships.now part.ships part.refutation }
    ensures { IfOk result (λ least. IsPartOf asked.now.instance.now asked.now.chamber asked.now.ships.now least.ships least.refutation) }
{
    let mut least = part;
    for &ship in asked.ships.as_slice() {
        least = left_out(alloc, asked, least, ship, turns)?;
    }
    Ok(least)
}

// Whether the placer by berths is asked about fewer ships before a cut is shrunk. It answers soon for
// what itself refuted; where it comes first, for all but a clash, of which its tree tells nothing.
fn is_left_out_first(first: FirstPlacer, refutation: &Refutation) -> bool {
    match first {
        FirstPlacer::Cases => matches!(refutation, Refutation::Berths(_)),
        FirstPlacer::Berths => !matches!(refutation, Refutation::Clash(_, _)),
    }
}

/// All of the ships, with a refutation of their deck.
#[tactic(auto, using(crate::proofs::CutLemmas::whole_is))]
pub(crate) fn whole_part(asked: &GroupAsked<'_>, refutation: Refutation) -> Part
    requires some { 1 ≤ length asked.now.ships.now }
    requires refuted { IsRefuted (deck_of asked.now.instance.now asked.now.chamber asked.now.ships.now) refutation }
    ensures { IsPartOf asked.now.instance.now asked.now.chamber asked.now.ships.now result.ships result.refutation }
{
    Part {
        ships: asked.ships.copy(),
        refutation,
    }
}

// The least part where ships are left out first, or the part itself.
fn begun_part(
    alloc: Global,
    asked: &GroupAsked<'_>,
    first: FirstPlacer,
    part: Part,
    turns: u32,
) -> Result<Part, NoMemory>
    requires chamber_in { asked.now.chamber < length asked.now.instance.now.chambers }
    requires ships_in { All (λ s. s < length asked.now.instance.now.ships) asked.now.ships.now }
    requires part { IsPartOf asked.now.instance.now asked.now.chamber asked.now.ships.now part.ships part.refutation }
    ensures { IfOk result (λ begun. IsPartOf asked.now.instance.now asked.now.chamber asked.now.ships.now begun.ships begun.refutation) }
{
    if is_left_out_first(first, &part.refutation) {
        least_part(alloc, asked, part, turns)
    } else {
        Ok(part)
    }
}

// How many turns `place` has for each smaller deck of a part that it or the placer by spots refuted.
fn turns_by_cases(first: FirstPlacer, turns: u32) -> u32
    requires { 1 ≤ turns }
    ensures value { result ≡ turns_by_cases first turns }
    ensures some { 1 ≤ result }
{
    match first {
        FirstPlacer::Cases => turns,
        FirstPlacer::Berths => 1,
    }
}

// How many turns `place` has for each smaller deck where a cut is shrunk. What the placer by berths
// couldn't make smaller `place` seldom can, so there it gets one, and still finds quick reasons.
fn shrink_turns(first: FirstPlacer, refutation: &Refutation, turns: u32) -> u32
    requires { 1 ≤ turns }
    ensures value { result ≡ shrink_turns first turns refutation.now }
    ensures some { 1 ≤ result }
{
    match refutation {
        Refutation::Berths(_) => 1,
        Refutation::Quick(_) => turns_by_cases(first, turns),
        Refutation::Cases(_) => turns_by_cases(first, turns),
        Refutation::Spots(_) => turns_by_cases(first, turns),
        Refutation::Clash(_, _) => turns,
    }
}

/// The cut of a refuted part. Where a berth tree refutes it, or the placer by berths comes first and
/// no two ships clash, ships are left out as long as that placer refutes the rest, with these turns
/// each time; then the cut is no larger than it has to be for `place` with one turn. Any other
/// cut is no larger than it has to be for `place` with all turns.
#[tactic(auto, using(crate::proofs::CutLemmas::as_many, crate::proofs::CutLemmas::cut_from))]
pub(crate) fn cut_of(
    alloc: Global,
    asked: &GroupAsked<'_>,
    first: FirstPlacer,
    part: Part,
    turns: u32,
) -> Result<Cut, NoMemory>
    requires chamber_in { asked.now.chamber < length asked.now.instance.now.chambers }
    requires ships_in { All (λ s. s < length asked.now.instance.now.ships) asked.now.ships.now }
    requires turns { 1 ≤ turns }
    requires part { IsPartOf asked.now.instance.now asked.now.chamber asked.now.ships.now part.ships part.refutation }
    ensures { IfOk result (IsCutOfPart first asked.now.instance.now asked.now.chamber asked.now.ships.now turns) }
{
    let begun = begun_part(alloc, asked, first, part, turns)?;
    let Part {
        ships: own,
        refutation: why,
    } = begun;
    let deck = deck_of(asked.instance, asked.chamber, &own);
    let few = shrink_turns(first, &why, turns);
    let cut = shrink(alloc, asked.chamber, &own, &deck, why, few)?;
    // a tree grew by doubling, and its copy has no more room than it needs
    copy_cut(&cut)
}
