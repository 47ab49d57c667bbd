//! What becomes of a node by one of its groups.
ghost use Rattle.std.specs.Prelude.{◌≡◌, ◌<◌, length, IfOk, IfSome, All};
ghost use Rattle.master_branch.specs.Node.{IsNodeOf};
ghost use Rattle.node_work.specs.Fates.{IsGroupAt, IsAnyway, IsRefutedBy, IsSpentBy};

use crate::boxed::boxed;
use crate::fate::Fate;
use crate::first_placer::FirstPlacer;
use crate::known_cuts::KnownCuts;
use crate::recalling::settle_known;
use crate::search::Search;
use crate::settling::Settled;
use closing_rules::Ground;
use deck_cuts::{Cut, Hard};
use lock_model::{Instance, Ships};
use master_branch::Node;
use no_memory::NoMemory;
use placed_groups::{Memory, Said};
use std::alloc::Global;

/// The fate of a node that a new cut hits.
pub(crate) fn refuted(alloc: Global, cut: Cut) -> Result<Fate, NoMemory>
    ensures { IfOk result (IsRefutedBy cut) }
{
    Ok(Fate::Refuted(boxed(alloc, cut)?))
}

/// The fate of a node with a group that is spent.
pub(crate) fn spent(alloc: Global, chamber: u8, place: u8, hard: Hard) -> Result<Fate, NoMemory>
    ensures { IfOk result (IsSpentBy chamber place hard) }
{
    Ok(Fate::Spent(chamber, place, boxed(alloc, hard)?))
}

/// The number of a known cut that hits these ships of this chamber, where nothing is remembered of
/// them.
pub(crate) fn known_if_new<K: KnownCuts>(
    instance: &Instance,
    chamber: u8,
    ships: &Ships,
    known: &K,
    memory: &Memory,
) -> Option<u64>
    requires chamber_in { chamber < length instance.now.chambers }
    requires ships_in { All (λ s. s < length instance.now.ships) ships.now }
    ensures { IfSome result (K.tells known.now instance.now chamber ships.now) }
{
    if memory.find(chamber, ships).is_some() {
        return None;
    }
    known.find(instance, chamber, ships)
}

#[tactic(auto, using(crate::proofs::FateLemmas::group_some, crate::proofs::FateLemmas::known_fate, crate::proofs::FateLemmas::refuted_fate))]
// What becomes of a node by a group of which a cut may be known, and which wasn't said to fit.
fn new_group_fate<K: KnownCuts>(
    alloc: Global,
    search: &Search<'_>,
    node: &Node,
    at: (u8, u8),
    known: &K,
    memory: &mut Memory,
) -> Result<Option<Fate>, NoMemory>
    requires node { IsNodeOf search.now.instance.now node.now }
    requires at { IsGroupAt search.now.instance.now node.now at.0 at.1 }
    ensures { IfOk result (λ found. IfSome found (IsAnyway (K.tells known.now search.now.instance.now) search.now.instance.now search.now.turns node.now)) }
{
    let (chamber, place) = at;
    let ships = &node.line(chamber)[place as usize].ships;
    if let Some(number) = known_if_new(search.instance, chamber, ships, known, memory) {
        return Ok(Some(Fate::Closed(Ground::Cut(number))));
    }
    match settle_known(alloc, search, FirstPlacer::Cases, chamber, ships, memory)? {
        Settled::Fits(_) => Ok(None),
        Settled::Refuted(cut) => Ok(Some(refuted(alloc, cut)?)),
        Settled::Spent(hard, _) => Ok(Some(spent(alloc, chamber, place, hard)?)),
    }
}

// Whether the ships of a group were said to fit.
fn is_said_to_fit(chamber: u8, ships: &Ships, memory: &Memory) -> bool {
    match memory.find(chamber, ships) {
        Some(Said::Fits(_)) => true,
        _ => false,
    }
}

/// What becomes of a node by a group of it, by what is remembered of its ships, by the known cuts, or
/// by what the placers find, which is remembered. None where the ships fit. Its only refusal is want
/// of memory.
pub(crate) fn group_fate<K: KnownCuts>(
    alloc: Global,
    search: &Search<'_>,
    node: &Node,
    at: (u8, u8),
    known: &K,
    memory: &mut Memory,
) -> Result<Option<Fate>, NoMemory>
    requires node { IsNodeOf search.now.instance.now node.now }
    requires at { IsGroupAt search.now.instance.now node.now at.0 at.1 }
    ensures { IfOk result (λ found. IfSome found (IsAnyway (K.tells known.now search.now.instance.now) search.now.instance.now search.now.turns node.now)) }
{
    let ships = &node.line(at.0)[at.1 as usize].ships;
    if is_said_to_fit(at.0, ships, memory) {
        return Ok(None);
    }
    new_group_fate(alloc, search, node, at, known, memory)
}
