//! What becomes of a node that holds all ships.
ghost use Rattle.std.specs.Prelude.{◌≡◌, ◌+◌, ◌<◌, ◌≤◌, length, IfOk, IfSome, IfNone};
ghost use Rattle.lock_rules.specs.Node.{line_at};
ghost use Rattle.master_branch.specs.Node.{IsNodeOf};
ghost use Rattle.node_work.specs.Fates.{IsAnyway, IsAnywayIn};
ghost use Rattle.node_work.specs.Lines.{IsMooredLine};

use crate::boxed::boxed;
use crate::fate::Fate;
use crate::first_placer::FirstPlacer;
use crate::group_fate::{known_if_new, refuted, spent};
use crate::known_cuts::KnownCuts;
use crate::leaf::leaf_plan;
use crate::moorings::{Mooring, Moorings};
use crate::recalling::settle_known;
use crate::search::Search;
use crate::settling::Settled;
use closing_rules::Ground;
use lock_model::SHIPS;
use master_branch::Node;
use no_memory::NoMemory;
use placed_groups::Memory;
use std::alloc::Global;

/// The line of a chamber of a node.
#[derive(Clone, Copy)]
struct Row<'n> {
    node: &'n Node,
    chamber: u8,
}

#[tactic(auto, using(crate::proofs::LineLemmas::moored_none, crate::proofs::LineLemmas::moored_room, crate::proofs::FateLemmas::group_known, crate::proofs::FateLemmas::group_some, crate::proofs::FateLemmas::known_fate, crate::proofs::FateLemmas::refuted_fate, crate::proofs::FateLemmas::spent_fate))]
// Moors the groups of a line, up to one that doesn't fit or is spent.
fn moor_line<K: KnownCuts>(
    alloc: Global,
    search: &Search<'_>,
    line: Row<'_>,
    known: &K,
    memory: &mut Memory,
    moorings: &mut Moorings,
) -> Result<Option<Fate>, NoMemory>
    requires node { IsNodeOf search.now.instance.now line.node.now }
    requires chamber_in { line.chamber < length search.now.instance.now.chambers }
    requires room { length moorings.old + length (line_at line.node.now.lines line.chamber) ≤ SHIPS }
    ensures stuck { IfOk result (λ found. IfSome found (IsAnywayIn search.now (K.tells known.now) line.entry.node.now)) }
    ensures moored { IfOk result (λ found. IfNone found (IsMooredLine search.now.instance.now line.entry moorings.old moorings.new)) }
{
    let Row { node, chamber } = line;
    let groups = node.line(chamber);
    for place in 0..groups.len() {
        let ships = &groups[place].ships;
        if let Some(number) = known_if_new(search.instance, chamber, ships, known, memory) {
            return Ok(Some(Fate::Closed(Ground::Cut(number))));
        }
        match settle_known(alloc, search, FirstPlacer::Cases, chamber, ships, memory)? {
            Settled::Fits(spots) => moorings.push(Mooring {
                chamber,
                ships: ships.copy(),
                spots,
            }),
            Settled::Refuted(cut) => return Ok(Some(refuted(alloc, cut)?)),
            Settled::Spent(hard, _) => return Ok(Some(spent(alloc, chamber, place as u8, hard)?)),
        }
    }
    Ok(None)
}

#[tactic(auto, using(crate::proofs::LineLemmas::below_none, crate::proofs::LineLemmas::below_more, crate::proofs::LineLemmas::below_room, crate::proofs::LineLemmas::below_all))]
/// What becomes of a node that holds all ships: a group that doesn't fit or is spent is named, else
/// each lies where it was placed, and the node gives its plan. Its only refusal is want of memory.
pub fn whole_fate<K: KnownCuts>(
    alloc: Global,
    search: &Search<'_>,
    node: &Node,
    known: &K,
    memory: &mut Memory,
) -> Result<Fate, NoMemory>
    requires node { IsNodeOf search.now.instance.now node.now }
    requires whole { node.now.depth ≡ length search.now.instance.now.ships }
    ensures { IfOk result (IsAnyway (K.tells known.now search.now.instance.now) search.now.instance.now search.now.turns node.now) }
{
    let mut moorings = Moorings::new();
    for chamber in 0..search.instance.chambers.as_slice().len() as u8 {
        let line = Row { node, chamber };
        let stuck = moor_line(alloc, search, line, known, memory, &mut moorings)?;
        match stuck {
            Some(fate) => return Ok(fate),
            None => {}
        }
    }
    let plan = leaf_plan(search.instance, node, &moorings);
    Ok(Fate::Plan(boxed(alloc, plan)?))
}
