//! Uncut groups that sweeps and beams find, placed.
ghost use Rattle.std.specs.Prelude.{◌≡◌};

use lock_model::Instance;
use near_plan::{Moves, fits, near_plan};
use no_memory::NoMemory;
use node_work::KnownCuts;
use placed_groups::Memory;
use price_search::{Asked, Found, Placer};
use price_terms::{LooseLine, LooseLines};
use std::alloc::Global;
use sweep::{UncutPlan, group_of};
use sweep_labels::KeptLabel;

/// Groups that a sweep or a beam found, of which no cut is known.
#[derive(Drop)]
pub enum UncutGroups<'l> {
    /// Those of a plan.
    Plan(UncutPlan),
    /// Those by which labels went on: all of nearly cheapest plans are among them.
    Steps(&'l [KeptLabel]),
}

// The lines of an uncut plan as loose ones.
fn loose_lines(alloc: Global, plan: UncutPlan) -> Result<LooseLines, NoMemory> {
    let mut lines = Vec::new(alloc);
    for groups in plan.lines {
        lines
            .push(LooseLine { groups, worth: 0 })
            .map_err(|_| NoMemory)?;
    }
    Ok(LooseLines { lines, sum: 0 })
}

// Places the group by which a label went on.
fn place_step<K: KnownCuts>(
    instance: &Instance,
    labels: &[KeptLabel],
    kept: &KeptLabel,
    placer: &mut Placer<'_, '_, K>,
) -> Result<(), NoMemory>
    requires { placer.old.search.now.instance.now ≡ instance.now }
    ensures { placer.new.search.now.instance.now ≡ instance.now }
{
    let Some(parent) = kept.parent else {
        return Ok(());
    };
    let Some(before) = labels.get(parent as usize) else {
        return Ok(());
    };
    let group = group_of(instance, kept, before);
    fits(instance, kept.chamber, &group.ships, placer)?;
    Ok(())
}

// Places the groups by which labels went on.
fn place_steps<K: KnownCuts>(
    instance: &Instance,
    labels: &[KeptLabel],
    placer: &mut Placer<'_, '_, K>,
) -> Result<(), NoMemory>
    requires { placer.old.search.now.instance.now ≡ instance.now }
    ensures { placer.new.search.now.instance.now ≡ instance.now }
{
    for kept in labels {
        place_step(instance, labels, kept, placer)?;
    }
    Ok(())
}

// How a plan's groups may move: of few ships a sweep finds the best plan soon, and stretches take longer.
fn moves_of(instance: &Instance) -> Moves {
    if instance.is_large() {
        Moves::Stretches
    } else {
        Moves::Ships
    }
}

/// Places uncut groups: each that doesn't fit gives a cut. Those of a plan are a plan then, which is found
/// where it is cheaper than the best one. Its only refusal is want of memory.
pub fn place_uncut<K: KnownCuts>(
    alloc: Global,
    asked: &Asked<'_, K>,
    memory: &mut Memory,
    groups: UncutGroups<'_>,
) -> Result<Found, NoMemory> {
    let instance = asked.search.instance;
    let mut placer = Placer::new(alloc, asked, memory);
    let plan = match groups {
        UncutGroups::Plan(plan) => {
            let lines = loose_lines(alloc, plan)?;
            near_plan(
                alloc,
                instance,
                &lines,
                asked.best,
                moves_of(instance),
                &mut placer,
            )?
        }
        UncutGroups::Steps(labels) => {
            place_steps(instance, labels, &mut placer)?;
            None
        }
    };
    Ok(Found {
        cuts: placer.found,
        plan,
    })
}
