//! A plan near loose lines.
ghost use Rattle.std.specs.Prelude.{◌≡◌, ◌<◌, length, IfOk, IfSome};
ghost use Rattle.lock_rules.specs.Plan.{IsLegal, cost_of};
ghost use Rattle.near_plan.specs.Rows.{IsDraft};

use crate::draft::Draft;
use crate::fitting::Fitting;
use crate::keeping::keep_lines;
use crate::plan::plan_of;
use crate::putting::{Trial, put};
use crate::stretches::{Spare, better_stretches};
use lock_model::{Instance, Plan};
use master_branch::arrival_order;
use no_memory::NoMemory;
use price_terms::LooseLines;
use std::alloc::Global;

// How often all ships are taken out and put in again.
const MOST_ROUNDS: u32 = 3;
// The same of stretches.
const MOST_STRETCH_ROUNDS: u32 = 2;
// Stretches are tried of a draft that costs less than what is asked and this part of it.
const NEAR_PART: u64 = 32;

/// What is taken out of a draft and put in again.
#[derive(Clone, Copy)]
pub enum Moves {
    /// Ships one by one.
    Ships,
    /// Stretches of the order of arrival too.
    Stretches,
}

// Puts all ships in that the draft lacks, in arrival order; whether all could be put.
#[inline(never)]
fn complete<F: Fitting>(
    instance: &Instance,
    draft: &mut Draft,
    trials: &mut Vec<Trial>,
    fitting: &mut F,
) -> Result<bool, NoMemory>
    requires draft { IsDraft instance.now draft.old }
    requires same { F.instance fitting.old ≡ instance.now }
    ensures draft { IsDraft instance.now draft.new }
    ensures same { F.instance fitting.new ≡ instance.now }
{
    let order = arrival_order(instance);
    for &ship in order.as_slice() {
        let lacks = draft.find(instance, ship).is_none();
        if lacks && !put(instance, draft, ship, u64::MAX, trials, fitting)? {
            return Ok(false);
        }
    }
    Ok(true)
}

// Takes a ship out and puts it in again, where that gains; else the draft is as it was.
fn better_for<F: Fitting>(
    instance: &Instance,
    draft: &mut Draft,
    ship: u8,
    trials: &mut Vec<Trial>,
    fitting: &mut F,
) -> Result<bool, NoMemory>
    requires ship_in { ship < length instance.now.ships }
    requires draft { IsDraft instance.now draft.old }
    requires same { F.instance fitting.old ≡ instance.now }
    ensures draft { IsDraft instance.now draft.new }
    ensures same { F.instance fitting.new ≡ instance.now }
{
    let Some(at) = draft.find(instance, ship) else {
        return Ok(false);
    };
    let now = draft.flow();
    let Some(before) = draft.take_out(instance, ship, at) else {
        return Ok(false);
    };
    let gained = put(instance, draft, ship, now, trials, fitting)?;
    if !gained {
        draft.set_line(instance, at.chamber, before);
    }
    Ok(gained)
}

// Takes each ship out and puts it in again, where that gains; whether one gained.
#[inline(never)]
fn better<F: Fitting>(
    instance: &Instance,
    draft: &mut Draft,
    trials: &mut Vec<Trial>,
    fitting: &mut F,
) -> Result<bool, NoMemory>
    requires draft { IsDraft instance.now draft.old }
    requires same { F.instance fitting.old ≡ instance.now }
    ensures draft { IsDraft instance.now draft.new }
    ensures same { F.instance fitting.new ≡ instance.now }
{
    let mut gained = false;
    for ship in 0..instance.ships.as_slice().len() as u8 {
        gained |= better_for(instance, draft, ship, trials, fitting)?;
    }
    Ok(gained)
}

// Takes ships out and puts them in again one by one, as long as one gains.
fn better_by_ships<F: Fitting>(
    instance: &Instance,
    draft: &mut Draft,
    spare: &mut Spare,
    fitting: &mut F,
) -> Result<(), NoMemory>
    requires draft { IsDraft instance.now draft.old }
    requires same { F.instance fitting.old ≡ instance.now }
    ensures draft { IsDraft instance.now draft.new }
    ensures same { F.instance fitting.new ≡ instance.now }
{
    for _ in 0..MOST_ROUNDS {
        if !better(instance, draft, &mut spare.trials, fitting)? {
            return Ok(());
        }
    }
    Ok(())
}

// Takes stretches out and puts them in again, and then ships one by one, as long as a stretch gains.
fn better_by_stretches<F: Fitting>(
    instance: &Instance,
    draft: &mut Draft,
    spare: &mut Spare,
    fitting: &mut F,
) -> Result<(), NoMemory>
    requires draft { IsDraft instance.now draft.old }
    requires same { F.instance fitting.old ≡ instance.now }
    ensures draft { IsDraft instance.now draft.new }
    ensures same { F.instance fitting.new ≡ instance.now }
{
    for _ in 0..MOST_STRETCH_ROUNDS {
        if !better_stretches(instance, draft, spare, fitting)? {
            return Ok(());
        }
        better(instance, draft, &mut spare.trials, fitting)?;
    }
    Ok(())
}

// Whether a draft of this cost is worth stretches where less than so many minutes is asked.
fn is_near(cost: u64, below: u64) -> bool {
    cost < below.saturating_add(below / NEAR_PART)
}

/// A legal plan near loose lines that costs less than so many minutes, if one is found, in a box. Its only
/// refusal is want of memory.
pub fn near_plan<F: Fitting>(
    alloc: Global,
    instance: &Instance,
    lines: &LooseLines,
    below: u64,
    moves: Moves,
    fitting: &mut F,
) -> Result<Option<Box<Plan>>, NoMemory>
    requires same { F.instance fitting.old ≡ instance.now }
    ensures same { F.instance fitting.new ≡ instance.now }
    ensures legal { IfOk result (λ found. IfSome found (λ plan. IsLegal instance.now plan.value)) }
    ensures cheaper { IfOk result (λ found. IfSome found (λ plan. cost_of instance.now plan.value < below)) }
{
    let mut draft = Draft::new(instance);
    keep_lines(instance, &mut draft, lines, fitting)?;
    let mut spare = Spare::new(alloc);
    if !complete(instance, &mut draft, &mut spare.trials, fitting)? {
        return Ok(None);
    }
    better_by_ships(instance, &mut draft, &mut spare, fitting)?;
    match moves {
        Moves::Stretches if is_near(draft.flow(), below) => {
            better_by_stretches(instance, &mut draft, &mut spare, fitting)?
        }
        Moves::Ships | Moves::Stretches => {}
    }
    if draft.flow() >= below {
        return Ok(None);
    }
    plan_of(alloc, instance, &draft, below, fitting)
}
