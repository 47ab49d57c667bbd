//! The plan of a draft.
ghost use Rattle.std.specs.Prelude.{◌≡◌, ◌<◌, ◌≤◌, ◌↔◌, length, IfOk, IfSome, IsTrue};
ghost use Rattle.lock_rules.specs.Plan.{IsLegal, cost_of};

use crate::draft::Draft;
use crate::fitting::{Fitting, fits};
use crate::known::are_all_known;
use chamber_times::{cost, earliest};
use lock_model::{Group, Instance, Lockage, Lockages, Plan, SHIPS};
use mooring_rules::judge_plan;
use no_memory::NoMemory;
use std::alloc::Global;

// Appends the lockages of a line at the earliest; false where a group has no spots.
fn add_line<F: Fitting>(
    instance: &Instance,
    chamber: u8,
    groups: &[Group],
    lockages: &mut Lockages,
    fitting: &mut F,
) -> Result<bool, NoMemory>
    requires same { F.instance fitting.old ≡ instance.now }
    requires chamber_in { chamber < length instance.now.chambers }
    requires few { length groups.now ≤ SHIPS }
    ensures same { F.instance fitting.new ≡ instance.now }
{
    if !are_all_known(instance, chamber, groups) {
        return Ok(false);
    }
    let times = earliest(instance, chamber, groups);
    for (place, group) in groups.iter().enumerate() {
        let spots = fits(instance, chamber, &group.ships, fitting)?;
        let (start, _) = times.as_slice()[place];
        match spots {
            Some(spots) if lockages.as_slice().len() < SHIPS => lockages.push(Lockage {
                chamber,
                way: group.way,
                ships: group.ships.copy(),
                start: start as u32,
                spots,
            }),
            _ => return Ok(false),
        }
    }
    Ok(true)
}

// Whether a legal plan costs less than so many minutes.
fn costs_less(instance: &Instance, plan: &Plan, below: u64) -> bool
    requires { IsLegal instance.now plan.now }
    ensures { IsTrue result ↔ (cost_of instance.now plan.now < below) }
{
    cost(instance, plan) < below
}

// The plan, if it is legal and costs less than so many minutes.
fn cheaper(
    alloc: Global,
    instance: &Instance,
    plan: Plan,
    below: u64,
) -> Result<Option<Box<Plan>>, NoMemory>
    ensures legal { IfOk result (λ found. IfSome found (λ plan. IsLegal instance.now plan.value)) }
    ensures cheaper { IfOk result (λ found. IfSome found (λ plan. cost_of instance.now plan.value < below)) }
{
    if judge_plan(instance, &plan).is_some() || !costs_less(instance, &plan, below) {
        return Ok(None);
    }
    match Box::new(alloc, plan) {
        Ok(plan) => Ok(Some(plan)),
        Err(_) => Err(NoMemory),
    }
}

/// The plan of a draft at the earliest, if it is legal and costs less than so many minutes.
#[inline(never)]
pub(crate) fn plan_of<F: Fitting>(
    alloc: Global,
    instance: &Instance,
    draft: &Draft,
    below: u64,
    fitting: &mut F,
) -> Result<Option<Box<Plan>>, NoMemory>
    requires same { F.instance fitting.old ≡ instance.now }
    ensures same { F.instance fitting.new ≡ instance.now }
    ensures legal { IfOk result (λ found. IfSome found (λ plan. IsLegal instance.now plan.value)) }
    ensures cheaper { IfOk result (λ found. IfSome found (λ plan. cost_of instance.now plan.value < below)) }
{
    let mut lockages = Lockages::new();
    for chamber in 0..instance.chambers.as_slice().len() as u8 {
        let groups = draft.row(chamber).line().as_slice();
        if !add_line(instance, chamber, groups, &mut lockages, fitting)? {
            return Ok(None);
        }
    }
    cheaper(alloc, instance, Plan { lockages }, below)
}
