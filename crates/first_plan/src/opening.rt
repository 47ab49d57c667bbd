//! The singles plan, and the opening plan.
ghost use Rattle.std.specs.Prelude.{◌≡◌, ◌≤◌, IfOk, IfErr, OnOk};
ghost use Rattle.lock_rules.specs.Plan.{IsLegal};
ghost use Rattle.lock_rules.specs.Singles.{singles_plan, singles_of};
ghost use Rattle.lock_rules.specs.Unfit.{HasNoUnfit};
ghost use Rattle.first_plan.specs.Merging.{IsAtMost, IsRefusal};

use crate::merging::merged;
use crate::singles::singles_in;
use lock_model::{Instance, Plan};
use master_branch::arrival_order;
use mooring_rules::first_unfit;
use no_memory::NoMemory;
use std::alloc::Global;

/// Why there is no opening plan.
#[derive(Clone, Copy)]
pub enum FirstError {
    /// This ship is the first that fits no chamber.
    Unfit(u8),
    /// There was no memory.
    NoMemory,
}

/// The plan that serves each ship alone: in arrival order, each is appended to the line of the
/// chamber that it fits alone with the earliest end, the lower chamber on a tie, and lies at the
/// near end of the left quay. Each ship fits some chamber alone. The plan is legal. Takes no memory.
pub fn singles_plan(instance: &Instance) -> Plan
    requires { HasNoUnfit instance.now }
    ensures plan { result ≡ singles_plan instance.now }
    ensures legal { IsLegal instance.now result }
{
    let order = arrival_order(instance);
    Plan {
        lockages: singles_in(instance, order.as_slice()),
    }
}

/// The opening plan: the singles plan, whose lockages of one chamber are merged, two at a time,
/// where no two of their ships clash, a placer fits them within so many turns, at least 1, and the cost
/// falls: the placer by cases and relations in at most 50 turns, else the one by berths in at most 500.
/// It is legal, and costs at most what the singles plan costs. `Unfit` comes exactly where a ship fits
/// no chamber, and names the first.
pub fn first_plan(alloc: Global, instance: &Instance, turns: u32) -> Result<Plan, FirstError>
    requires { 1 ≤ turns }
    ensures plan { IfOk result (IsAtMost instance.now (singles_of instance.now)) }
    ensures fit { OnOk result (HasNoUnfit instance.now) }
    ensures refused { IfErr result (IsRefusal instance.now) }
{
    match first_unfit(instance) {
        Some(ship) => Err(FirstError::Unfit(ship)),
        None => match merged(alloc, instance, singles_plan(instance), turns) {
            Ok(plan) => Ok(plan),
            Err(NoMemory) => Err(FirstError::NoMemory),
        },
    }
}
