//! The judge of a plan.
ghost use Rattle.std.specs.Prelude.{◌↔◌, IsNone, IfSome};
ghost use Rattle.lock_rules.specs.Plan.{IsLegal};
ghost use Rattle.mooring_rules.specs.PlanBreaks.{IsFirstBrokenPlan};

use crate::breaks::BrokenPlan;
use crate::part::{judge_lists, judge_lockages};
use crate::service::first_missing;
use lock_model::{Instance, Plan};

/// The first break of a plan: `Shape` by lockage; then `Double` and then `Missing` by ship; then
/// `Deck` by lockage; then `Clash` by lockage, the first ship and the second; then `Time` by
/// chamber. None exactly where the plan is legal. Takes no memory.
pub fn judge_plan(instance: &Instance, plan: &Plan) -> Option<BrokenPlan>
    ensures none { IsNone result ↔ IsLegal instance.now plan.now }
    ensures some { IfSome result (IsFirstBrokenPlan instance.now plan.now) }
{
    if let Some(broken) = judge_lists(instance, plan) {
        return Some(broken);
    }
    if let Some(ship) = first_missing(instance, plan) {
        return Some(BrokenPlan::Missing(ship));
    }
    judge_lockages(instance, plan)
}
