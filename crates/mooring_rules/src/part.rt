//! The judge of a part of a plan.
ghost use Rattle.std.specs.Prelude.{◌<◌, ◌↔◌, ℕ, length, IsNone, IfNone, IfSome};
ghost use Rattle.std.specs.List.Sorted.{IsStrictlyIncreasing};
ghost use Rattle.lock_rules.specs.Lines.{lockage_at};
ghost use Rattle.lock_rules.specs.Plan.{IsLegalPart};
ghost use Rattle.mooring_rules.specs.PlanBreaks.{AreShaped, HasNoDouble, HasNoMissing, IsFirstBrokenPart, IsFirstBrokenPlan};

use crate::breaks::BrokenPlan;
use crate::lockages::{first_clashing, first_misplaced, first_untimely};
use crate::service::first_double;
use crate::shape::first_misshapen;
use lock_model::{Instance, Plan};

/// The first break of shapes, or else of ships that lie in several lockages.
pub(crate) fn judge_lists(instance: &Instance, plan: &Plan) -> Option<BrokenPlan>
    ensures shaped { IfNone result (AreShaped instance.now plan.now) }
    ensures rising { IfNone result ((p : ℕ) → p < length plan.now.lockages
        → IsStrictlyIncreasing (lockage_at plan.now p).ships) }
    ensures single { IfNone result (HasNoDouble instance.now plan.now) }
    ensures part { IfSome result (IsFirstBrokenPart instance.now plan.now) }
    ensures whole { IfSome result (IsFirstBrokenPlan instance.now plan.now) }
{
    if let Some(p) = first_misshapen(instance, plan) {
        return Some(BrokenPlan::Shape(p));
    }
    if let Some(ship) = first_double(instance, plan) {
        return Some(BrokenPlan::Double(ship));
    }
    None
}

/// The first break of placements, or else of cargo, or else of times.
pub(crate) fn judge_lockages(instance: &Instance, plan: &Plan) -> Option<BrokenPlan>
    requires shaped { AreShaped instance.now plan.now }
    requires rising { (p : ℕ) → p < length plan.now.lockages
        → IsStrictlyIncreasing (lockage_at plan.now p).ships }
    requires single { HasNoDouble instance.now plan.now }
    ensures none { IsNone result ↔ IsLegalPart instance.now plan.now }
    ensures part { IfSome result (IsFirstBrokenPart instance.now plan.now) }
    ensures whole { IfSome result
        (λ b. HasNoMissing instance.now plan.now → IsFirstBrokenPlan instance.now plan.now b) }
{
    if let Some((p, broken)) = first_misplaced(instance, plan) {
        return Some(BrokenPlan::Deck(p, broken));
    }
    if let Some((p, i, j)) = first_clashing(instance, plan) {
        return Some(BrokenPlan::Clash(p, i, j));
    }
    if let Some((chamber, broken)) = first_untimely(instance, plan) {
        return Some(BrokenPlan::Time(chamber, broken));
    }
    None
}

/// The first break of a part of a plan, which may lack ships, in the order of a plan's breaks. None
/// exactly where the part is legal but for these. Takes no memory.
pub fn judge_part(instance: &Instance, part: &Plan) -> Option<BrokenPlan>
    ensures none { IsNone result ↔ IsLegalPart instance.now part.now }
    ensures some { IfSome result (IsFirstBrokenPart instance.now part.now) }
{
    if let Some(broken) = judge_lists(instance, part) {
        return Some(broken);
    }
    judge_lockages(instance, part)
}
