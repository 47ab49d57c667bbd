//! The rest that is asked for: of a day that is known beforehand, or of a day as it is lived.
ghost use Rattle.std.specs.Prelude.{◌≡◌, ◌≤◌, ◌+◌, IfOk, IfErr, IsOk, ◌↔◌, IsSomeAnd, Some};
ghost use Rattle.lock_model.specs.declared.instance.Instance.{Instance as AnyInstance};
ghost use Rattle.lock_model.specs.declared.plan.Plan.{Plan as AnyPlan};
ghost use Rattle.lock_rules.specs.Plan.{IsLegal, cost_of};
ghost use Rattle.replan.specs.Together.{joined};
ghost use Rattle.replan_command.specs.Rests.{minute_of, CanKeep, IsRefusalFor, IsLeftFor, GoesOnFrom};
ghost use Rattle.replan_command.specs.Searches.{IsLeftOf};

use command_words::DayRest;
use lock_model::{Instance, Plan};
use replan::{ReplanError, Residual, put_together_as_lived, residual, rest_as_lived};

/// What is left of the instance once a part of the plan is kept, or why it can't be kept.
pub(crate) fn left_of(
    instance: &Instance,
    plan: &Plan,
    rest: DayRest,
) -> Result<Residual, ReplanError>
    requires { minute_of rest ≤ 1000000 }
    ensures can { IsOk result ↔ CanKeep instance.now plan.now rest }
    ensures ok { IfOk result (IsLeftFor instance.now plan.now rest) }
    ensures err { IfErr result (IsRefusalFor instance.now plan.now rest) }
{
    match rest {
        DayRest::Known(minute) => residual(instance, plan, minute),
        DayRest::Lived(minute) => rest_as_lived(instance, plan, minute),
    }
}

/// A legal plan of the rest, put together with the kept plan.
pub(crate) fn put_together(
    instance: &Instance,
    left: &Residual,
    found: &Plan,
    rest: DayRest,
) -> Plan
    requires left { IsLeftOf instance.now rest left.now }
    requires legal { IsSomeAnd left.now.rest (λ rest. IsLegal rest found.now) }
    ensures legal { IsLegal instance.now result }
    ensures goes_on { (given : AnyPlan) → IsLeftFor instance.now given rest left.now → GoesOnFrom instance.now given rest result }
    ensures cost { (rest : AnyInstance) → left.now.rest ≡ Some rest
        → cost_of instance.now result ≡ cost_of rest found.now + left.now.added }
    ensures value { result ≡ joined left.now.kept left.now.numbers found.now }
{
    match rest {
        DayRest::Known(_) => replan::put_together(instance, left, found),
        DayRest::Lived(_) => put_together_as_lived(instance, left, found),
    }
}
