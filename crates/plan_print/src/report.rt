//! The report of a plan, whole and in its two parts.
ghost use Rattle.std.specs.Prelude.{◌≡◌, ◌<◌, ◌≤◌, ◌++◌, All, OnOk, IfOk};
ghost use Rattle.lock_model.specs.Fitting.{deck_of};
ghost use Rattle.lock_rules.specs.Plan.{IsLegal};
ghost use Rattle.plan_print.specs.Drawing.{IsDrawnAlone};
ghost use Rattle.plan_print.specs.Report.{IsOfInstance, verdict_line, lockages_text, report};

use crate::lockage::put_lockage;
use crate::order::order_of;
use crate::verdict::put_verdict_line;
use lock_model::{Instance, Plan, Verdict};
use no_memory::NoMemory;
use plain_text::put;
use std::alloc::Global;

/// Appends what follows the first line of a report.
#[tactic(auto, unfolding(crate::specs::Report::lockages_text))]
fn put_lockages(out: &mut Vec<u8>, instance: &Instance, plan: &Plan) -> Result<(), NoMemory>
    requires { IsLegal instance.now plan.now }
    ensures { OnOk result (out.new.items ≡ out.old.items ++ lockages_text instance.now plan.now) }
{
    let lockages = plan.lockages.as_slice();
    let order = order_of(lockages);
    for (k, &place) in order.as_slice().iter().enumerate() {
        put_lockage(out, instance, k as u64 + 1, &lockages[place as usize])?;
    }
    put(out, b"end\n")
}

/// The report of a legal plan: what was shown of it and its cost, then the lockages by start (equal
/// starts by chamber number) with their ships and a drawing of the chamber, and the line `end`.
///
/// The chamber and the ships that the verdict names are in the instance. In each drawing at most
/// one ship covers a point. The only refusal is want of memory.
#[tactic(auto, unfolding(crate::specs::Report::report))]
pub fn print_report(
    alloc: Global,
    instance: &Instance,
    plan: &Plan,
    verdict: &Verdict,
) -> Result<Vec<u8>, NoMemory>
    requires legal { IsLegal instance.now plan.now }
    requires known { IsOfInstance instance.now verdict.now }
    ensures text { IfOk result (λ text. text.items ≡ report instance.now plan.now verdict.now) }
    ensures alone { All (λ l. IsDrawnAlone (deck_of instance.now l.chamber l.ships).ships l.spots) plan.now.lockages }
{
    let mut report = Vec::new(alloc);
    put_verdict_line(&mut report, instance, plan, verdict)?;
    put_lockages(&mut report, instance, plan)?;
    Ok(report)
}

/// The first line of the report of a legal plan alone. The chamber and the ships that the verdict
/// names are in the instance. The only refusal is want of memory.
pub fn print_verdict_line(
    alloc: Global,
    instance: &Instance,
    plan: &Plan,
    verdict: &Verdict,
) -> Result<Vec<u8>, NoMemory>
    requires legal { IsLegal instance.now plan.now }
    requires known { IsOfInstance instance.now verdict.now }
    ensures { IfOk result (λ text. text.items ≡ verdict_line instance.now plan.now verdict.now) }
{
    let mut line = Vec::new(alloc);
    put_verdict_line(&mut line, instance, plan, verdict)?;
    Ok(line)
}

/// The report of a legal plan from its second line on. The only refusal is want of memory.
pub fn print_lockages(alloc: Global, instance: &Instance, plan: &Plan) -> Result<Vec<u8>, NoMemory>
    requires { IsLegal instance.now plan.now }
    ensures { IfOk result (λ text. text.items ≡ lockages_text instance.now plan.now) }
{
    let mut text = Vec::new(alloc);
    put_lockages(&mut text, instance, plan)?;
    Ok(text)
}
