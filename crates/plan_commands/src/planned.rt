//! Reading an instance and a plan of it.
ghost use Rattle.std.specs.Prelude.{◌≡◌, IfOk, IfErr};
ghost use Rattle.instance_text.specs.Reading.{Means, Defect, instance_part, after_instance};
ghost use Rattle.mooring_rules.specs.PlanBreaks.{IsFirstBrokenPlan};
ghost use Rattle.plan_text.specs.Reading.{IsPlanFault};
ghost use Rattle.run_answers.specs.Written.{bytes_in};
ghost use Rattle.plan_commands.specs.Planned.{IsPlanned, AnswersIllegal};

use instance_text::{Bad, split_instance};
use lock_model::{Instance, Plan};
use mooring_rules::BrokenPlan;
use no_memory::NoMemory;
use plan_text::{BadPlan, break_text, fault_text, read_plan};
use run_answers::{Answer, Status, defect_text, made, no_memory};
use std::alloc::Global;

// The first defect of the instance part.
fn defect_answer(alloc: Global, bytes: &[u8], bad: Bad) -> Answer
    requires { Defect (instance_part bytes.now) bad.line bad.kind }
    ensures { AnswersIllegal bytes.now result.status (bytes_in result.text) }
{
    match defect_text(alloc, bad) {
        Ok(text) => made(Status::Refused, text),
        Err(NoMemory) => no_memory(),
    }
}

// The first fault of the plan text.
#[tactic(auto, using(crate::proofs::AnswerLemmas::fault_refuses))]
fn fault_answer(alloc: Global, bytes: &[u8], instance: &Instance, bad: BadPlan) -> Answer
    requires means { Means (instance_part bytes.now) instance.now }
    requires fault { IsPlanFault instance.now (after_instance bytes.now) bad.line bad.kind }
    ensures { AnswersIllegal bytes.now result.status (bytes_in result.text) }
{
    match fault_text(alloc, bad) {
        Ok(text) => made(Status::PlanRefused, text),
        Err(NoMemory) => no_memory(),
    }
}

/// The first break of the plan that the bytes name.
#[tactic(auto, using(crate::proofs::AnswerLemmas::break_refuses))]
pub fn break_answer(
    alloc: Global,
    bytes: &[u8],
    instance: &Instance,
    plan: &Plan,
    broken: BrokenPlan,
) -> Answer
    requires planned { IsPlanned bytes.now instance.now plan.now }
    requires first { IsFirstBrokenPlan instance.now plan.now broken }
    ensures { AnswersIllegal bytes.now result.status (bytes_in result.text) }
{
    match break_text(alloc, instance, plan, broken) {
        Ok(text) => made(Status::PlanRefused, text),
        Err(NoMemory) => no_memory(),
    }
}

// The instance of the instance part, in a box, and the bytes after that part; or what is answered where there is
// none. Inlined, what reading needs would be on the stack of all that comes after.
#[inline(never)]
fn instance_in(alloc: Global, bytes: &[u8]) -> Result<(Box<Instance>, &[u8]), Answer>
    ensures means { IfOk result (λ r. Means (instance_part bytes.now) r.0.value) }
    ensures rest { IfOk result (λ r. r.1.now ≡ after_instance bytes.now) }
    ensures refused { IfErr result (λ answer. AnswersIllegal bytes.now answer.status (bytes_in answer.text)) }
{
    let (instance, rest) = match split_instance(bytes) {
        Ok(split) => split,
        Err(bad) => return Err(defect_answer(alloc, bytes, bad)),
    };
    match Box::new(alloc, instance) {
        Ok(instance) => Ok((instance, rest)),
        Err(_) => Err(no_memory()),
    }
}

// The plan of the bytes after an instance part, in a box, or what is answered where they name none. Inlined, what
// reading needs would be on the stack of all that comes after.
#[inline(never)]
fn plan_in(
    alloc: Global,
    bytes: &[u8],
    instance: &Instance,
    rest: &[u8],
) -> Result<Box<Plan>, Answer>
    requires means { Means (instance_part bytes.now) instance.now }
    requires rest { rest.now ≡ after_instance bytes.now }
    ensures read { IfOk result (λ plan. IsPlanned bytes.now instance.now plan.value) }
    ensures refused { IfErr result (λ answer. AnswersIllegal bytes.now answer.status (bytes_in answer.text)) }
{
    let plan = match read_plan(instance, rest) {
        Ok(plan) => plan,
        Err(bad) => return Err(fault_answer(alloc, bytes, instance, bad)),
    };
    match Box::new(alloc, plan) {
        Ok(plan) => Ok(plan),
        Err(_) => Err(no_memory()),
    }
}

/// The instance and the plan that the bytes name, or what is answered where they name none. Both come in boxes:
/// they are large, and each place that they are moved to would take as much of the stack.
pub fn read_planned(alloc: Global, bytes: &[u8]) -> Result<(Box<Instance>, Box<Plan>), Answer>
    ensures read { IfOk result (λ r. IsPlanned bytes.now r.0.value r.1.value) }
    ensures refused { IfErr result (λ answer. AnswersIllegal bytes.now answer.status (bytes_in answer.text)) }
{
    let (instance, rest) = instance_in(alloc, bytes)?;
    let plan = plan_in(alloc, bytes, &*instance, rest)?;
    Ok((instance, plan))
}
