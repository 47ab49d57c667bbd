//! What is answered where bytes, an instance or a plan are refused.
ghost use Rattle.std.specs.Prelude.{◌≡◌, IfOk};
ghost use Rattle.instance_text.specs.Reading.{Defect, instance_part};
ghost use Rattle.lock_rules.specs.Unfit.{IsFirstUnfit};
ghost use Rattle.plan_text.specs.Reading.{IsPlanFault};
ghost use Rattle.run_answers.specs.Written.{bytes_in};
ghost use Rattle.replan_command.specs.Rests.{IsRefusalFor};
ghost use Rattle.replan_command.specs.Replanning.{refusal_text, AnswersReplanPlan, AnswersBehind, AnswersReplanInstance, AnswersReplan};

use command_words::ReplanOptions;
use instance_text::Bad;
use lock_model::{Instance, Plan};
use no_memory::NoMemory;
use plan_text::{BadPlan, break_text, fault_text, late_text};
use replan::ReplanError;
use run_answers::{Answer, Status, Text, defect_text, no_memory, unfit_text};
use std::alloc::Global;

/// The first defect of an instance part.
pub(crate) fn defect_answer(
    alloc: Global,
    bytes: &[u8],
    bad: Bad,
    options: &ReplanOptions,
) -> Answer
    requires { Defect (instance_part bytes.now) bad.line bad.kind }
    ensures { AnswersReplan options.now bytes.now result.status (bytes_in result.text) }
{
    match defect_text(alloc, bad) {
        Ok(text) => Answer {
            status: Status::Refused,
            text: Text::Made(text),
        },
        Err(NoMemory) => no_memory(),
    }
}

/// A ship that fits no chamber.
pub(crate) fn unfit_answer(
    alloc: Global,
    instance: &Instance,
    ship: u8,
    bytes: &[u8],
    options: &ReplanOptions,
) -> Answer
    requires { IsFirstUnfit instance.now ship }
    ensures { AnswersReplanInstance options.now instance.now bytes.now result.status (bytes_in result.text) }
{
    match unfit_text(alloc, instance, ship) {
        Ok(text) => Answer {
            status: Status::Unfit,
            text: Text::Made(text),
        },
        Err(NoMemory) => no_memory(),
    }
}

/// The first fault of a plan text.
pub(crate) fn fault_answer(
    alloc: Global,
    instance: &Instance,
    bytes: &[u8],
    bad: BadPlan,
    options: &ReplanOptions,
) -> Answer
    requires { IsPlanFault instance.now bytes.now bad.line bad.kind }
    ensures { AnswersBehind options.now instance.now bytes.now result.status (bytes_in result.text) }
{
    match fault_text(alloc, bad) {
        Ok(text) => Answer {
            status: Status::PlanRefused,
            text: Text::Made(text),
        },
        Err(NoMemory) => no_memory(),
    }
}

// Why a part can't be kept.
fn refusal_text(
    alloc: Global,
    instance: &Instance,
    plan: &Plan,
    error: ReplanError,
) -> Result<Vec<u8>, NoMemory>
    ensures { IfOk result (λ text. text.items ≡ refusal_text instance.now plan.now error) }
{
    match error {
        ReplanError::Kept(broken) => break_text(alloc, instance, plan, broken),
        ReplanError::Late(place) => late_text(alloc, place),
    }
}

/// The first break of the kept lockages, the first that ends too late, or the first late turn.
pub(crate) fn refusal_answer(
    alloc: Global,
    instance: &Instance,
    plan: &Plan,
    error: ReplanError,
    options: &ReplanOptions,
) -> Answer
    requires { IsRefusalFor instance.now plan.now options.now.rest error }
    ensures { AnswersReplanPlan options.now instance.now plan.now result.status (bytes_in result.text) }
{
    match refusal_text(alloc, instance, plan, error) {
        Ok(text) => Answer {
            status: Status::PlanRefused,
            text: Text::Made(text),
        },
        Err(NoMemory) => no_memory(),
    }
}
