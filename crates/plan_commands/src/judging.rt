//! What `judge` answers to a source.
ghost use Rattle.std.specs.Prelude.{◌≡◌, IfOk};
ghost use Rattle.lock_rules.specs.Plan.{IsLegal};
ghost use Rattle.run_answers.specs.Sources.{AnswersSource, drained, plan_limit};
ghost use Rattle.run_answers.specs.Written.{bytes_in};
ghost use Rattle.plan_commands.specs.Planned.{IsPlanned, IsLegallyPlanned};
ghost use Rattle.plan_commands.specs.Judging.{judged_text, AnswersJudge};

use crate::planned::{break_answer, read_planned};
use chamber_times::cost;
use lock_io::Source;
use lock_model::{Instance, Plan};
use mooring_rules::judge_plan;
use no_memory::NoMemory;
use plain_text::{put, put_number};
use plan_print::print_lockages;
use plan_text::neat;
use run_answers::{Answer, PLAN_LIMIT, Status, made, no_memory, read_source};
use std::alloc::Global;

// The cost of a plan, and the report of another from its second line on.
#[tactic(auto, unfolding(crate::specs::Judging::judged_text), using(lock_rules::proofs::LegalLemmas::of_legal_plans))]
fn judged_text(
    alloc: Global,
    instance: &Instance,
    plan: &Plan,
    neat: &Plan,
) -> Result<Vec<u8>, NoMemory>
    requires legal { IsLegal instance.now plan.now }
    requires neat_legal { IsLegal instance.now neat.now }
    ensures { IfOk result (λ text. text.items ≡ judged_text instance.now plan.now neat.now) }
{
    let lockages = print_lockages(alloc, instance, neat)?;
    let mut text = Vec::new(alloc);
    put(&mut text, b"legal cost ")?;
    put_number(&mut text, cost(instance, plan))?;
    put(&mut text, b"\n")?;
    put(&mut text, lockages.as_slice())?;
    Ok(text)
}

// What is said of a legal plan. Inlined, its plan made neat would be on the stack while the text is read.
#[inline(never)]
#[tactic(auto, using(crate::proofs::AnswerLemmas::neat_prints))]
fn legal_answer(alloc: Global, bytes: &[u8], instance: &Instance, plan: &Plan) -> Answer
    requires { IsLegallyPlanned bytes.now instance.now plan.now }
    ensures { AnswersJudge bytes.now result.status (bytes_in result.text) }
{
    let neat = neat(instance, plan);
    match judged_text(alloc, instance, plan, &neat) {
        Ok(text) => made(Status::Good, text),
        Err(NoMemory) => no_memory(),
    }
}

// What is said of the plan that the bytes name.
#[tactic(auto, using(crate::proofs::AnswerLemmas::judge_illegal))]
fn plan_answer(alloc: Global, bytes: &[u8], instance: &Instance, plan: &Plan) -> Answer
    requires { IsPlanned bytes.now instance.now plan.now }
    ensures { AnswersJudge bytes.now result.status (bytes_in result.text) }
{
    match judge_plan(instance, plan) {
        Some(broken) => break_answer(alloc, bytes, instance, plan, broken),
        None => legal_answer(alloc, bytes, instance, plan),
    }
}

// What is answered to the bytes of a text.
#[tactic(auto, using(crate::proofs::AnswerLemmas::judge_illegal))]
fn text_answer(alloc: Global, bytes: &[u8]) -> Answer
    ensures { AnswersJudge bytes.now result.status (bytes_in result.text) }
{
    match read_planned(alloc, bytes) {
        Ok((instance, plan)) => plan_answer(alloc, bytes, &*instance, &*plan),
        Err(answer) => answer,
    }
}

/// Reads an instance and a plan of it, at most 131,072 bytes together, to the source's end, and judges
/// the plan. Of a legal plan it answers the cost, and the report of the plan made neat from its second
/// line on. Else it says what is refused: too many bytes, the first defect of the instance part, the
/// first fault of the plan text, or the first break of the plan.
#[inline(never)]
#[tactic(auto, using(crate::proofs::AnswerLemmas::judge_fair, run_answers::proofs::SourceLemmas::bytes_answer, run_answers::proofs::SourceLemmas::unreadable_answers))]
pub fn judge_answer<S: Source>(alloc: Global, src: &mut S) -> Answer
    ensures answer { AnswersSource plan_limit AnswersJudge (drained S.left S.faults src.old src.new) result.status (bytes_in result.text) }
{
    match read_source(alloc, src, PLAN_LIMIT) {
        Ok(bytes) => text_answer(alloc, bytes.as_slice()),
        Err(answer) => answer,
    }
}
