//! What `replan` answers to a source.
ghost use Rattle.lock_rules.specs.Unfit.{HasNoUnfit};
ghost use Rattle.run_answers.specs.Sources.{AnswersSource, drained, plan_limit};
ghost use Rattle.run_answers.specs.Written.{bytes_in};
ghost use Rattle.replan_command.specs.Options.{AreReplanNumbers};
ghost use Rattle.replan_command.specs.Replanning.{AnswersReplanPlan, AnswersBehind, AnswersReplanInstance, AnswersReplan};

use crate::keeping::kept_answer;
use crate::refusals::{defect_answer, fault_answer, refusal_answer, unfit_answer};
use crate::rests::left_of;
use command_words::ReplanOptions;
use gates::Gate;
use instance_text::split_instance;
use lock_io::Source;
use lock_model::{Instance, Plan};
use mooring_rules::first_unfit;
use plan_text::read_plan;
use run_answers::{Answer, PLAN_LIMIT, read_source};
use std::alloc::Global;
use std::sync::Wait;
use std::thread::Threads;

// What is answered to a plan of the instance.
#[tactic(auto, using(crate::proofs::AnswerLemmas::kept_answers, crate::proofs::KeepingLemmas::left_is))]
fn plan_answer<R: Threads + Wait + Sync, G: Gate + Sync>(
    rt: &R,
    alloc: Global,
    instance: &Instance,
    plan: &Plan,
    options: &ReplanOptions,
    gate: &G,
) -> Answer
    requires fit { HasNoUnfit instance.now }
    requires numbers { AreReplanNumbers options.now }
    ensures { AnswersReplanPlan options.now instance.now plan.now result.status (bytes_in result.text) }
{
    match left_of(instance, plan, options.rest) {
        Ok(left) => kept_answer(rt, alloc, instance, &left, options, gate),
        Err(error) => refusal_answer(alloc, instance, plan, error, options),
    }
}

// What is answered to the bytes behind an instance whose ships each fit some chamber.
#[tactic(auto, using(crate::proofs::AnswerLemmas::plan_answers))]
fn behind_answer<R: Threads + Wait + Sync, G: Gate + Sync>(
    rt: &R,
    alloc: Global,
    instance: &Instance,
    bytes: &[u8],
    options: &ReplanOptions,
    gate: &G,
) -> Answer
    requires fit { HasNoUnfit instance.now }
    requires numbers { AreReplanNumbers options.now }
    ensures { AnswersBehind options.now instance.now bytes.now result.status (bytes_in result.text) }
{
    match read_plan(instance, bytes) {
        Ok(plan) => plan_answer(rt, alloc, instance, &plan, options, gate),
        Err(bad) => fault_answer(alloc, instance, bytes, bad, options),
    }
}

// What is answered to an instance and the bytes behind it.
#[tactic(auto, using(crate::proofs::AnswerLemmas::behind_answers))]
fn instance_answer<R: Threads + Wait + Sync, G: Gate + Sync>(
    rt: &R,
    alloc: Global,
    instance: &Instance,
    bytes: &[u8],
    options: &ReplanOptions,
    gate: &G,
) -> Answer
    requires { AreReplanNumbers options.now }
    ensures { AnswersReplanInstance options.now instance.now bytes.now result.status (bytes_in result.text) }
{
    match first_unfit(instance) {
        Some(ship) => unfit_answer(alloc, instance, ship, bytes, options),
        None => behind_answer(rt, alloc, instance, bytes, options, gate),
    }
}

// What is answered to the bytes of a text.
#[tactic(auto, using(crate::proofs::AnswerLemmas::answers_meant))]
fn text_answer<R: Threads + Wait + Sync, G: Gate + Sync>(
    rt: &R,
    alloc: Global,
    bytes: &[u8],
    options: &ReplanOptions,
    gate: &G,
) -> Answer
    requires { AreReplanNumbers options.now }
    ensures { AnswersReplan options.now bytes.now result.status (bytes_in result.text) }
{
    match split_instance(bytes) {
        Ok((instance, behind)) => instance_answer(rt, alloc, &instance, behind, options, gate),
        Err(bad) => defect_answer(alloc, bytes, bad, options),
    }
}

/// Reads an instance text and a plan text behind it, of at most 131,072 bytes together, to their end.
/// Keeps the lockages of the plan that start before the minute that is asked for, of a day as it is
/// lived also the empty turns that have begun; searches all plans of the rest, and answers with the
/// report of a plan that is cheapest of those that go on from what is kept, or with the dossier of the rest where one is asked for; where the search ends open, with the
/// report of the whole plan and its cause. Where no ship is left it answers with the report of the
/// kept plan.
///
/// Or says what is refused, the earlier cause first: too many bytes, a defect of the instance, a ship
/// that fits no chamber, a fault of the plan text, a break of the kept lockages, or a kept lockage
/// or a begun turn that ends after minute 1,000,000. The numbers of the options are in their ranges.
#[inline(never)]
#[tactic(auto, using(crate::proofs::AnswerLemmas::replan_fair, run_answers::proofs::SourceLemmas::bytes_answer, run_answers::proofs::SourceLemmas::unreadable_answers))]
pub fn replan_answer<R: Threads + Wait + Sync, S: Source, G: Gate + Sync>(
    rt: &R,
    alloc: Global,
    options: &ReplanOptions,
    src: &mut S,
    gate: &G,
) -> Answer
    requires { AreReplanNumbers options.now }
    ensures answer { AnswersSource plan_limit (AnswersReplan options.now) (drained S.left S.faults src.old src.new) result.status (bytes_in result.text) }
{
    match read_source(alloc, src, PLAN_LIMIT) {
        Ok(bytes) => text_answer(rt, alloc, bytes.as_slice(), options, gate),
        Err(answer) => answer,
    }
}
