//! What `play` answers to a source.
ghost use Rattle.std.specs.Prelude.{◌≡◌};
ghost use Rattle.day_play.specs.Lawful.{IsLawfulDay};
ghost use Rattle.day_play.specs.Playing.{day_of};
ghost use Rattle.run_answers.specs.Sources.{AnswersSource, drained, plan_limit};
ghost use Rattle.run_answers.specs.Written.{bytes_in};
ghost use Rattle.plan_commands.specs.Planned.{IsPlanned, IsLegallyPlanned};
ghost use Rattle.plan_commands.specs.Playing.{AnswersPlay};

use crate::day_text::day_text;
use crate::planned::{break_answer, read_planned};
use day_play::{Day, Played, play};
use lock_io::Source;
use lock_model::{Instance, Plan};
use no_memory::NoMemory;
use run_answers::{Answer, PLAN_LIMIT, Status, made, no_memory, read_source};
use std::alloc::Global;

// The day of a legal plan.
#[tactic(auto, using(crate::proofs::BeatLemmas::day_known, crate::proofs::BeatLemmas::day_prints))]
fn day_answer(alloc: Global, bytes: &[u8], instance: &Instance, plan: &Plan, day: &Day) -> Answer
    requires planned { IsLegallyPlanned bytes.now instance.now plan.now }
    requires lawful { IsLawfulDay instance.now plan.now day.now }
    requires played { day.now ≡ day_of instance.now plan.now }
    ensures { AnswersPlay bytes.now result.status (bytes_in result.text) }
{
    match day_text(alloc, instance, plan, day) {
        Ok(text) => made(Status::Good, text),
        Err(NoMemory) => no_memory(),
    }
}

// What comes of playing the plan that the bytes name. Inlined, its day would be on the stack while the text
// is read.
#[inline(never)]
#[tactic(auto, using(crate::proofs::AnswerLemmas::play_illegal))]
fn plan_answer(alloc: Global, bytes: &[u8], instance: &Instance, plan: &Plan) -> Answer
    requires { IsPlanned bytes.now instance.now plan.now }
    ensures { AnswersPlay bytes.now result.status (bytes_in result.text) }
{
    match play(instance, plan) {
        Played::Day(day) => day_answer(alloc, bytes, instance, plan, &day),
        Played::Stuck(broken) => break_answer(alloc, bytes, instance, plan, broken),
    }
}

// What is answered to the bytes of a text.
#[tactic(auto, using(crate::proofs::AnswerLemmas::play_illegal))]
fn text_answer(alloc: Global, bytes: &[u8]) -> Answer
    ensures { AnswersPlay bytes.now result.status (bytes_in result.text) }
{
    match read_planned(alloc, bytes) {
        Ok((instance, plan)) => plan_answer(alloc, bytes, &*instance, &*plan),
        Err(answer) => answer,
    }
}

/// Reads an instance and a plan of it, at most 131,072 bytes together, to the source's end, and plays
/// the plan. Of a legal plan it answers the lines of its day. Else it says what is refused, as
/// `judge_answer` does.
#[inline(never)]
#[tactic(auto, using(crate::proofs::AnswerLemmas::play_fair, run_answers::proofs::SourceLemmas::bytes_answer, run_answers::proofs::SourceLemmas::unreadable_answers))]
pub fn play_answer<S: Source>(alloc: Global, src: &mut S) -> Answer
    ensures answer { AnswersSource plan_limit AnswersPlay (drained S.left S.faults src.old src.new) result.status (bytes_in result.text) }
{
    match read_source(alloc, src, PLAN_LIMIT) {
        Ok(bytes) => text_answer(alloc, bytes.as_slice()),
        Err(answer) => answer,
    }
}
