//! What `solve` answers to a source.
ghost use Rattle.std.specs.Prelude.{◌≡◌};
ghost use Rattle.lock_rules.specs.Unfit.{HasNoUnfit, IsFirstUnfit};
ghost use Rattle.instance_text.specs.Reading.{Defect};
ghost use Rattle.run_answers.specs.Sources.{AnswersSource, drained};
ghost use Rattle.run_answers.specs.Written.{bytes_in};
ghost use Rattle.solve_commands.specs.Options.{AreSolveNumbers};
ghost use Rattle.solve_commands.specs.Keeping.{AnswersOptions};
ghost use Rattle.solve_commands.specs.Solving.{solve_limit, search_of, AnswersInstance, AnswersSolve};

use crate::searching::search_best;
use book_core::Case;
use command_words::SolveOptions;
use gates::Gate;
use instance_text::{Bad, read_instance};
use lock_io::Source;
use lock_model::Instance;
use mooring_rules::first_unfit;
use no_memory::NoMemory;
use run_answers::{Answer, Status, Text, defect_text, no_memory, read_source, unfit_text};
use std::alloc::Global;
use std::sync::Wait;
use std::thread::Threads;

// The most bytes that are read.
const LIMIT: u64 = 65_536;

// A ship that fits no chamber.
fn unfit_answer(alloc: Global, instance: &Instance, ship: u8, options: &SolveOptions) -> Answer
    requires { IsFirstUnfit instance.now ship }
    ensures { AnswersInstance options.now instance.now result.status (bytes_in result.text) }
{
    match unfit_text(alloc, instance, ship) {
        Ok(text) => Answer {
            status: Status::Unfit,
            text: Text::Made(text),
        },
        Err(NoMemory) => no_memory(),
    }
}

// What a search of the instance shows.
fn fit_answer<R: Threads + Wait + Sync, G: Gate + Sync>(
    rt: &R,
    alloc: Global,
    instance: Instance,
    options: &SolveOptions,
    gate: &G,
) -> Answer
    requires fit { HasNoUnfit instance }
    requires numbers { AreSolveNumbers options.now }
    ensures { AnswersOptions options.now (search_of options.now.nodes options.now.turns instance) result.status (bytes_in result.text) }
{
    let case = Case::new(instance, options.nodes, options.turns);
    search_best(rt, alloc, &case, options, gate)
}

// What is answered to an instance.
#[tactic(auto, using(crate::proofs::SolveLemmas::search_answers))]
fn instance_answer<R: Threads + Wait + Sync, G: Gate + Sync>(
    rt: &R,
    alloc: Global,
    instance: Instance,
    options: &SolveOptions,
    gate: &G,
) -> Answer
    requires { AreSolveNumbers options.now }
    ensures { AnswersInstance options.now instance result.status (bytes_in result.text) }
{
    match first_unfit(&instance) {
        Some(ship) => unfit_answer(alloc, &instance, ship, options),
        None => fit_answer(rt, alloc, instance, options, gate),
    }
}

// The first defect of a text.
fn defect_answer(alloc: Global, bytes: &[u8], bad: Bad, options: &SolveOptions) -> Answer
    requires { Defect bytes.now bad.line bad.kind }
    ensures { AnswersSolve options.now bytes.now result.status (bytes_in result.text) }
{
    match defect_text(alloc, bad) {
        Ok(text) => Answer {
            status: Status::Refused,
            text: Text::Made(text),
        },
        Err(NoMemory) => no_memory(),
    }
}

// What is answered to the bytes of a text.
#[tactic(auto, using(crate::proofs::SolveLemmas::answers_meant))]
fn text_answer<R: Threads + Wait + Sync, G: Gate + Sync>(
    rt: &R,
    alloc: Global,
    bytes: &[u8],
    options: &SolveOptions,
    gate: &G,
) -> Answer
    requires { AreSolveNumbers options.now }
    ensures { AnswersSolve options.now bytes.now result.status (bytes_in result.text) }
{
    match read_instance(bytes) {
        Ok(instance) => instance_answer(rt, alloc, instance, options, gate),
        Err(bad) => defect_answer(alloc, bytes, bad, options),
    }
}

/// Reads an instance text of at most 65,536 bytes to its end, searches all plans of the instance, and
/// answers with the report of the best one, with its dossier where it is cheapest and one is asked
/// for, or with its open dossier where it is left open and one is to be kept; or says what is refused: too many bytes, a defect, or a ship that fits no chamber. The numbers
/// of the options are in their ranges.
#[inline(never)]
#[tactic(auto, using(crate::proofs::SolveLemmas::solve_fair, run_answers::proofs::SourceLemmas::bytes_answer, run_answers::proofs::SourceLemmas::unreadable_answers))]
pub fn solve_answer<R: Threads + Wait + Sync, S: Source, G: Gate + Sync>(
    rt: &R,
    alloc: Global,
    options: &SolveOptions,
    src: &mut S,
    gate: &G,
) -> Answer
    requires { AreSolveNumbers options.now }
    ensures answer { AnswersSource solve_limit (AnswersSolve options.now) (drained S.left S.faults src.old src.new) result.status (bytes_in result.text) }
{
    match read_source(alloc, src, LIMIT) {
        Ok(bytes) => text_answer(rt, alloc, bytes.as_slice(), options, gate),
        Err(answer) => answer,
    }
}
