//! From words to the answer of the command that they mean. No answer is inlined here, since the frames of
//! all commands would be added up.
ghost use Rattle.std.specs.Prelude.{◌≡◌, map, string_bytes};
ghost use Rattle.run_answers.specs.Sources.{drained};
ghost use Rattle.run_answers.specs.Texts.{bad_words_text};
ghost use Rattle.run_answers.specs.Written.{bytes_in};
ghost use Rattle.lock_top.specs.Answers.{RunAnswers, AnswersCommand};
ghost use Rattle.lock_top.specs.Asked.{HasNumbers};

use command_words::{Command, WordsError, read_words};
use dossier_commands::{check_answer, lower_answer};
use gates::Gate;
use lock_io::Source;
use plan_commands::{judge_answer, play_answer};
use replan_command::replan_answer;
use resume_command::resume_answer;
use run_answers::{Answer, Status, fixed, no_memory};
use solve_commands::{lot_answer, solve_answer, trial_answer};
use std::alloc::Global;
use std::sync::Wait;
use std::thread::Threads;

// What is answered to a command.
fn command_answer<R: Threads + Wait + Sync, S: Source, G: Gate + Sync>(
    rt: &R,
    alloc: Global,
    command: &Command,
    src: &mut S,
    gate: &G,
) -> Answer
    requires { HasNumbers command.now }
    ensures answer { AnswersCommand command.now (drained S.left S.faults src.old src.new) result.status (bytes_in result.text) }
{
    match command {
        Command::Solve(options) => solve_answer(rt, alloc, options, src, gate),
        Command::Check => check_answer(alloc, src),
        Command::Lot(options) => lot_answer(alloc, options),
        Command::Trial(options) => trial_answer(rt, alloc, options, gate),
        Command::Judge => judge_answer(alloc, src),
        Command::Play => play_answer(alloc, src),
        Command::Replan(options) => replan_answer(rt, alloc, options, src, gate),
        Command::Lower => lower_answer(alloc, src),
        Command::Resume(options) => resume_answer(rt, alloc, options, src, gate),
    }
}

// That the words are bad.
fn refusal() -> Answer
    ensures status { result.status ≡ Status.Words }
    ensures text { bytes_in result.text ≡ bad_words_text }
{
    fixed(Status::Words, b"bad words\n")
}

/// Does what the words ask.
#[tactic(auto, using(crate::proofs::AskedLemmas::has_numbers))]
pub(crate) fn words_answer<R: Threads + Wait + Sync, S: Source, G: Gate + Sync>(
    rt: &R,
    alloc: Global,
    words: &[String],
    src: &mut S,
    gate: &G,
) -> Answer
    ensures answer { RunAnswers (map string_bytes words.now) (drained S.left S.faults src.old src.new) result.status (bytes_in result.text) }
{
    match read_words(alloc, words) {
        Ok(command) => command_answer(rt, alloc, &command, src, gate),
        Err(WordsError::Bad) => refusal(),
        Err(WordsError::NoMemory) => no_memory(),
    }
}
