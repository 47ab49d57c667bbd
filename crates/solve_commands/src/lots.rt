//! What `lot` and `trial` answer.
ghost use Rattle.std.specs.Prelude.{◌≡◌};
ghost use Rattle.lock_rules.specs.Unfit.{HasNoUnfit};
ghost use Rattle.solve_commands.specs.Options.{AreLotNumbers, AreTrialNumbers};
ghost use Rattle.solve_commands.specs.Lots.{IsLot, AnswersLot, AnswersTrial};
ghost use Rattle.run_answers.specs.Written.{bytes_in};

use crate::searching::search_line;
use book_core::Case;
use command_words::{LotOptions, TrialOptions};
use gates::Gate;
use instance_text::{make_lot, print_instance};
use lock_model::Instance;
use no_memory::NoMemory;
use run_answers::{Answer, Status, Text, no_memory};
use std::alloc::Global;
use std::sync::Wait;
use std::thread::Threads;

// The lot that is asked for.
fn lot_of(options: &LotOptions) -> Instance
    requires { AreLotNumbers options.now }
    ensures lot { IsLot options.now.number options.now.ships options.now.chambers result }
    ensures fit { HasNoUnfit result }
{
    make_lot(options.number, options.ships, options.chambers)
}

/// Prints the canonical text of the lot that is asked for. The numbers of the options are in their
/// ranges.
#[inline(never)]
pub fn lot_answer(alloc: Global, options: &LotOptions) -> Answer
    requires { AreLotNumbers options.now }
    ensures { AnswersLot options.now result.status (bytes_in result.text) }
{
    let instance = lot_of(options);
    match print_instance(alloc, &instance) {
        Ok(text) => Answer {
            status: Status::Good,
            text: Text::Made(text),
        },
        Err(NoMemory) => no_memory(),
    }
}

/// Searches all plans of the lot that is asked for with one worker, and answers with the first line
/// of the report of the best one. The numbers of the options are in their ranges.
#[inline(never)]
pub fn trial_answer<R: Threads + Wait + Sync, G: Gate + Sync>(
    rt: &R,
    alloc: Global,
    options: &TrialOptions,
    gate: &G,
) -> Answer
    requires { AreTrialNumbers options.now }
    ensures { AnswersTrial options.now result.status (bytes_in result.text) }
{
    let case = Case::new(lot_of(&options.lot), options.nodes, options.turns);
    search_line(rt, alloc, &case, gate)
}
