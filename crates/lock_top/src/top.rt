//! From words, a source and a sink to a status.
ghost use Rattle.std.specs.Prelude.{map, string_bytes};
ghost use Rattle.run_answers.specs.Sources.{drained};
ghost use Rattle.lock_top.specs.Runs.{filled, run_of};
ghost use Rattle.lock_top.specs.Clauses.{KeepsItsWord};

use crate::commands::words_answer;
use gates::Gate;
use lock_io::{Sink, Source, write_all_of};
use run_answers::Status;
use std::alloc::Global;
use std::sync::Wait;
use std::thread::Threads;

/// Does what the words after the program's name ask, and writes one text.
///
/// `solve` reads an instance text and searches all its plans. With `Good` the sink got the report of
/// a plan that is cheapest over all legal plans, or with `--dossier` the dossier of such a plan and
/// of an accepted certificate; with `Open` a search ended open: the report of its best plan, which is
/// no dearer than serving each ship alone, and of its verdict, or with `--keep` the open dossier of its
/// own certificate; and the budget of nodes or the turns of the named ships
/// were spent. `check` reads a dossier; with `Good` its certificate is accepted, so its plan is cheapest
/// and has the printed cost. `lot` prints the instance that a number makes, and `trial` the first line
/// of its report; both read nothing. `judge` and `play` read an instance and a plan; with `Good` the
/// plan is legal, and its cost and report, or its day, are printed. `replan` keeps what starts before a
/// minute; with `Good` no legal plan that keeps it costs less, or with `--now` none that can still be
/// carried out at the minute. `lower` and `resume` read an open
/// dossier: no legal plan costs less than the printed low; `resume` goes on and prints as `solve`.
///
/// `written_dossiers_are_accepted` says what `check` answers to what `solve --dossier` wrote.
///
/// The other statuses come with their causes, an earlier one first: `Words` exactly where the words are
/// bad; `ReadFault` only where the source counted a fault; `Refused` exactly where there are more bytes
/// than 65,536 (131,072 for `judge`, `play` and `replan`, 2^53 for those that read a dossier), or the
/// instance text has the printed first defect; `BadDossier` exactly where the dossier has the printed
/// first fault or its certificate the printed first failure; `Unfit` exactly where the printed ship is
/// the first that fits no chamber; `PlanRefused` exactly where the plan text has the printed first
/// fault, or the plan or its kept part the printed first break; `WriteFault` only where the sink counted
/// a fault, and the sink then has a proper prefix of the text of another status. Each yields to want of
/// memory.
pub fn run<R: Threads + Wait + Sync, S: Source, K: Sink, G: Gate + Sync>(
    rt: &R,
    alloc: Global,
    words: &[String],
    src: &mut S,
    out: &mut K,
    gate: &G,
) -> Status
    ensures { KeepsItsWord (run_of (map string_bytes words.now) (drained S.left S.faults src.old src.new) (filled K.held K.faults out.old out.new) result) }
{
    let answer = words_answer(rt, alloc, words, src, gate);
    match write_all_of(out, answer.text.as_slice()) {
        Ok(()) => answer.status,
        Err(_) => Status::WriteFault,
    }
}
