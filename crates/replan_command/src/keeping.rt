//! What is answered where the kept part can be kept.
ghost use Rattle.std.specs.Prelude.{◌≡◌, ◌≢◌, Some, None, IfOk};
ghost use Rattle.lock_model.specs.declared.verdict.Verdict.TheVariants.{Optimal};
ghost use Rattle.lock_rules.specs.Unfit.{HasNoUnfit};
ghost use Rattle.book_rules.specs.Verdict.{verdict_of};
ghost use Rattle.run_answers.specs.Written.{bytes_in};
ghost use Rattle.lock_model.specs.declared.plan.Plan.{Plan as AnyPlan};
ghost use Rattle.replan_command.specs.Options.{AreReplanNumbers};
ghost use Rattle.replan_command.specs.Rests.{IsLeftFor};
ghost use Rattle.replan_command.specs.Keeping.{PrintsKeeping, PrintsRestDossier, PrintsBestKeeping};
ghost use Rattle.replan_command.specs.Searches.{IsLeftOf, HasSearched};
ghost use Rattle.replan_command.specs.Replanning.{AnswersKept};

use crate::rests::put_together;
use crate::whole::in_whole;
use book_certificate::CertError;
use book_core::{Book, Case};
use command_words::ReplanOptions;
use gates::Gate;
use lock_model::{Instance, Verdict};
use no_memory::NoMemory;
use plan_print::print_report;
use replan::{Residual, cheapest_that_can_go_on, cheapest_that_keeps};
use run_answers::{Answer, Status, Text, no_memory};
use solve_commands::{dossier_text, shown, status_of};
use solve_workers::{Solved, solve};
use std::alloc::Global;
use std::sync::Wait;
use std::thread::Threads;

// The report of the kept plan, which serves all ships.
fn all_kept_answer(
    alloc: Global,
    instance: &Instance,
    left: &Residual,
    options: &ReplanOptions,
) -> Answer
    requires left { IsLeftOf instance.now options.now.rest left.now }
    requires done { left.now.rest ≡ None }
    ensures { (given : AnyPlan) → IsLeftFor instance.now given options.now.rest left.now
        → AnswersKept (PrintsBestKeeping options.now.dossier instance.now given options.now.rest) options.now instance.now given result.status (bytes_in result.text) }
{
    match print_report(alloc, instance, &left.kept, &Verdict::Optimal) {
        Ok(text) => Answer {
            status: Status::Good,
            text: Text::Made(text),
        },
        Err(NoMemory) => no_memory(),
    }
}

// The report of the whole plan.
fn together_answer(
    alloc: Global,
    instance: &Instance,
    left: &Residual,
    book: &Book,
    options: &ReplanOptions,
) -> Answer
    requires left { IsLeftOf instance.now options.now.rest left.now }
    requires rest { left.now.rest ≡ Some book.now.case.instance }
    requires searched { HasSearched options.now book.now }
    ensures left { verdict_of book.now ≢ Optimal → result.status ≢ Status.Good }
    ensures answer { (given : AnyPlan) → IsLeftFor instance.now given options.now.rest left.now
        → AnswersKept (PrintsKeeping instance.now given options.now.rest) options.now instance.now given result.status (bytes_in result.text) }
{
    cheapest_that_keeps();
    cheapest_that_can_go_on();
    book.keeps();
    let verdict = shown(book);
    let plan = put_together(instance, left, book.best(), options.rest);
    let told = in_whole(instance, left, &plan, &verdict);
    match print_report(alloc, instance, &plan, &told) {
        Ok(text) => Answer {
            status: status_of(&verdict),
            text: Text::Made(text),
        },
        Err(NoMemory) => no_memory(),
    }
}

// The dossier of the rest, or the report of the whole plan where the search ended open.
#[tactic(auto, using(crate::proofs::AnswerLemmas::open_answers))]
fn certified_answer(
    alloc: Global,
    instance: &Instance,
    left: &Residual,
    book: &Book,
    options: &ReplanOptions,
) -> Answer
    requires left { IsLeftOf instance.now options.now.rest left.now }
    requires rest { left.now.rest ≡ Some book.now.case.instance }
    requires searched { HasSearched options.now book.now }
    ensures { (given : AnyPlan) → IsLeftFor instance.now given options.now.rest left.now
        → AnswersKept (PrintsRestDossier instance.now given options.now.rest) options.now instance.now given result.status (bytes_in result.text) }
{
    cheapest_that_keeps();
    cheapest_that_can_go_on();
    match dossier_text(alloc, book) {
        Ok(text) => Answer {
            status: Status::Good,
            text: Text::Made(text),
        },
        Err(CertError::StillOpen) => together_answer(alloc, instance, left, book, options),
        Err(CertError::NoMemory) => no_memory(),
    }
}

// What is answered at the end of a search of the rest.
#[tactic(auto, using(crate::proofs::KeepingLemmas::asked_dossier, crate::proofs::AnswerLemmas::dossier_asked, crate::proofs::AnswerLemmas::report_asked))]
fn found_answer(
    alloc: Global,
    instance: &Instance,
    left: &Residual,
    book: &Book,
    options: &ReplanOptions,
) -> Answer
    requires left { IsLeftOf instance.now options.now.rest left.now }
    requires rest { left.now.rest ≡ Some book.now.case.instance }
    requires searched { HasSearched options.now book.now }
    ensures { (given : AnyPlan) → IsLeftFor instance.now given options.now.rest left.now
        → AnswersKept (PrintsBestKeeping options.now.dossier instance.now given options.now.rest) options.now instance.now given result.status (bytes_in result.text) }
{
    if options.dossier {
        certified_answer(alloc, instance, left, book, options)
    } else {
        together_answer(alloc, instance, left, book, options)
    }
}

// Searches all plans of the rest.
fn search<R: Threads + Wait + Sync, G: Gate + Sync>(
    rt: &R,
    alloc: Global,
    rest: &Instance,
    options: &ReplanOptions,
    gate: &G,
) -> Result<Solved, NoMemory>
    requires fit { HasNoUnfit rest.now }
    requires numbers { AreReplanNumbers options.now }
    ensures rest { IfOk result (λ solved. solved.book.value.case.instance ≡ rest.now) }
    ensures searched { IfOk result (λ solved. HasSearched options.now solved.book.value) }
{
    let case = Case::new(rest.copy(), options.nodes, options.turns);
    solve(rt, alloc, &case, options.workers, gate)
}

/// What is answered where a part is kept: the report of the kept plan where it serves all ships,
/// else what a search of the rest shows.
pub(crate) fn kept_answer<R: Threads + Wait + Sync, G: Gate + Sync>(
    rt: &R,
    alloc: Global,
    instance: &Instance,
    left: &Residual,
    options: &ReplanOptions,
    gate: &G,
) -> Answer
    requires fit { HasNoUnfit instance.now }
    requires numbers { AreReplanNumbers options.now }
    requires left { IsLeftOf instance.now options.now.rest left.now }
    ensures { (given : AnyPlan) → IsLeftFor instance.now given options.now.rest left.now
        → AnswersKept (PrintsBestKeeping options.now.dossier instance.now given options.now.rest) options.now instance.now given result.status (bytes_in result.text) }
{
    let Some(rest) = left.rest.as_ref() else {
        return all_kept_answer(alloc, instance, left, options);
    };
    match search(rt, alloc, rest, options, gate) {
        Ok(solved) => found_answer(alloc, instance, left, &*solved.book, options),
        Err(NoMemory) => no_memory(),
    }
}
