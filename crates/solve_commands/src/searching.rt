//! What is answered at the end of a search.
ghost use Rattle.std.specs.Prelude.{◌≡◌, ◌≢◌, ◌↔◌, IsTrue, ℕ, IfOk, IfErr};
ghost use Rattle.lock_model.specs.declared.verdict.Verdict.TheVariants.{Optimal};
ghost use Rattle.certificate_rules.specs.Certificates.{Accepts};
ghost use Rattle.book_rules.specs.Ends.{EndsWell, IsEnd};
ghost use Rattle.book_rules.specs.Verdict.{verdict_of};
ghost use Rattle.certificate_rules.specs.WellFormed.{IsWellFormed};
ghost use Rattle.plan_print.specs.Report.{IsOfInstance, report, verdict_line};
ghost use Rattle.solve_commands.specs.Options.{AreSolveNumbers};
ghost use Rattle.solve_commands.specs.Searching.{PrintsDossier, PrintsBest, NoBest, NoLeft, AnswersSearch, AnswersPrinted, search_in, status_of};
ghost use Rattle.solve_commands.specs.Keeping.{PrintsLeft, AnswersOptions};
ghost use Rattle.solve_commands.specs.Solving.{search_of};
ghost use Rattle.run_answers.specs.Written.{bytes_in};

use crate::keeping::kept_answer;
use book_certificate::{CertError, certificate_of};
use book_core::{Book, Case};
use cert_text::{Form, print_dossier};
use certificate_parts::Certificate;
use command_words::SolveOptions;
use gates::Gate;
use lock_model::Verdict;
use no_memory::NoMemory;
use plan_print::{print_report, print_verdict_line};
use run_answers::{Answer, Status, Text, no_memory};
use solve_workers::solve;
use std::alloc::Global;
use std::sync::Wait;
use std::thread::Threads;

/// What the book of a search that ended well shows of its best plan.
pub fn shown(book: &Book) -> Verdict
    ghost limit: { ℕ }
    requires { EndsWell limit book.now }
    ensures verdict { result ≡ verdict_of book.now }
    ensures end { IsEnd book.now.case.instance book.now.case.nodes book.now.case.turns limit book.now.best result }
    ensures known { IsOfInstance book.now.case.instance result }
{
    book.keeps();
    book.verdict()
}

/// The status of a run that ends with this verdict.
pub fn status_of(verdict: &Verdict) -> Status
    ensures { result ≡ status_of verdict.now }
{
    match verdict {
        Verdict::Optimal => Status::Good,
        Verdict::OpenNodes { .. } | Verdict::OpenTurns { .. } => Status::Open,
    }
}

/// The report of the best plan of a search that ended well.
#[tactic(auto, using(crate::proofs::EndLemmas::book_answers))]
pub fn report_answer(alloc: Global, book: &Book) -> Answer
    ghost limit: { ℕ }
    requires { EndsWell limit book.now }
    ensures best { verdict_of book.now ≡ Optimal → result.status ≢ Status.Open }
    ensures left { verdict_of book.now ≢ Optimal → result.status ≢ Status.Good }
    ensures answer { AnswersPrinted report (search_in book.now limit) result.status (bytes_in result.text) }
{
    book.keeps();
    let verdict = shown(book);
    match print_report(alloc, &book.case().instance, book.best(), &verdict) {
        Ok(text) => Answer {
            status: status_of(&verdict),
            text: Text::Made(text),
        },
        Err(NoMemory) => no_memory(),
    }
}

// The first line of that report.
#[tactic(auto, using(crate::proofs::EndLemmas::book_answers))]
fn line_answer(alloc: Global, book: &Book) -> Answer
    ghost limit: { ℕ }
    requires { EndsWell limit book.now }
    ensures { AnswersPrinted verdict_line (search_in book.now limit) result.status (bytes_in result.text) }
{
    book.keeps();
    let verdict = shown(book);
    match print_verdict_line(alloc, &book.case().instance, book.best(), &verdict) {
        Ok(text) => Answer {
            status: status_of(&verdict),
            text: Text::Made(text),
        },
        Err(NoMemory) => no_memory(),
    }
}

// The dossier of an accepted certificate of a search.
fn printed(alloc: Global, book: &Book, certificate: &Certificate) -> Result<Vec<u8>, NoMemory>
    requires accepts { Accepts book.now.case.instance certificate.now }
    requires formed { IsWellFormed book.now.case.instance certificate.now }
    ensures { IfOk result (λ text. PrintsDossier book.now.case.instance text.items) }
{
    print_dossier(alloc, Form::Whole, &book.case().instance, certificate)
}

/// The dossier of the certificate of a finished search. `StillOpen` only where the search left its
/// best plan open; else want of memory is the only refusal.
pub fn dossier_text(alloc: Global, book: &Book) -> Result<Vec<u8>, CertError>
    ensures printed { IfOk result (λ text. PrintsDossier book.now.case.instance text.items) }
    ensures finished { verdict_of book.now ≡ Optimal → IfErr result (λ error. error ≡ CertError.NoMemory) }
{
    let certificate = certificate_of(alloc, book)?;
    match printed(alloc, book, &certificate) {
        Ok(text) => Ok(text),
        Err(NoMemory) => Err(CertError::NoMemory),
    }
}

// The dossier of a search that ended optimal.
fn certified_answer(alloc: Global, book: &Book) -> Answer
    ghost limit: { ℕ }
    requires { verdict_of book.now ≡ Optimal }
    ensures { AnswersSearch PrintsDossier NoLeft (search_in book.now limit) result.status (bytes_in result.text) }
{
    match dossier_text(alloc, book) {
        Ok(text) => Answer {
            status: Status::Good,
            text: Text::Made(text),
        },
        Err(CertError::StillOpen) => unreachable!(),
        Err(CertError::NoMemory) => no_memory(),
    }
}

// What is answered at the end of a search that ended optimal.
#[tactic(auto, using(crate::proofs::EndLemmas::dossier_asked, crate::proofs::EndLemmas::report_asked))]
fn cheapest_answer(alloc: Global, book: &Book, dossier: bool) -> Answer
    ghost limit: { ℕ }
    requires well { EndsWell limit book.now }
    requires optimal { verdict_of book.now ≡ Optimal }
    ensures { AnswersSearch (PrintsBest dossier) NoLeft (search_in book.now limit) result.status (bytes_in result.text) }
{
    if dossier {
        certified_answer(alloc, book)
    } else {
        report_answer(alloc, book)
    }
}

// What is answered at the end of a search that ended open.
#[tactic(auto, using(crate::proofs::EndLemmas::kept_asked, crate::proofs::EndLemmas::open_asked))]
fn left_answer(alloc: Global, book: &Book, keep: bool) -> Answer
    ghost limit: { ℕ }
    requires well { EndsWell limit book.now }
    requires open { verdict_of book.now ≢ Optimal }
    ensures { AnswersSearch NoBest (PrintsLeft keep) (search_in book.now limit) result.status (bytes_in result.text) }
{
    if keep {
        kept_answer(alloc, book)
    } else {
        report_answer(alloc, book)
    }
}

// Whether a verdict is that the plan is cheapest.
fn is_optimal(verdict: &Verdict) -> bool
    ensures { IsTrue result ↔ (verdict.now ≡ Optimal) }
{
    matches!(verdict, Verdict::Optimal)
}

/// What is answered at the end of a search that ended well: of a cheapest plan the report, or its
/// dossier where one is asked for; of an open one the report, or its open dossier where one is to be
/// kept.
pub fn best_answer(alloc: Global, book: &Book, dossier: bool, keep: bool) -> Answer
    ghost limit: { ℕ }
    requires { EndsWell limit book.now }
    ensures { AnswersSearch (PrintsBest dossier) (PrintsLeft keep) (search_in book.now limit) result.status (bytes_in result.text) }
{
    if is_optimal(&shown(book)) {
        cheapest_answer(alloc, book, dossier)
    } else {
        left_answer(alloc, book, keep)
    }
}

/// Searches all plans of a case, and answers with what the options ask for of the best one.
pub(crate) fn search_best<R: Threads + Wait + Sync, G: Gate + Sync>(
    rt: &R,
    alloc: Global,
    case: &Case,
    options: &SolveOptions,
    gate: &G,
) -> Answer
    requires { AreSolveNumbers options.now }
    ensures { AnswersOptions options.now (search_of case.now.nodes case.now.turns case.now.instance) result.status (bytes_in result.text) }
{
    match solve(rt, alloc, case, options.workers, gate) {
        Ok(solved) => best_answer(alloc, &*solved.book, options.dossier, options.keep),
        Err(NoMemory) => no_memory(),
    }
}

/// Searches all plans of a case with one worker, and answers with the first line of the report of
/// the best one.
pub(crate) fn search_line<R: Threads + Wait + Sync, G: Gate + Sync>(
    rt: &R,
    alloc: Global,
    case: &Case,
    gate: &G,
) -> Answer
    ensures { AnswersPrinted verdict_line (search_of case.now.nodes case.now.turns case.now.instance) result.status (bytes_in result.text) }
{
    match solve(rt, alloc, case, 1, gate) {
        Ok(solved) => line_answer(alloc, &*solved.book),
        Err(NoMemory) => no_memory(),
    }
}
