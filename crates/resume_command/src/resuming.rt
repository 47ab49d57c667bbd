//! What `resume` answers to a source.
ghost use Rattle.std.specs.Prelude.{◌≡◌, All, IfOk};
ghost use Rattle.lock_model.specs.Limits.{Within};
ghost use Rattle.closing_rules.specs.ProvedCuts.{IsProved};
ghost use Rattle.book_rules.specs.Cover.{IsOwnCut};
ghost use Rattle.certificate_rules.specs.Certificates.{Stands};
ghost use Rattle.run_answers.specs.Sources.{AnswersSource, drained};
ghost use Rattle.run_answers.specs.Written.{bytes_in};
ghost use Rattle.solve_commands.specs.Options.{AreSolveNumbers};
ghost use Rattle.solve_commands.specs.Keeping.{AnswersOptions};
ghost use Rattle.checked_dossiers.specs.Refused.{dossier_limit};
ghost use Rattle.checked_dossiers.specs.Standing.{IsStanding};
ghost use Rattle.resume_command.specs.Resuming.{budget_of, search_for, AnswersResume};

use crate::counting::prior;
use book_core::Case;
use certificate_parts::{CertCut, Certificate};
use checked_dossiers::{CheckedDossier, DOSSIER_LIMIT, read_standing};
use command_words::SolveOptions;
use deck_cuts::{Cut, known_cut};
use gates::Gate;
use lock_io::Source;
use lock_model::{Instance, deck_of};
use no_memory::NoMemory;
use run_answers::{Answer, no_memory, read_source};
use solve_commands::best_answer;
use solve_workers::{CutList, solve_from};
use std::alloc::Global;
use std::sync::Wait;
use std::thread::Threads;

// The most nodes that a search may use.
const MOST: u64 = 1_000_000;

// The cut of a proved cut of a certificate.
fn own_cut(instance: &Instance, cut: &CertCut) -> Result<Cut, NoMemory>
    requires { IsProved instance.now cut.now }
    ensures { IfOk result (IsOwnCut instance.now) }
{
    let deck = deck_of(instance, cut.chamber, &cut.ships);
    let refutation = cut.refutation.copy()?;
    Ok(known_cut(cut.chamber, cut.ships.copy(), deck, refutation))
}

// Appends a cut of the instance to cuts of it.
fn add_own(instance: &Instance, own: &mut CutList, cut: Cut) -> Result<(), NoMemory>
    requires { IsOwnCut instance.now cut }
    ensures { All (IsOwnCut instance.now) own.old → All (IsOwnCut instance.now) own.new }
{
    let _ = instance;
    own.push(cut)
}

// The cuts of the proved cuts of a certificate.
fn own_cuts(alloc: Global, instance: &Instance, cuts: &[CertCut]) -> Result<CutList, NoMemory>
    requires { All (IsProved instance.now) cuts.now }
    ensures { IfOk result (All (IsOwnCut instance.now)) }
{
    let mut own = CutList::new(alloc);
    for cut in cuts {
        add_own(instance, &mut own, own_cut(instance, cut)?)?;
    }
    Ok(own)
}

// How many nodes a search may use that goes on from a certificate.
fn budget(certificate: &Certificate, given: u32) -> u32
    requires { Within 1 1000000 given }
    ensures budget { result ≡ budget_of certificate.now given }
    ensures within { Within 1 1000000 result }
{
    let prior = prior(certificate);
    if prior >= MOST {
        return MOST as u32;
    }
    let wanted = prior + u64::from(given);
    if wanted >= MOST {
        MOST as u32
    } else {
        wanted as u32
    }
}

// What a search of a case shows that goes on from a certificate that stands.
#[tactic(auto, using(solve_commands::proofs::WiderLemmas::ends_from_opening, solve_commands::proofs::WiderLemmas::answers_wider))]
fn search_answer<R: Threads + Wait + Sync, G: Gate + Sync>(
    rt: &R,
    alloc: Global,
    case: &Case,
    certificate: &Certificate,
    options: &SolveOptions,
    gate: &G,
) -> Answer
    requires stands { Stands case.now.instance certificate.now }
    requires numbers { AreSolveNumbers options.now }
    ensures { AnswersOptions options.now (search_for case.now certificate.now.cost) result.status (bytes_in result.text) }
{
    let cuts = match own_cuts(alloc, &case.instance, certificate.cuts.as_slice()) {
        Ok(cuts) => cuts,
        Err(NoMemory) => return no_memory(),
    };
    match solve_from(
        rt,
        alloc,
        case,
        &certificate.plan,
        cuts,
        options.workers,
        gate,
    ) {
        Ok(solved) => best_answer(alloc, &*solved.book, options.dossier, options.keep),
        Err(NoMemory) => no_memory(),
    }
}

// What is answered where the search goes on from an open dossier that stands.
#[tactic(auto, using(crate::proofs::ResumeLemmas::search_resumes))]
fn standing_answer<R: Threads + Wait + Sync, G: Gate + Sync>(
    rt: &R,
    alloc: Global,
    bytes: &[u8],
    dossier: CheckedDossier,
    options: &SolveOptions,
    gate: &G,
) -> Answer
    requires standing { IsStanding bytes.now dossier.instance.value dossier.certificate.value }
    requires numbers { AreSolveNumbers options.now }
    ensures { AnswersResume options.now bytes.now result.status (bytes_in result.text) }
{
    let nodes = budget(&*dossier.certificate, options.nodes);
    let case = Case::new(Box::into_inner(dossier.instance), nodes, options.turns);
    search_answer(rt, alloc, &case, &*dossier.certificate, options, gate)
}

// What is answered to the bytes of an open dossier.
#[tactic(auto, using(crate::proofs::ResumeLemmas::resumes_none))]
fn dossier_answer<R: Threads + Wait + Sync, G: Gate + Sync>(
    rt: &R,
    alloc: Global,
    bytes: &[u8],
    options: &SolveOptions,
    gate: &G,
) -> Answer
    requires { AreSolveNumbers options.now }
    ensures { AnswersResume options.now bytes.now result.status (bytes_in result.text) }
{
    match read_standing(alloc, bytes) {
        Ok(dossier) => standing_answer(rt, alloc, bytes, dossier, options, gate),
        Err(answer) => answer,
    }
}

/// Reads an open dossier to its end, checks its certificate, and goes on with its search from its plan
/// and its cuts, with as many nodes as the dossier's marks show to be done and the given ones, at most
/// 1,000,000. It answers as `solve` does, with a plan that costs at most the dossier's cost; or says
/// what is refused: too many bytes, a fault of the dossier, a ship that fits no chamber, or the first
/// failure of the certificate. The numbers of the options are in their ranges.
#[inline(never)]
#[tactic(auto, using(crate::proofs::ResumeLemmas::resume_fair, run_answers::proofs::SourceLemmas::bytes_answer, run_answers::proofs::SourceLemmas::unreadable_answers))]
pub fn resume_answer<R: Threads + Wait + Sync, S: Source, G: Gate + Sync>(
    rt: &R,
    alloc: Global,
    options: &SolveOptions,
    src: &mut S,
    gate: &G,
) -> Answer
    requires { AreSolveNumbers options.now }
    ensures answer { AnswersSource dossier_limit (AnswersResume options.now) (drained S.left S.faults src.old src.new) result.status (bytes_in result.text) }
{
    match read_source(alloc, src, DOSSIER_LIMIT) {
        Ok(bytes) => dossier_answer(rt, alloc, bytes.as_slice(), options, gate),
        Err(answer) => answer,
    }
}
