//! What `check` answers to a source.
ghost use Rattle.std.specs.Prelude.{◌≡◌};
ghost use Rattle.run_answers.specs.Sources.{AnswersSource, drained};
ghost use Rattle.run_answers.specs.Written.{bytes_in};
ghost use Rattle.checked_dossiers.specs.Refused.{dossier_limit};
ghost use Rattle.checked_dossiers.specs.Accepted.{IsAccepted};
ghost use Rattle.dossier_commands.specs.Checking.{AnswersCheck};

use crate::dossier_texts::accepted_text;
use checked_dossiers::{CheckedDossier, DOSSIER_LIMIT, read_accepted};
use lock_io::Source;
use no_memory::NoMemory;
use run_answers::{Answer, Status, Text, no_memory, read_source};
use std::alloc::Global;

// The cost of the certificate of a dossier, in minutes.
fn cost_in(dossier: &CheckedDossier) -> u64
    ensures { result ≡ dossier.now.certificate.value.cost }
{
    dossier.certificate.cost
}

// That the certificate of a dossier is accepted.
fn accepted_answer(alloc: Global, bytes: &[u8], dossier: &CheckedDossier) -> Answer
    requires { IsAccepted bytes.now dossier.now.instance.value dossier.now.certificate.value }
    ensures { AnswersCheck bytes.now result.status (bytes_in result.text) }
{
    match accepted_text(alloc, cost_in(dossier)) {
        Ok(text) => Answer {
            status: Status::Good,
            text: Text::Made(text),
        },
        Err(NoMemory) => no_memory(),
    }
}

// What is answered to the bytes of a dossier.
#[tactic(auto, using(crate::proofs::DossierLemmas::checks_none))]
fn dossier_answer(alloc: Global, bytes: &[u8]) -> Answer
    ensures { AnswersCheck bytes.now result.status (bytes_in result.text) }
{
    match read_accepted(alloc, bytes) {
        Ok(dossier) => accepted_answer(alloc, bytes, &dossier),
        Err(answer) => answer,
    }
}

/// Reads a dossier to its end and checks its certificate without any search, or says what is
/// refused: too many bytes, a fault of the dossier, a ship that fits no chamber, or the certificate's
/// first failure.
#[inline(never)]
#[tactic(auto, using(crate::proofs::DossierLemmas::check_fair, run_answers::proofs::SourceLemmas::bytes_answer, run_answers::proofs::SourceLemmas::unreadable_answers))]
pub fn check_answer<S: Source>(alloc: Global, src: &mut S) -> Answer
    ensures answer { AnswersSource dossier_limit AnswersCheck (drained S.left S.faults src.old src.new) result.status (bytes_in result.text) }
{
    match read_source(alloc, src, DOSSIER_LIMIT) {
        Ok(bytes) => dossier_answer(alloc, bytes.as_slice()),
        Err(answer) => answer,
    }
}
