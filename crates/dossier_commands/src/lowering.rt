//! What `lower` answers to a source.
ghost use Rattle.std.specs.Prelude.{◌≡◌};
ghost use Rattle.run_answers.specs.Sources.{AnswersSource, drained};
ghost use Rattle.run_answers.specs.Written.{bytes_in};
ghost use Rattle.checked_dossiers.specs.Refused.{dossier_limit};
ghost use Rattle.checked_dossiers.specs.Standing.{IsStanding, HasLow};
ghost use Rattle.dossier_commands.specs.Lowering.{AnswersLower};

use crate::dossier_texts::lower_text;
use checked_dossiers::{CheckedDossier, DOSSIER_LIMIT, read_standing};
use lock_io::Source;
use no_memory::NoMemory;
use run_answers::{Answer, Status, Text, no_memory, read_source};
use std::alloc::Global;

// The cost of the certificate of a dossier, in minutes.
fn cost_in(dossier: &CheckedDossier) -> u64
    ensures { result ≡ dossier.now.certificate.value.cost }
{
    dossier.certificate.cost
}

// The low and the cost of a certificate that stands.
fn low_answer(alloc: Global, bytes: &[u8], dossier: &CheckedDossier) -> Answer
    requires standing { IsStanding bytes.now dossier.now.instance.value dossier.now.certificate.value }
    requires low { HasLow dossier.now.instance.value dossier.now.certificate.value dossier.now.low }
    ensures { AnswersLower bytes.now result.status (bytes_in result.text) }
{
    let cost = cost_in(dossier);
    match lower_text(alloc, dossier.low, cost) {
        Ok(text) if dossier.low == cost => Answer {
            status: Status::Good,
            text: Text::Made(text),
        },
        Ok(text) => Answer {
            status: Status::Open,
            text: Text::Made(text),
        },
        Err(NoMemory) => no_memory(),
    }
}

// What is answered to the bytes of an open dossier.
#[tactic(auto, using(crate::proofs::OpenLemmas::lowers_none))]
fn dossier_answer(alloc: Global, bytes: &[u8]) -> Answer
    ensures { AnswersLower bytes.now result.status (bytes_in result.text) }
{
    match read_standing(alloc, bytes) {
        Ok(dossier) => low_answer(alloc, bytes, &dossier),
        Err(answer) => answer,
    }
}

/// Reads an open dossier to its end, checks its certificate without any search, and answers with its
/// low and its cost, in minutes: no legal plan costs less than the low. Or says what is refused: too
/// many bytes, a fault of the dossier, a ship that fits no chamber, or the first failure of the
/// certificate.
#[inline(never)]
#[tactic(auto, using(crate::proofs::OpenLemmas::lower_fair, run_answers::proofs::SourceLemmas::bytes_answer, run_answers::proofs::SourceLemmas::unreadable_answers))]
pub fn lower_answer<S: Source>(alloc: Global, src: &mut S) -> Answer
    ensures answer { AnswersSource dossier_limit AnswersLower (drained S.left S.faults src.old src.new) result.status (bytes_in result.text) }
{
    match read_source(alloc, src, DOSSIER_LIMIT) {
        Ok(bytes) => dossier_answer(alloc, bytes.as_slice()),
        Err(answer) => answer,
    }
}
