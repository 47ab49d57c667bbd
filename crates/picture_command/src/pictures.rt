//! What is answered to an instance and a plan, and to dossiers.
ghost use Rattle.std.specs.Prelude.{◌≡◌};
ghost use Rattle.checked_dossiers.specs.Refused.{dossier_limit};
ghost use Rattle.checked_dossiers.specs.Accepted.{IsAccepted};
ghost use Rattle.checked_dossiers.specs.Standing.{IsStanding, HasLow};
ghost use Rattle.run_answers.specs.Sources.{AnswersSource, drained};
ghost use Rattle.run_answers.specs.Written.{bytes_in};
ghost use Rattle.plan_commands.specs.Planned.{IsPlanned};
ghost use Rattle.picture_command.specs.Pictures.{known_of, AnswersPlan, AnswersDossier, AnswersOpenDossier, AnswersPicture};

use crate::headings::heading_in;
use crate::pages::{day_page, plan_page};
use cert_text::Heading;
use certificate_parts::Certificate;
use checked_dossiers::{CheckedDossier, DOSSIER_LIMIT, read_accepted, read_standing};
use day_play::{Played, play};
use lock_io::Source;
use lock_model::{Instance, Plan};
use picture_page::{Dial, Known};
use plan_commands::{break_answer, read_planned};
use run_answers::{Answer, read_source};
use std::alloc::Global;

// What comes of the plan that the bytes name.
#[tactic(auto, using(crate::proofs::AnswerLemmas::plan_pictured, crate::proofs::AnswerLemmas::plan_refused))]
fn named_answer(alloc: Global, dial: Dial, bytes: &[u8], instance: &Instance, plan: &Plan) -> Answer
    requires { IsPlanned bytes.now instance.now plan.now }
    ensures { AnswersPlan dial bytes.now result.status (bytes_in result.text) }
{
    match play(instance, plan) {
        Played::Day(day) => day_page(alloc, dial, Known::Legal, instance, plan, &day),
        Played::Stuck(broken) => break_answer(alloc, bytes, instance, plan, broken),
    }
}

// What is answered to an instance and a plan.
#[tactic(auto, using(crate::proofs::AnswerLemmas::plan_refused))]
fn plan_answer(alloc: Global, dial: Dial, bytes: &[u8]) -> Answer
    ensures { AnswersPlan dial bytes.now result.status (bytes_in result.text) }
{
    match read_planned(alloc, bytes) {
        Ok((instance, plan)) => named_answer(alloc, dial, bytes, &*instance, &*plan),
        Err(answer) => answer,
    }
}

// The page of a dossier whose certificate is accepted.
#[tactic(auto, using(crate::proofs::AnswerLemmas::dossier_pictured))]
fn accepted_answer(alloc: Global, dial: Dial, bytes: &[u8], dossier: &CheckedDossier) -> Answer
    requires { IsAccepted bytes.now dossier.now.instance.value dossier.now.certificate.value }
    ensures { AnswersDossier dial bytes.now result.status (bytes_in result.text) }
{
    let instance = &*dossier.instance;
    plan_page(
        alloc,
        dial,
        Known::Optimal,
        instance,
        &dossier.certificate.plan,
    )
}

// What is answered to a dossier.
#[tactic(auto, using(crate::proofs::AnswerLemmas::dossier_refused))]
fn dossier_answer(alloc: Global, dial: Dial, bytes: &[u8]) -> Answer
    ensures { AnswersDossier dial bytes.now result.status (bytes_in result.text) }
{
    match read_accepted(alloc, bytes) {
        Ok(dossier) => accepted_answer(alloc, dial, bytes, &dossier),
        Err(answer) => answer,
    }
}

// What a low says of the plan of a certificate.
fn known_of(low: u64, certificate: &Certificate) -> Known
    ensures { result ≡ known_of low certificate.now.cost }
{
    if low == certificate.cost {
        Known::Optimal
    } else {
        Known::Open(low)
    }
}

// The page of an open dossier that stands.
#[tactic(auto, using(crate::proofs::AnswerLemmas::open_pictured))]
fn standing_answer(alloc: Global, dial: Dial, bytes: &[u8], dossier: &CheckedDossier) -> Answer
    requires standing { IsStanding bytes.now dossier.now.instance.value dossier.now.certificate.value }
    requires low { HasLow dossier.now.instance.value dossier.now.certificate.value dossier.now.low }
    ensures { AnswersOpenDossier dial bytes.now result.status (bytes_in result.text) }
{
    let known = known_of(dossier.low, &*dossier.certificate);
    plan_page(
        alloc,
        dial,
        known,
        &*dossier.instance,
        &dossier.certificate.plan,
    )
}

// What is answered to an open dossier.
#[tactic(auto, using(crate::proofs::AnswerLemmas::open_refused))]
fn open_answer(alloc: Global, dial: Dial, bytes: &[u8]) -> Answer
    ensures { AnswersOpenDossier dial bytes.now result.status (bytes_in result.text) }
{
    match read_standing(alloc, bytes) {
        Ok(dossier) => standing_answer(alloc, dial, bytes, &dossier),
        Err(answer) => answer,
    }
}

// What is answered to the bytes of a text, by what follows its instance part.
#[tactic(auto, using(crate::proofs::AnswerLemmas::plan_follows, crate::proofs::AnswerLemmas::certificate_follows, crate::proofs::AnswerLemmas::open_follows))]
fn text_answer(alloc: Global, dial: Dial, bytes: &[u8]) -> Answer
    ensures { AnswersPicture dial bytes.now result.status (bytes_in result.text) }
{
    match heading_in(bytes) {
        None => plan_answer(alloc, dial, bytes),
        Some(Heading::Whole(_)) => dossier_answer(alloc, dial, bytes),
        Some(Heading::Open(_)) => open_answer(alloc, dial, bytes),
    }
}

/// Reads an instance and a plan of it, or a dossier, to the source's end. Of a legal plan, and of the
/// plan of a dossier that is accepted or stands, it answers the picture. Else it says what is refused, as
/// `judge`, `check` and `lower` do.
#[tactic(auto, using(crate::proofs::AnswerLemmas::picture_fair, run_answers::proofs::SourceLemmas::bytes_answer, run_answers::proofs::SourceLemmas::unreadable_answers))]
pub(crate) fn picture_answer<S: Source>(alloc: Global, dial: Dial, src: &mut S) -> Answer
    ensures answer { AnswersSource dossier_limit (AnswersPicture dial) (drained S.left S.faults src.old src.new) result.status (bytes_in result.text) }
{
    match read_source(alloc, src, DOSSIER_LIMIT) {
        Ok(bytes) => text_answer(alloc, dial, bytes.as_slice()),
        Err(answer) => answer,
    }
}
