//! Dossiers of either form whose certificate stands.
ghost use Rattle.std.specs.Prelude.{IfOk, IfErr};
ghost use Rattle.lock_rules.specs.Unfit.{HasNoUnfit};
ghost use Rattle.cert_text.specs.Dossier.{Reads};
ghost use Rattle.run_answers.specs.Written.{bytes_in};
ghost use Rattle.checked_dossiers.specs.Refused.{IsRefused};
ghost use Rattle.checked_dossiers.specs.Standing.{IsSound, HasLow};

use crate::refusals::{fault_answer, rejected_answer, unfit_answer};
use cert_check::{Answer as Checked, check};
use cert_text::{DossierError, Form, read_dossier};
use certificate_parts::Certificate;
use lock_model::Instance;
use mooring_rules::first_unfit;
use no_memory::NoMemory;
use run_answers::{Answer, no_memory};
use std::alloc::Global;

/// An instance, a certificate of it and its low in minutes; that it stands, and whether it is accepted,
/// is told by the clauses of who gives them and not by this type. Both lie in boxes: they are large, and
/// would be on the stack of all who come after.
#[derive(Drop)]
pub struct CheckedDossier {
    pub instance: Box<Instance>,
    pub certificate: Box<Certificate>,
    pub low: u64,
}

// The low of a certificate that stands, or what is answered where it doesn't. Inlined, what the check needs
// would be on the stack while the text is read.
#[inline(never)]
fn low_of(
    alloc: Global,
    form: Form,
    bytes: &[u8],
    instance: &Instance,
    certificate: &Certificate,
) -> Result<u64, Answer>
    requires reads { Reads form bytes.now instance.now certificate.now }
    requires fit { HasNoUnfit instance.now }
    ensures sound { IfOk result (λ _. IsSound form bytes.now instance.now certificate.now) }
    ensures low { IfOk result (HasLow instance.now certificate.now) }
    ensures refused { IfErr result (λ answer. IsRefused form bytes.now answer.status (bytes_in answer.text)) }
{
    match check(alloc, instance, certificate) {
        Ok(Checked::Stands { low, .. }) => Ok(low),
        Ok(Checked::Rejected(place, reason)) => Err(rejected_answer(alloc, place, reason)),
        Err(NoMemory) => Err(no_memory()),
    }
}

// The dossier, where its certificate stands for the instance.
#[tactic(auto, using(crate::proofs::RefusalLemmas::unfit_refused))]
fn sound_of(
    alloc: Global,
    form: Form,
    bytes: &[u8],
    instance: Box<Instance>,
    certificate: Box<Certificate>,
) -> Result<CheckedDossier, Answer>
    requires { Reads form bytes.now instance.value certificate.value }
    ensures sound { IfOk result (λ d. IsSound form bytes.now d.instance.value d.certificate.value) }
    ensures low { IfOk result (λ d. HasLow d.instance.value d.certificate.value d.low) }
    ensures refused { IfErr result (λ answer. IsRefused form bytes.now answer.status (bytes_in answer.text)) }
{
    if let Some(ship) = first_unfit(&*instance) {
        return Err(unfit_answer(alloc, &*instance, ship));
    }
    let low = low_of(alloc, form, bytes, &*instance, &*certificate)?;
    Ok(CheckedDossier {
        instance,
        certificate,
        low,
    })
}

// The dossier of this form of the bytes, where its certificate stands. Else the answer to what is
// refused: the dossier's first fault, then a ship that fits no chamber, then the certificate's first
// failure.
#[tactic(auto, using(crate::proofs::RefusalLemmas::fault_refused))]
pub(crate) fn read_sound(alloc: Global, form: Form, bytes: &[u8]) -> Result<CheckedDossier, Answer>
    ensures sound { IfOk result (λ d. IsSound form bytes.now d.instance.value d.certificate.value) }
    ensures low { IfOk result (λ d. HasLow d.instance.value d.certificate.value d.low) }
    ensures refused { IfErr result (λ answer. IsRefused form bytes.now answer.status (bytes_in answer.text)) }
{
    match read_dossier(alloc, form, bytes) {
        Ok((instance, certificate)) => sound_of(alloc, form, bytes, instance, certificate),
        Err(DossierError::Fault(fault)) => Err(fault_answer(alloc, fault)),
        Err(DossierError::NoMemory) => Err(no_memory()),
    }
}
