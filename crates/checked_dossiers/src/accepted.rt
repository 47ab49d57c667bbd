//! Dossiers whose certificate is accepted.
ghost use Rattle.std.specs.Prelude.{◌≡◌, IfOk, IfErr};
ghost use Rattle.lock_model.specs.declared.instance.Instance.{Instance as AnyInstance};
ghost use Rattle.certificate_rules.specs.Certificates.{Certificate as AnyCertificate};
ghost use Rattle.run_answers.specs.Written.{bytes_in};
ghost use Rattle.checked_dossiers.specs.Accepted.{IsAccepted, IsNotAccepted};

use crate::sound::{CheckedDossier, read_sound};
use cert_text::Form;
use run_answers::{Answer, Status};
use std::alloc::Global;

// The dossier of the bytes, where its certificate is accepted.
fn accepted_of(alloc: Global, bytes: &[u8]) -> Result<CheckedDossier, Answer>
    ensures accepted { IfOk result (λ d. IsAccepted bytes.now d.instance.value d.certificate.value) }
    ensures refused { IfErr result (λ answer. IsNotAccepted bytes.now answer.status (bytes_in answer.text)) }
{
    match read_sound(alloc, Form::Whole, bytes) {
        Ok(dossier) => Ok(dossier),
        Err(answer) => Err(answer),
    }
}

/// Reads a dossier and checks its certificate without any search: the instance and the certificate
/// exactly where it is accepted, so that no legal plan costs less than its plan. Else the answer to what
/// is refused: the dossier's first fault, then a ship that fits no chamber, then the certificate's first
/// failure. Want of memory alone refuses a dossier whose certificate is accepted.
#[tactic(auto, using(crate::proofs::ExactLemmas::accepted_wants))]
pub fn read_accepted(alloc: Global, bytes: &[u8]) -> Result<CheckedDossier, Answer>
    ensures accepted { IfOk result (λ d. IsAccepted bytes.now d.instance.value d.certificate.value) }
    ensures refused { IfErr result (λ answer. IsNotAccepted bytes.now answer.status (bytes_in answer.text)) }
    ensures exactly { IfErr result (λ answer. (i : AnyInstance) (c : AnyCertificate) → IsAccepted bytes.now i c → answer.status ≡ Status.NoMemory) }
{
    accepted_of(alloc, bytes)
}
