//! Open dossiers that stand.
ghost use Rattle.std.specs.Prelude.{◌≡◌, IfOk, IfErr};
ghost use Rattle.lock_model.specs.declared.instance.Instance.{Instance as AnyInstance};
ghost use Rattle.certificate_rules.specs.Certificates.{Certificate as AnyCertificate};
ghost use Rattle.run_answers.specs.Written.{bytes_in};
ghost use Rattle.checked_dossiers.specs.Standing.{IsStanding, HasLow, IsNoStanding};

use crate::sound::{CheckedDossier, read_sound};
use cert_text::Form;
use run_answers::{Answer, Status};
use std::alloc::Global;

/// Reads an open dossier and checks its certificate without any search: the instance, the certificate
/// and its low exactly where it stands, so that no legal plan costs less than the low. Else the answer to
/// what is refused: the dossier's first fault, then a ship that fits no chamber, then the certificate's
/// first failure. Want of memory alone refuses an open dossier that stands.
#[tactic(auto, using(crate::proofs::ExactLemmas::standing_wants))]
pub fn read_standing(alloc: Global, bytes: &[u8]) -> Result<CheckedDossier, Answer>
    ensures standing { IfOk result (λ d. IsStanding bytes.now d.instance.value d.certificate.value) }
    ensures low { IfOk result (λ d. HasLow d.instance.value d.certificate.value d.low) }
    ensures refused { IfErr result (λ answer. IsNoStanding bytes.now answer.status (bytes_in answer.text)) }
    ensures exactly { IfErr result (λ answer. (i : AnyInstance) (c : AnyCertificate) → IsStanding bytes.now i c → answer.status ≡ Status.NoMemory) }
{
    read_sound(alloc, Form::Open, bytes)
}
