//! Reading dossiers.
ghost use Rattle.std.specs.Prelude.{◌≡◌, Some, None, Ok, IfOk, IfErr};
ghost use Rattle.lock_model.specs.declared.instance.Instance.{Instance as AnyInstance};
ghost use Rattle.certificate_rules.specs.Certificates.{Certificate as AnyCertificate};
ghost use Rattle.instance_text.specs.Reading.{Means, instance_part, after_instance};
ghost use Rattle.serde_json.specs.View.{view};
ghost use Rattle.cert_text.specs.Answers.{IsCausedFault, IsFault, IsAnswer, IsFaultAnswer};
ghost use Rattle.cert_text.specs.Dossier.{version_under, json_of, value_in, rest_in, Reads, DossierFault, IsFirstFault};
ghost use Rattle.cert_text.specs.declared.bad.BadDossier.{BadDossier as AnyFault};
ghost use Rattle.cert_text.specs.declared.bad.BadDossier.TheVariants.{Json};

use crate::bad::{BadDossier, DossierError};
use crate::certificate::certificate_in;
use crate::heading::{Form, Heading, Version, headed};
use certificate_parts::Certificate;
use instance_text::split_instance;
use lock_model::Instance;
use serde_json::Value;
use std::alloc::Global;

/// The version of a heading of this form. None where it is of the other form.
fn version_under(form: Form, heading: Heading) -> Option<Version>
    ensures { result ≡ version_under form heading }
{
    match (form, heading) {
        (Form::Whole, Heading::Whole(version)) => Some(version),
        (Form::Open, Heading::Open(version)) => Some(version),
        _ => None,
    }
}

/// The value of a JSON text. Answers `Json` exactly where the bytes are not one JSON text that
/// `serde_json` reads, or else want of memory. Inlined, what the parser needs would be on the stack while
/// the value is read.
#[inline(never)]
#[tactic(auto, using(crate::proofs::WrittenLemmas::json_found, crate::proofs::WrittenLemmas::json_none))]
fn json_of(alloc: Global, bytes: &[u8]) -> Result<Value, DossierError>
    ensures read { IfOk result (λ v. json_of bytes.now ≡ Some (view v)) }
    ensures refused { IfErr result (IsCausedFault Json (json_of bytes.now ≡ None)) }
{
    match Value::from_slice(alloc, bytes) {
        Ok(value) => Ok(value),
        Err(error) => {
            if error.is_memory() {
                Err(DossierError::NoMemory)
            } else {
                Err(DossierError::Fault(BadDossier::Json))
            }
        }
    }
}

/// The version and the JSON value of the bytes after an instance part. Answers `NoMark` where they
/// begin with no heading of this form, then `Json`, or else want of memory.
#[tactic(auto, unfolding(crate::specs::Dossier::value_in))]
fn value_in(alloc: Global, form: Form, bytes: &[u8]) -> Result<(Version, Value), DossierError>
    ensures read { IfOk result (λ r. value_in form bytes.now ≡ Ok (r.0, view r.1)) }
    ensures fault { IfErr result (IsFault (value_in form bytes.now)) }
{
    let Some((heading, rest)) = headed(bytes) else {
        return Err(DossierError::Fault(BadDossier::NoMark));
    };
    let Some(version) = version_under(form, heading) else {
        return Err(DossierError::Fault(BadDossier::NoMark));
    };
    let value = json_of(alloc, rest)?;
    Ok((version, value))
}

/// The certificate of the bytes after the part of an instance, in a box. Inlined, what it needs would be on
/// the stack while the instance is read, and while the certificate is checked.
#[inline(never)]
#[tactic(auto, unfolding(crate::specs::Dossier::rest_in), using(crate::proofs::DossierLemmas::value_fault))]
fn rest_in(
    alloc: Global,
    form: Form,
    instance: &Instance,
    bytes: &[u8],
) -> Result<Box<Certificate>, DossierError>
    ensures read { IfOk result (λ c. rest_in form instance.now.ships bytes.now ≡ Ok c.value) }
    ensures fault { IfErr result (IsFault (rest_in form instance.now.ships bytes.now)) }
{
    let (version, value) = value_in(alloc, form, bytes)?;
    certificate_in(alloc, form, instance, version, &value)
}

/// The instance of the instance part of a text, in a box, and the bytes after that part; or what is wrong with a
/// dossier of any form.
#[inline(never)]
#[tactic(auto, using(crate::proofs::DossierLemmas::instance_fault))]
fn instance_in(
    alloc: Global,
    form: Form,
    bytes: &[u8],
) -> Result<(Box<Instance>, &[u8]), DossierError>
    ensures read { IfOk result (λ r. Means (instance_part bytes.now) r.0.value) }
    ensures rest { IfOk result (λ r. r.1.now ≡ after_instance bytes.now) }
    ensures fault { IfErr result (IsFirstFault form bytes.now) }
{
    let _ = form;
    let (instance, rest) = match split_instance(bytes) {
        Ok(parts) => parts,
        Err(bad) => return Err(DossierError::Fault(BadDossier::Instance(bad))),
    };
    match Box::new(alloc, instance) {
        Ok(instance) => Ok((instance, rest)),
        Err(_) => Err(DossierError::NoMemory),
    }
}

/// The instance and the certificate of a text, in boxes.
#[tactic(auto, using(crate::proofs::DossierLemmas::rest_fault, crate::proofs::DossierLemmas::rest_read))]
fn read_text(
    alloc: Global,
    form: Form,
    bytes: &[u8],
) -> Result<(Box<Instance>, Box<Certificate>), DossierError>
    ensures read { IfOk result (λ r. Reads form bytes.now r.0.value r.1.value) }
    ensures fault { IfErr result (IsFirstFault form bytes.now) }
{
    let (instance, rest) = instance_in(alloc, form, bytes)?;
    let certificate = rest_in(alloc, form, &*instance, rest)?;
    Ok((instance, certificate))
}

/// The instance and the certificate of a dossier of this form and any heading of it: `certificate`,
/// `certificate 2`, `certificate 3` or `certificate 4` where it is whole, so that no mark is an open leaf,
/// and `certificate open`, `certificate open 3` or `certificate open 4` where it may leave nodes open.
/// `NoMark` comes for the lines of the other form too. Answers the first fault exactly where the bytes are no dossier of the
/// form, or else want of memory. JSON may nest 127 deep, so no input needs a deeper stack. Both come in
/// boxes: they are large, and each place that they are moved to would take as much of the stack.
pub fn read_dossier(
    alloc: Global,
    form: Form,
    bytes: &[u8],
) -> Result<(Box<Instance>, Box<Certificate>), DossierError>
    ensures read { IfOk result (λ r. Reads form bytes.now r.0.value r.1.value) }
    ensures fault { IfErr result (IsFirstFault form bytes.now) }
    ensures each { (i : AnyInstance) (c : AnyCertificate) → Reads form bytes.now i c → IsAnswer {B = AnyInstance × AnyCertificate} (λ r. (r.0.value, r.1.value)) (i, c) result }
    ensures each_fault { (f : AnyFault) → DossierFault form bytes.now f → IsFaultAnswer f result }
{
    read_text(alloc, form, bytes)
}
