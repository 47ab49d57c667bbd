//! Printing dossiers.
ghost use Rattle.std.specs.Prelude.{◌≡◌, ◌++◌, ◌≤◌, ◌∷◌, [], Some, false, IfOk, OnOk};
ghost use Rattle.certificate_rules.specs.WellFormed.{IsWellFormed};
ghost use Rattle.instance_text.specs.Canonical.{canonical};
ghost use Rattle.serde_json.specs.Data.{depth};
ghost use Rattle.serde_json.specs.Read.{max_depth};
ghost use Rattle.serde_json.specs.View.{view};
ghost use Rattle.serde_json.specs.Written.{has_float};
ghost use Rattle.cert_text.specs.Marks.{AreOf};
ghost use Rattle.cert_text.specs.Dossier.{heading_line, json_line, framed, dossier, json_of, Reads};

use crate::certificate::put_certificate;
use crate::heading::{Form, Version};
use crate::version::version_of;
use certificate_parts::Certificate;
use instance_text::print_instance;
use lock_model::Instance;
use no_memory::NoMemory;
use plain_text::put;
use serde_json::Value;
use std::alloc::Global;

/// The line before a certificate of a version of this form.
fn heading_line(form: Form, version: Version) -> &'static [u8]
    ensures { result.now ≡ heading_line form version }
{
    match (form, version) {
        (Form::Whole, Version::First) => b"certificate\n",
        (Form::Whole, Version::Second) => b"certificate 2\n",
        (Form::Whole, Version::Third) => b"certificate 3\n",
        (Form::Whole, Version::Fourth) => b"certificate 4\n",
        (Form::Open, Version::First | Version::Second) => b"certificate open\n",
        (Form::Open, Version::Third) => b"certificate open 3\n",
        (Form::Open, Version::Fourth) => b"certificate open 4\n",
    }
}

/// Appends a text and a line feed, for which room is taken once. Its only refusal is want of memory.
fn put_line(out: &mut Vec<u8>, text: &[u8]) -> Result<(), NoMemory>
    ensures { OnOk result (out.new.items ≡ (out.old.items ++ text.now) ++ 10 ∷ []) }
{
    out.reserve(text.len() + 1)?;
    put(out, text)?;
    put(out, b"\n")
}

/// The JSON text of a value, without a line feed.
fn json_text(alloc: Global, value: Value) -> Result<Vec<u8>, NoMemory>
    requires flat { has_float (view value) ≡ false }
    requires shallow { depth (view value) ≤ max_depth }
    ensures text { IfOk result (λ text. text.items ++ 10 ∷ [] ≡ json_line (view value)) }
    ensures reads_back { IfOk result (λ _. json_of (json_line (view value)) ≡ Some (view value)) }
{
    let text = value.to_vec(alloc)?;
    Ok(text)
}

/// The canonical text of an instance and a heading.
fn print_head(alloc: Global, instance: &Instance, heading: &[u8]) -> Result<Vec<u8>, NoMemory>
    ensures { IfOk result (λ text. text.items ≡ canonical instance.now ++ heading.now) }
{
    let mut out = print_instance(alloc, instance)?;
    put(&mut out, heading)?;
    Ok(out)
}

/// The canonical text of an instance, a heading, and the line of a JSON value, which is read back as
/// the same value: it has no floating-point number, and nests no deeper than is read. Its only refusal
/// is want of memory.
fn print_framed(
    alloc: Global,
    instance: &Instance,
    heading: &[u8],
    value: Value,
) -> Result<Vec<u8>, NoMemory>
    requires flat { has_float (view value) ≡ false }
    requires shallow { depth (view value) ≤ max_depth }
    ensures text { IfOk result (λ text. text.items ≡ framed instance.now heading.now (view value)) }
    ensures reads_back { IfOk result (λ _. json_of (json_line (view value)) ≡ Some (view value)) }
{
    let text = json_text(alloc, value)?;
    let mut out = print_head(alloc, instance, heading)?;
    put_line(&mut out, text.as_slice())?;
    Ok(out)
}

/// The canonical dossier of an instance and a certificate in this form, which is read back as the same
/// two; a certificate that leaves nodes open has the open form alone. The heading is that of the first
/// version of the form that has all parts of the certificate. Its only refusal is want of memory.
pub fn print_dossier(
    alloc: Global,
    form: Form,
    instance: &Instance,
    certificate: &Certificate,
) -> Result<Vec<u8>, NoMemory>
    requires formed { IsWellFormed instance.now certificate.now }
    requires own { AreOf form certificate.now.tree }
    ensures text { IfOk result (λ text. text.items ≡ dossier form instance.now certificate.now) }
    ensures reads_back { IfOk result (λ text. Reads form text.items instance.now certificate.now) }
{
    let version = version_of(form, certificate);
    let value = put_certificate(alloc, form, instance, version, certificate)?;
    let text = print_framed(alloc, instance, heading_line(form, version), value)?;
    Ok(text)
}
