//! Cuts as JSON values.
ghost use Rattle.std.specs.Prelude.{◌≡◌, All, IfOk, IfErr, Some, None, map, codes};
ghost use Rattle.certificate_rules.specs.WellFormed.{IsFormedCut};
ghost use Rattle.serde_json.specs.View.{view, items_of, items_view};
ghost use Rattle.cert_text.specs.Answers.{IsCausedFault};
ghost use Rattle.cert_text.specs.Fields.{all_in, value_at};
ghost use Rattle.cert_text.specs.Cuts.{cut_data, cuts_data, cut_in, cuts_in, why_in};
ghost use Rattle.cert_text.specs.declared.bad.BadDossier.TheVariants.{Shape};

use crate::bad::{BadDossier, DossierError};
use crate::group::put_group;
use crate::ships::ships_at;
use crate::value::{chamber_at, has_members};
use crate::why::{put_why, why_in};
use certificate_parts::{CertCut, CertCuts};
use no_memory::NoMemory;
use refute_rules::Refutation;
use serde_json::Value;
use std::alloc::{AllocError, Global};

/// A cut as a value.
#[tactic(auto, unfolding(serde_json::proofs::OnLiterals::serde_json_on_literals, crate::specs::Cuts::cut_in))]
fn put_cut(alloc: Global, cut: &CertCut) -> Result<Value, AllocError>
    requires { IsFormedCut cut.now }
    ensures value { IfOk result (λ v. view v ≡ cut_data cut.now) }
    ensures reads_back { IfOk result (λ _. cut_in (cut_data cut.now) ≡ Some cut.now) }
{
    let mut map = put_group(alloc, cut.chamber, &cut.ships)?;
    let why = put_why(alloc, &cut.refutation)?;
    serde_json::put(&mut map, alloc, "why", why)?;
    Ok(Value::Object(map))
}

/// The values of cuts in order.
fn put_all(alloc: Global, cuts: &[CertCut]) -> Result<Vec<Value>, AllocError>
    requires { All IsFormedCut cuts.now }
    ensures values { IfOk result (λ list. map view list.items ≡ map cut_data cuts.now) }
    ensures reads_back { IfOk result (λ _. all_in cut_in (items_of (map cut_data cuts.now)) ≡ Some cuts.now) }
{
    let mut list = Vec::with_capacity(alloc, cuts.len())?;
    for cut in cuts {
        list.push(put_cut(alloc, cut)?)?;
    }
    Ok(list)
}

/// The cuts as a value that `cuts_of` reads back. `specs/Cuts` says which value it is. Its only
/// refusal is want of memory.
pub fn put_cuts(alloc: Global, cuts: &CertCuts) -> Result<Value, NoMemory>
    requires { All IsFormedCut cuts.now }
    ensures value { IfOk result (λ v. view v ≡ cuts_data cuts.now) }
    ensures reads_back { IfOk result (λ v. cuts_in (view v) ≡ Some cuts.now) }
{
    let list = put_all(alloc, cuts.as_slice())?;
    Ok(Value::Array(list))
}

/// The refutation at the key `why`.
fn why_at(alloc: Global, value: &Value) -> Result<Option<Refutation>, AllocError>
    ensures { IfOk result (λ o. o ≡ value_at (codes "why") why_in (view value.now)) }
{
    match value.get("why") {
        Some(why) => why_in(alloc, why),
        None => Ok(None),
    }
}

/// The cut that a value writes.
#[tactic(auto, unfolding(crate::specs::Cuts::cut_in))]
fn cut_in(alloc: Global, value: &Value) -> Result<Option<CertCut>, AllocError>
    ensures { IfOk result (λ o. o ≡ cut_in (view value.now)) }
{
    if !has_members(value, 3) {
        return Ok(None);
    }
    let Some(chamber) = chamber_at(value) else {
        return Ok(None);
    };
    let Some(ships) = ships_at(value) else {
        return Ok(None);
    };
    let Some(refutation) = why_at(alloc, value)? else {
        return Ok(None);
    };
    Ok(Some(CertCut {
        chamber,
        ships,
        refutation,
    }))
}

/// The cuts that values write.
fn all_in(alloc: Global, list: &[Value]) -> Result<Option<CertCuts>, AllocError>
    ensures { IfOk result (λ o. o ≡ all_in cut_in (items_view list.now)) }
{
    let mut cuts = CertCuts::new(alloc);
    for value in list {
        match cut_in(alloc, value)? {
            Some(cut) => cuts.push(cut)?,
            None => return Ok(None),
        }
    }
    Ok(Some(cuts))
}

/// The cuts that a value lists.
fn cuts_in(alloc: Global, value: &Value) -> Result<Option<CertCuts>, AllocError>
    ensures { IfOk result (λ o. o ≡ cuts_in (view value.now)) }
{
    match value.as_array() {
        Some(list) => all_in(alloc, list.as_slice()),
        None => Ok(None),
    }
}

/// The cuts that a value lists, each with its chamber, its ships and its refutation as numbers,
/// clashes included. Answers `Shape(3)` exactly where the value is no list of cuts, or else want of
/// memory.
pub fn cuts_of(alloc: Global, value: &Value) -> Result<CertCuts, DossierError>
    ensures read { IfOk result (λ cuts. cuts_in (view value.now) ≡ Some cuts) }
    ensures shape { IfErr result (IsCausedFault (Shape 3) (cuts_in (view value.now) ≡ None)) }
{
    match cuts_in(alloc, value)? {
        Some(cuts) => Ok(cuts),
        None => Err(DossierError::Fault(BadDossier::Shape(3))),
    }
}
