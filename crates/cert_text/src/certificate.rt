//! Certificates as JSON values.
ghost use Rattle.std.specs.Prelude.{◌≡◌, ◌≤◌, IfOk, IfErr, Some, None, Ok, codes};
ghost use Rattle.certificate_rules.specs.WellFormed.{IsWellFormed};
ghost use Rattle.serde_json.specs.View.{view};
ghost use Rattle.cert_text.specs.Answers.{IsCausedFault, IsFault};
ghost use Rattle.cert_text.specs.Steps.{fault_under};
ghost use Rattle.cert_text.specs.Fields.{value_at};
ghost use Rattle.cert_text.specs.Cost.{cost_in};
ghost use Rattle.cert_text.specs.Cuts.{cuts_under};
ghost use Rattle.cert_text.specs.Plans.{plan_in};
ghost use Rattle.cert_text.specs.Marks.{AreOf};
ghost use Rattle.cert_text.specs.Versions.{version_of};
ghost use Rattle.cert_text.specs.Certificates.{certificate_data, has_keys, is_frame, front_in, certificate_in, IsReadBack};
ghost use Rattle.cert_text.specs.declared.bad.BadDossier.TheVariants.{Shape};

use crate::bad::{BadDossier, DossierError};
use crate::cost::cost_of;
use crate::cuts::cuts_of;
use crate::heading::{Form, Version};
use crate::marks::numbering_of;
use crate::parts::{Parts, put_parts};
use crate::plan::plan_of;
use crate::prices::prices_at;
use crate::tree::{put_tree, tree_at};
use crate::value::has_members;
use crate::version::{has_outside, has_prices};
use certificate_parts::{CertCuts, Certificate, MarkList, PriceLists};
use lock_model::{Instance, Plan, SHIPS};
use no_memory::NoMemory;
use serde_json::Value;
use std::alloc::Global;

/// A certificate of an instance as a value, in its version.
pub fn put_certificate(
    alloc: Global,
    form: Form,
    instance: &Instance,
    version: Version,
    certificate: &Certificate,
) -> Result<Value, NoMemory>
    requires formed { IsWellFormed instance.now certificate.now }
    requires own { AreOf form certificate.now.tree }
    requires version { version ≡ version_of form certificate.now }
    ensures value { IfOk result (λ v. view v ≡ certificate_data form instance.now.ships certificate.now) }
    ensures reads_back { IfOk result (λ _. IsReadBack form instance.now.ships version certificate.now) }
{
    let tree = put_tree(alloc, numbering_of(instance), &certificate.tree)?;
    let parts = Parts {
        cost: certificate.cost,
        cuts: &certificate.cuts,
        plan: &certificate.plan,
        prices: certificate.prices.as_slice(),
    };
    let value = put_parts(alloc, version, &parts, tree)?;
    Ok(value)
}

/// Whether a value has the four keys that each certificate has.
fn has_keys(value: &Value) -> bool
    ensures { result ≡ has_keys (view value.now) }
{
    value.get("cost").is_some()
        && value.get("cuts").is_some()
        && value.get("plan").is_some()
        && value.get("tree").is_some()
}

/// Whether a value is an object of the four keys of a certificate, or of the five of one that has prices.
/// Takes no memory.
fn is_frame(version: Version, value: &Value) -> bool
    ensures { result ≡ is_frame version (view value.now) }
{
    if has_prices(version) {
        has_members(value, 5) && (has_keys(value) && value.get("prices").is_some())
    } else {
        has_members(value, 4) && has_keys(value)
    }
}

/// The cost, in minutes, at the key `cost`. Answers `Shape(2)` exactly where there is none. Takes no
/// memory.
fn cost_at(value: &Value) -> Result<u64, BadDossier>
    ensures read { IfOk result (λ cost. value_at (codes "cost") cost_in (view value.now) ≡ Some cost) }
    ensures shape { IfErr result (λ f. (f ≡ Shape 2) × (value_at (codes "cost") cost_in (view value.now) ≡ None)) }
{
    match value.get("cost") {
        Some(cost) => cost_of(cost),
        None => Err(BadDossier::Shape(2)),
    }
}

/// The cuts that a value lists, none with a refutation of a later version.
fn cuts_under(alloc: Global, version: Version, value: &Value) -> Result<CertCuts, DossierError>
    ensures read { IfOk result (λ cuts. cuts_under version (view value.now) ≡ Some cuts) }
    ensures shape { IfErr result (IsCausedFault (Shape 3) (cuts_under version (view value.now) ≡ None)) }
{
    let cuts = cuts_of(alloc, value)?;
    if has_outside(version, &cuts) {
        Err(DossierError::Fault(BadDossier::Shape(3)))
    } else {
        Ok(cuts)
    }
}

/// The cuts at the key `cuts`, none with a refutation of a later version. Answers `Shape(3)` exactly
/// where these are none, or else want of memory.
fn cuts_at(alloc: Global, version: Version, value: &Value) -> Result<CertCuts, DossierError>
    ensures read { IfOk result (λ cuts. value_at (codes "cuts") (cuts_under version) (view value.now) ≡ Some cuts) }
    ensures shape { IfErr result (IsCausedFault (Shape 3) (value_at (codes "cuts") (cuts_under version) (view value.now) ≡ None)) }
{
    match value.get("cuts") {
        Some(cuts) => cuts_under(alloc, version, cuts),
        None => Err(DossierError::Fault(BadDossier::Shape(3))),
    }
}

/// The plan of up to `most` lockages at the key `plan`. Answers `Shape(4)` exactly where there is none, or
/// else want of memory.
fn plan_at(alloc: Global, most: usize, value: &Value) -> Result<Box<Plan>, DossierError>
    requires { most ≤ SHIPS }
    ensures read { IfOk result (λ plan. value_at (codes "plan") (plan_in most) (view value.now) ≡ Some plan.value) }
    ensures shape { IfErr result (IsCausedFault (Shape 4) (value_at (codes "plan") (plan_in most) (view value.now) ≡ None)) }
{
    match value.get("plan") {
        Some(plan) => plan_of(alloc, most, plan),
        None => Err(DossierError::Fault(BadDossier::Shape(4))),
    }
}

/// The parts of a certificate that come before its tree.
#[derive(Drop)]
struct Front {
    cost: u64,
    cuts: CertCuts,
    plan: Box<Plan>,
}

/// The parts that come before the tree in a value of a version, or the first one at fault.
#[tactic(auto, unfolding(crate::specs::Certificates::front_in))]
fn front_in(
    alloc: Global,
    instance: &Instance,
    version: Version,
    value: &Value,
) -> Result<Front, DossierError>
    ensures read { IfOk result (λ f. front_in instance.now.ships version (view value.now) ≡ Ok (record { cost = f.cost; cuts = f.cuts; plan = f.plan.value })) }
    ensures shape { IfErr result (IsFault (fault_under Shape (front_in instance.now.ships version (view value.now)))) }
{
    if !is_frame(version, value) {
        return Err(DossierError::Fault(BadDossier::Shape(1)));
    }
    let cost = cost_at(value)?;
    let cuts = cuts_at(alloc, version, value)?;
    let plan = plan_at(alloc, instance.most_lockages(), value)?;
    Ok(Front { cost, cuts, plan })
}

/// These parts as a certificate, in a box. On its way there it takes some stack, which is free again then.
#[inline(never)]
fn put_together(
    alloc: Global,
    front: Front,
    prices: PriceLists,
    tree: MarkList,
) -> Result<Box<Certificate>, NoMemory>
    ensures { IfOk result (λ c. c.value ≡ record { cost = front.cost; cuts = front.cuts; plan = front.plan.value; prices = prices; tree = tree }) }
{
    let Front { cost, cuts, plan } = front;
    let certificate = Certificate {
        cost,
        cuts,
        plan: Box::into_inner(plan),
        prices,
        tree,
    };
    match Box::new(alloc, certificate) {
        Ok(certificate) => Ok(certificate),
        Err(_) => Err(NoMemory),
    }
}

/// The certificate of this form, of the instance, that a value writes, in a box as its plan is; or the first
/// part at fault.
#[tactic(auto, unfolding(crate::specs::Certificates::certificate_in), using(crate::proofs::CertificateLemmas::front_fault))]
pub fn certificate_in(
    alloc: Global,
    form: Form,
    instance: &Instance,
    version: Version,
    value: &Value,
) -> Result<Box<Certificate>, DossierError>
    ensures read { IfOk result (λ c. certificate_in form instance.now.ships version (view value.now) ≡ Ok c.value) }
    ensures shape { IfErr result (IsFault (fault_under Shape (certificate_in form instance.now.ships version (view value.now)))) }
{
    let front = front_in(alloc, instance, version, value)?;
    let tree = tree_at(alloc, form, numbering_of(instance), version, value)?;
    let prices = prices_at(alloc, instance.most_lockages(), version, value)?;
    Ok(put_together(alloc, front, prices, tree)?)
}
