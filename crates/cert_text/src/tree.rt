//! Trees of marks as JSON values.
ghost use Rattle.std.specs.Prelude.{◌≡◌, ◌++◌, All, IfOk, IfErr, OnOk, Some, None, map, codes};
ghost use Rattle.std.specs.List.{flat_map};
ghost use Rattle.serde_json.specs.View.{view, items_view};
ghost use Rattle.cert_text.specs.Answers.{IsCausedFault};
ghost use Rattle.cert_text.specs.Fields.{number_data, value_at};
ghost use Rattle.certificate_rules.specs.WellFormed.{IsFormedMark};
ghost use Rattle.cert_text.specs.Marks.{mark_numbers, mark_in};
ghost use Rattle.cert_text.specs.Trees.{listed, begun_behind, marks_in, tree_data, tree_in};
ghost use Rattle.cert_text.specs.declared.bad.BadDossier.TheVariants.{Shape};

use crate::bad::{BadDossier, DossierError};
use crate::heading::{Form, Version};
use crate::marks::{PriceMark, Told, mark_in, push_mark};
use certificate_parts::{Mark, MarkList};
use certificate_rules::Numbering;
use serde_json::Value;
use std::alloc::{AllocError, Global};

/// The numbers of marks in order.
fn put_all(alloc: Global, numbering: Numbering, marks: &[Mark]) -> Result<Vec<Value>, AllocError>
    requires { All (IsFormedMark numbering) marks.now }
    ensures { IfOk result (λ list. map view list.items ≡ map number_data (flat_map (mark_numbers numbering) marks.now)) }
{
    let mut list = Vec::with_capacity(alloc, marks.len())?;
    for mark in marks {
        push_mark(&mut list, numbering, *mark)?;
    }
    Ok(list)
}

/// The marks of a tree as a value.
pub fn put_tree(alloc: Global, numbering: Numbering, tree: &MarkList) -> Result<Value, AllocError>
    requires { All (IsFormedMark numbering) tree.now }
    ensures { IfOk result (λ v. view v ≡ tree_data (mark_numbers numbering) tree.now) }
{
    let list = put_all(alloc, numbering, tree.as_slice())?;
    Ok(Value::Array(list))
}

/// Appends the mark that a number ends, if it does.
fn push_told(tree: &mut MarkList, told: Told) -> Result<(), AllocError>
    ensures { OnOk result (tree.new ≡ tree.old ++ listed told) }
{
    match told {
        Told::Ended(mark) => tree.push(mark),
        Told::Begun(_) => Ok(()),
    }
}

/// The mark of two numbers that a number begins, if it does.
fn begun_behind(told: Told) -> Option<PriceMark>
    ensures { result ≡ begun_behind told }
{
    match told {
        Told::Ended(_) => None,
        Told::Begun(kind) => Some(kind),
    }
}

/// The marks that values say.
fn marks_in(
    alloc: Global,
    form: Form,
    numbering: Numbering,
    version: Version,
    list: &[Value],
) -> Result<Option<MarkList>, AllocError>
    ensures { IfOk result (λ o. o ≡ marks_in (mark_in form numbering version) None (items_view list.now)) }
{
    let mut tree = MarkList::with_capacity(alloc, list.len())?;
    let mut begun = None;
    for value in list {
        let Some(told) = mark_in(form, numbering, version, begun, value) else {
            return Ok(None);
        };
        begun = begun_behind(told);
        push_told(&mut tree, told)?;
    }
    if begun.is_some() {
        return Ok(None);
    }
    Ok(Some(tree))
}

/// The marks that a value lists.
fn tree_in(
    alloc: Global,
    form: Form,
    numbering: Numbering,
    version: Version,
    value: &Value,
) -> Result<Option<MarkList>, AllocError>
    ensures { IfOk result (λ o. o ≡ tree_in (mark_in form numbering version) (view value.now)) }
{
    match value.as_array() {
        Some(list) => marks_in(alloc, form, numbering, version, list.as_slice()),
        None => Ok(None),
    }
}

/// The marks that a value lists, or the fault of the fifth part.
fn tree_of(
    alloc: Global,
    form: Form,
    numbering: Numbering,
    version: Version,
    value: &Value,
) -> Result<MarkList, DossierError>
    ensures read { IfOk result (λ tree. tree_in (mark_in form numbering version) (view value.now) ≡ Some tree) }
    ensures shape { IfErr result (IsCausedFault (Shape 5) (tree_in (mark_in form numbering version) (view value.now) ≡ None)) }
{
    match tree_in(alloc, form, numbering, version, value)? {
        Some(tree) => Ok(tree),
        None => Err(DossierError::Fault(BadDossier::Shape(5))),
    }
}

/// The marks of a version at the key `tree`. Answers `Shape(5)` exactly where there are none, or else want
/// of memory.
pub fn tree_at(
    alloc: Global,
    form: Form,
    numbering: Numbering,
    version: Version,
    value: &Value,
) -> Result<MarkList, DossierError>
    ensures read { IfOk result (λ tree. value_at (codes "tree") (tree_in (mark_in form numbering version)) (view value.now) ≡ Some tree) }
    ensures shape { IfErr result (IsCausedFault (Shape 5) (value_at (codes "tree") (tree_in (mark_in form numbering version)) (view value.now) ≡ None)) }
{
    match value.get("tree") {
        Some(tree) => tree_of(alloc, form, numbering, version, tree),
        None => Err(DossierError::Fault(BadDossier::Shape(5))),
    }
}
