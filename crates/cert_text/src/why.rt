//! Refutations as JSON values.
ghost use Rattle.std.specs.Prelude.{◌≡◌, ◌++◌, ◌∷◌, ◌<◌, ◌≤◌, length, map, OnOk, IfOk, Some, None};
ghost use Rattle.refute_rules.specs.Why.{why_of};
ghost use Rattle.certificate_rules.specs.WellFormed.{IsFormedRefutation};
ghost use Rattle.serde_json.specs.View.{view, items_of, items_view};
ghost use Rattle.cert_text.specs.Fields.{number_data, numbers_data, word_in, all_in};
ghost use Rattle.cert_text.specs.Ships.{ships_of};
ghost use Rattle.cert_text.specs.Cuts.{tree_refutation, tree_refutation_in, refutation_in, why_items, why_in};

use crate::ships::{push_bytes, push_ships, ships_of};
use crate::value::{byte_in, word_in};
use lock_model::Ships;
use refute_rules::{Marks, Quick, Refutation};
use serde_json::Value;
use std::alloc::{AllocError, Global};

/// Appends the numbers of a tree.
fn push_marks(list: &mut Vec<Value>, marks: &Marks) -> Result<(), AllocError>
    ensures reads_back { OnOk result (all_in word_in (items_of (map number_data marks.now)) ≡ Some marks.now) }
    ensures values { OnOk result (map view list.new.items ≡ map view list.old.items ++ map number_data marks.now) }
{
    push_words(list, marks.as_slice())
}

/// Appends numbers.
pub(crate) fn push_words(list: &mut Vec<Value>, numbers: &[u32]) -> Result<(), AllocError>
    ensures words { OnOk result (all_in word_in (items_of (map number_data numbers.now)) ≡ Some numbers.now) }
    ensures values { OnOk result (map view list.new.items ≡ map view list.old.items ++ map number_data numbers.now) }
{
    list.reserve(numbers.len())?;
    for number in numbers {
        list.push(Value::from(*number))?;
    }
    Ok(())
}

/// Appends the number of a kind and the numbers of a tree.
fn push_tree(list: &mut Vec<Value>, kind: u8, marks: &Marks) -> Result<(), AllocError>
    ensures reads_back { OnOk result (all_in word_in (items_of (map number_data marks.now)) ≡ Some marks.now) }
    ensures values { OnOk result (map view list.new.items ≡ map view list.old.items ++ map number_data (kind ∷ marks.now)) }
{
    push_bytes(list, &[kind])?;
    push_marks(list, marks)
}

/// Appends the number of a kind and one to eight places.
fn push_places(list: &mut Vec<Value>, kind: u8, places: &Ships) -> Result<(), AllocError>
    requires { 1 ≤ length places.now }
    ensures reads_back { OnOk result (ships_of (items_of (map number_data places.now)) ≡ Some places.now) }
    ensures values { OnOk result (map view list.new.items ≡ map view list.old.items ++ map number_data (kind ∷ places.now)) }
{
    push_bytes(list, &[kind])?;
    push_ships(list, places)
}

/// Appends the numbers of a refutation.
#[tactic(auto, using(crate::proofs::WhyLemmas::row_back, crate::proofs::WhyLemmas::column_back))]
fn push_numbers(list: &mut Vec<Value>, refutation: &Refutation) -> Result<(), AllocError>
    requires { IsFormedRefutation refutation.now }
    ensures reads_back { OnOk result (why_in (numbers_data (why_of refutation.now)) ≡ Some refutation.now) }
    ensures values { OnOk result (map view list.new.items ≡ map view list.old.items ++ map number_data (why_of refutation.now)) }
{
    match refutation {
        Refutation::Quick(Quick::Area) => push_bytes(list, &[0]),
        Refutation::Quick(Quick::Row(places)) => push_places(list, 1, places),
        Refutation::Quick(Quick::Column(places)) => push_places(list, 2, places),
        Refutation::Cases(marks) => push_tree(list, 3, marks),
        Refutation::Spots(marks) => push_tree(list, 4, marks),
        Refutation::Clash(first, second) => push_bytes(list, &[5, *first, *second]),
        Refutation::Berths(marks) => push_tree(list, 6, marks),
    }
}

/// The numbers of a refutation as a value.
pub fn put_why(alloc: Global, refutation: &Refutation) -> Result<Value, AllocError>
    requires { IsFormedRefutation refutation.now }
    ensures value { IfOk result (λ v. view v ≡ numbers_data (why_of refutation.now)) }
    ensures reads_back { IfOk result (λ v. why_in (view v) ≡ Some refutation.now) }
{
    let mut list = Vec::new(alloc);
    push_numbers(&mut list, refutation)?;
    Ok(Value::Array(list))
}

/// The numbers of a tree.
fn marks_in(alloc: Global, list: &[Value]) -> Result<Option<Marks>, AllocError>
    ensures { IfOk result (λ o. o ≡ all_in word_in (items_view list.now)) }
{
    let mut marks = Marks::new(alloc);
    for value in list {
        match word_in(value) {
            Some(mark) => marks.push(mark)?,
            None => return Ok(None),
        }
    }
    Ok(Some(marks))
}

/// No numbers after the kind: the reason of the area.
#[tactic(auto, using(crate::proofs::WhyLemmas::filled))]
fn area_in(list: &[Value]) -> Option<Refutation>
    ensures { result ≡ refutation_in 0 (items_view list.now) }
{
    if list.is_empty() {
        Some(Refutation::Quick(Quick::Area))
    } else {
        None
    }
}

/// The clash of two places, the lower one first.
#[tactic(auto, using(crate::proofs::WhyLemmas::no_pair))]
fn clash_in(list: &[Value]) -> Option<Refutation>
    ensures { result ≡ refutation_in 5 (items_view list.now) }
{
    let [first, second] = list else {
        return None;
    };
    let first = byte_in(first)?;
    let second = byte_in(second)?;
    if first < second {
        Some(Refutation::Clash(first, second))
    } else {
        None
    }
}

/// The reason of a row.
fn row_in(list: &[Value]) -> Option<Refutation>
    ensures { result ≡ refutation_in 1 (items_view list.now) }
{
    let ships = ships_of(list)?;
    Some(Refutation::Quick(Quick::Row(ships)))
}

/// The reason of a column.
fn column_in(list: &[Value]) -> Option<Refutation>
    ensures { result ≡ refutation_in 2 (items_view list.now) }
{
    let ships = ships_of(list)?;
    Some(Refutation::Quick(Quick::Column(ships)))
}

/// The refutation by a tree of this kind.
fn tree_refutation(kind: u64, marks: Marks) -> Option<Refutation>
    ensures { result ≡ tree_refutation kind marks }
{
    match kind {
        3 => Some(Refutation::Cases(marks)),
        4 => Some(Refutation::Spots(marks)),
        6 => Some(Refutation::Berths(marks)),
        _ => None,
    }
}

/// The refutation by a tree of this kind, with the numbers of the tree.
fn tree_refutation_in(
    alloc: Global,
    kind: u64,
    list: &[Value],
) -> Result<Option<Refutation>, AllocError>
    ensures { IfOk result (λ o. o ≡ tree_refutation_in kind (items_view list.now)) }
{
    match marks_in(alloc, list)? {
        Some(marks) => Ok(tree_refutation(kind, marks)),
        None => Ok(None),
    }
}

/// The refutation of this kind, with the numbers after it.
fn refutation_in(alloc: Global, kind: u64, list: &[Value]) -> Result<Option<Refutation>, AllocError>
    ensures { IfOk result (λ o. o ≡ refutation_in kind (items_view list.now)) }
{
    match kind {
        0 => Ok(area_in(list)),
        1 => Ok(row_in(list)),
        2 => Ok(column_in(list)),
        5 => Ok(clash_in(list)),
        3 | 4 | 6 => tree_refutation_in(alloc, kind, list),
        _ => Ok(None),
    }
}

/// The refutation of a list whose first number tells its kind.
fn why_items(alloc: Global, list: &[Value]) -> Result<Option<Refutation>, AllocError>
    ensures { IfOk result (λ o. o ≡ why_items (items_view list.now)) }
{
    let [first, rest @ ..] = list else {
        return Ok(None);
    };
    match first.as_u64() {
        Some(kind) => refutation_in(alloc, kind, rest),
        None => Ok(None),
    }
}

/// The refutation that a value lists as numbers.
pub fn why_in(alloc: Global, value: &Value) -> Result<Option<Refutation>, AllocError>
    ensures { IfOk result (λ o. o ≡ why_in (view value.now)) }
{
    match value.as_array() {
        Some(list) => why_items(alloc, list.as_slice()),
        None => Ok(None),
    }
}
