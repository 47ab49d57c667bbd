//! Triples of ships as JSON values.
ghost use Rattle.std.specs.Prelude.{◌≡◌, ◌≤◌, length, IfOk, Some, map, codes};
ghost use Rattle.serde_json.specs.View.{view, items_of, items_view};
ghost use Rattle.cert_text.specs.Fields.{all_in, value_at};
ghost use Rattle.cert_text.specs.Triples.{triple_data, triples_data, triple_items, triple_in, items_triples, triples_in};

use crate::value::{byte_in, put_byte, put_word, word_in};
use arrayvec::ArrayVec;
use price_rules::{TRIPLES, Triple};
use price_terms::Prices;
use serde_json::Value;
use std::alloc::{AllocError, Global};

/// A triple as a value.
fn put_triple(alloc: Global, triple: &Triple) -> Result<Value, AllocError>
    ensures value { IfOk result (λ v. view v ≡ triple_data triple.now) }
    ensures reads_back { IfOk result (λ _. triple_in (triple_data triple.now) ≡ Some triple.now) }
{
    let first = put_byte(triple.first);
    let second = put_byte(triple.second);
    let third = put_byte(triple.third);
    let price = put_word(triple.price);
    let list = vec![in alloc; first, second, third, price]?;
    Ok(Value::Array(list))
}

/// The values of triples in order.
fn put_all(alloc: Global, triples: &[Triple]) -> Result<Vec<Value>, AllocError>
    ensures values { IfOk result (λ list. map view list.items ≡ map triple_data triples.now) }
    ensures reads_back { IfOk result (λ _. all_in triple_in (items_of (map triple_data triples.now)) ≡ Some triples.now) }
{
    let mut list = Vec::with_capacity(alloc, triples.len())?;
    for triple in triples {
        list.push(put_triple(alloc, triple)?)?;
    }
    Ok(list)
}

/// Triples as a value.
pub fn put_triples(alloc: Global, triples: &[Triple]) -> Result<Value, AllocError>
    ensures value { IfOk result (λ v. view v ≡ triples_data triples.now) }
    ensures reads_back { IfOk result (λ _. all_in triple_in (items_of (map triple_data triples.now)) ≡ Some triples.now) }
{
    let list = put_all(alloc, triples)?;
    Ok(Value::Array(list))
}

/// The triple that four values write.
#[tactic(auto, using(crate::proofs::TripleLemmas::no_triple))]
fn triple_items(list: &[Value]) -> Option<Triple>
    ensures { result ≡ triple_items (items_view list.now) }
{
    let [first, second, third, price] = list else {
        return None;
    };
    match (
        byte_in(first),
        byte_in(second),
        byte_in(third),
        word_in(price),
    ) {
        (Some(first), Some(second), Some(third), Some(price)) => Some(Triple {
            first,
            second,
            third,
            price,
        }),
        _ => None,
    }
}

/// The triple that a value lists.
fn triple_in(value: &Value) -> Option<Triple>
    ensures { result ≡ triple_in (view value.now) }
{
    match value.as_array() {
        Some(list) => triple_items(list.as_slice()),
        None => None,
    }
}

/// The same prices of ships, and the 1 to `TRIPLES` triples that values write, if these are in order.
fn read_triples(prices: &Prices, list: &[Value]) -> Option<Prices>
    requires some { 1 ≤ length list.now }
    requires few { length list.now ≤ TRIPLES }
    ensures { result ≡ items_triples prices.now (items_view list.now) }
{
    let mut triples: ArrayVec<Triple, TRIPLES> = ArrayVec::new();
    for value in list {
        triples.push(triple_in(value)?);
    }
    prices.with_triples(triples.as_slice())
}

/// The same prices of ships, and the triples that values write, if these are 1 to `TRIPLES` and in order.
fn items_triples(prices: &Prices, list: &[Value]) -> Option<Prices>
    ensures { result ≡ items_triples prices.now (items_view list.now) }
{
    if list.is_empty() {
        return None;
    }
    if list.len() > TRIPLES {
        return None;
    }
    read_triples(prices, list)
}

/// The same prices of ships, and the triples that a value lists.
fn triples_in(prices: &Prices, value: &Value) -> Option<Prices>
    ensures { result ≡ triples_in prices.now (view value.now) }
{
    match value.as_array() {
        Some(list) => items_triples(prices, list.as_slice()),
        None => None,
    }
}

/// The same prices of ships, and the triples at the key `triples`, if these are 1 to `TRIPLES` and in order.
pub fn triples_at(prices: &Prices, value: &Value) -> Option<Prices>
    ensures { result ≡ value_at (codes "triples") (triples_in prices.now) (view value.now) }
{
    match value.get("triples") {
        Some(triples) => triples_in(prices, triples),
        None => None,
    }
}
