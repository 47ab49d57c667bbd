//! Lists of prices as JSON values.
ghost use Rattle.std.specs.Prelude.{◌≡◌, ◌≤◌, length, IfOk, IfErr, Some, None, map, codes};
ghost use Rattle.serde_json.specs.View.{view, items_of, items_view};
ghost use Rattle.cert_text.specs.Answers.{IsCausedFault};
ghost use Rattle.cert_text.specs.Fields.{numbers_data, all_in, value_at};
ghost use Rattle.cert_text.specs.Triples.{triple_data, triple_in};
ghost use Rattle.cert_text.specs.Prices.{keyed_data, prices_data, price_lists_data, AreListsBack};
ghost use Rattle.cert_text.specs.Prices.{items_prices, ship_prices_in, keyed_prices, prices_in, price_lists_in, prices_under};
ghost use Rattle.cert_text.specs.declared.bad.BadDossier.TheVariants.{Shape};

use crate::bad::{BadDossier, DossierError};
use crate::heading::Version;
use crate::triples::{put_triples, triples_at};
use crate::value::{has_members, number_below};
use crate::version::{has_prices, has_triples};
use crate::why::push_words;
use arrayvec::ArrayVec;
use certificate_parts::PriceLists;
use kept_prices::KeptPrices;
use lock_model::SHIPS;
use no_memory::NoMemory;
use price_rules::Triple;
use price_terms::Prices;
use serde_json::{Map, Value};
use std::alloc::{AllocError, Global};

/// Prices of ships as a value.
fn put_ship_prices(alloc: Global, prices: &[u32]) -> Result<Value, AllocError>
    ensures { IfOk result (λ v. view v ≡ numbers_data prices.now) }
{
    let mut list = Vec::new(alloc);
    push_words(&mut list, prices)?;
    Ok(Value::Array(list))
}

/// Prices of ships and of triples as an object.
#[tactic(auto, unfolding(serde_json::proofs::OnLiterals::serde_json_on_literals))]
fn put_keyed(alloc: Global, prices: &[u32], triples: &[Triple]) -> Result<Value, AllocError>
    ensures value { IfOk result (λ v. view v ≡ keyed_data (record { ships = prices.now; triples = triples.now })) }
    ensures reads_back { IfOk result (λ _. all_in triple_in (items_of (map triple_data triples.now)) ≡ Some triples.now) }
{
    let mut map = Map::new(alloc);
    let ships = put_ship_prices(alloc, prices)?;
    serde_json::put(&mut map, alloc, "ships", ships)?;
    let triples = put_triples(alloc, triples)?;
    serde_json::put(&mut map, alloc, "triples", triples)?;
    Ok(Value::Object(map))
}

/// Prices as a value: a list where there are no triples.
fn put_one(alloc: Global, prices: &[u32], triples: &[Triple]) -> Result<Value, AllocError>
    ensures value { IfOk result (λ v. view v ≡ prices_data (record { ships = prices.now; triples = triples.now })) }
    ensures reads_back { IfOk result (λ _. all_in triple_in (items_of (map triple_data triples.now)) ≡ Some triples.now) }
{
    if triples.is_empty() {
        put_ship_prices(alloc, prices)
    } else {
        put_keyed(alloc, prices, triples)
    }
}

/// The values of prices in order.
fn put_all(alloc: Global, prices: &[KeptPrices]) -> Result<Vec<Value>, AllocError>
    ensures values { IfOk result (λ list. map view list.items ≡ map prices_data prices.now) }
    ensures reads_back { IfOk result (λ _. AreListsBack prices.now) }
{
    let mut list = Vec::with_capacity(alloc, prices.len())?;
    for own in prices {
        list.push(put_one(alloc, own.ships(), own.triples())?)?;
    }
    Ok(list)
}

/// Prices as a value that `prices_at` reads back where each list may be so long.
pub(crate) fn put_prices(alloc: Global, prices: &[KeptPrices]) -> Result<Value, AllocError>
    ensures value { IfOk result (λ v. view v ≡ price_lists_data prices.now) }
    ensures reads_back { IfOk result (λ _. AreListsBack prices.now) }
{
    let list = put_all(alloc, prices)?;
    Ok(Value::Array(list))
}

/// The prices of ships that 1 to `most` values write.
fn read_prices(most: usize, list: &[Value]) -> Option<Prices>
    requires fits { most ≤ SHIPS }
    requires some { 1 ≤ length list.now }
    requires few { length list.now ≤ most }
    ensures { result ≡ items_prices most (items_view list.now) }
{
    let mut prices: ArrayVec<u32, SHIPS> = ArrayVec::new();
    for value in list {
        let price = number_below(value, 1_000_001)?;
        prices.push(price as u32);
    }
    Prices::new(prices.as_slice())
}

/// The prices of ships that values write, if they are 1 to `most`.
fn items_prices(most: usize, list: &[Value]) -> Option<Prices>
    requires { most ≤ SHIPS }
    ensures { result ≡ items_prices most (items_view list.now) }
{
    if list.is_empty() {
        return None;
    }
    if list.len() > most {
        return None;
    }
    read_prices(most, list)
}

/// The prices of ships that a value lists.
fn ship_prices_in(most: usize, value: &Value) -> Option<Prices>
    requires { most ≤ SHIPS }
    ensures { result ≡ ship_prices_in most (view value.now) }
{
    match value.as_array() {
        Some(list) => items_prices(most, list.as_slice()),
        None => None,
    }
}

/// The prices of ships at the key `ships`.
fn ship_prices_at(most: usize, value: &Value) -> Option<Prices>
    requires { most ≤ SHIPS }
    ensures { result ≡ value_at (codes "ships") (ship_prices_in most) (view value.now) }
{
    match value.get("ships") {
        Some(ships) => ship_prices_in(most, ships),
        None => None,
    }
}

/// The prices of ships and of triples at their keys.
fn keyed_prices(most: usize, value: &Value) -> Option<Prices>
    requires { most ≤ SHIPS }
    ensures { result ≡ keyed_prices most (view value.now) }
{
    let prices = ship_prices_at(most, value)?;
    triples_at(&prices, value)
}

/// The prices that a value writes as a list, or in a version that has triples as an object.
fn prices_in(most: usize, version: Version, value: &Value) -> Option<Prices>
    requires { most ≤ SHIPS }
    ensures { result ≡ prices_in most version (view value.now) }
{
    if has_triples(version) && has_members(value, 2) {
        keyed_prices(most, value)
    } else {
        ship_prices_in(most, value)
    }
}

/// The prices that a value writes, to be kept.
fn kept_in(
    alloc: Global,
    most: usize,
    version: Version,
    value: &Value,
) -> Result<Option<KeptPrices>, NoMemory>
    requires { most ≤ SHIPS }
    ensures { IfOk result (λ o. o ≡ prices_in most version (view value.now)) }
{
    match prices_in(most, version, value) {
        Some(prices) => Ok(Some(KeptPrices::of(alloc, &prices)?)),
        None => Ok(None),
    }
}

/// The lists of prices that values write.
fn all_in(
    alloc: Global,
    most: usize,
    version: Version,
    list: &[Value],
) -> Result<Option<PriceLists>, NoMemory>
    requires { most ≤ SHIPS }
    ensures { IfOk result (λ o. o ≡ all_in (prices_in most version) (items_view list.now)) }
{
    let mut found = PriceLists::new(alloc);
    for value in list {
        match kept_in(alloc, most, version, value)? {
            Some(prices) => found.push(prices)?,
            None => return Ok(None),
        }
    }
    Ok(Some(found))
}

/// The lists of prices that a value lists.
fn price_lists_in(
    alloc: Global,
    most: usize,
    version: Version,
    value: &Value,
) -> Result<Option<PriceLists>, NoMemory>
    requires { most ≤ SHIPS }
    ensures { IfOk result (λ o. o ≡ price_lists_in most version (view value.now)) }
{
    match value.as_array() {
        Some(list) => all_in(alloc, most, version, list.as_slice()),
        None => Ok(None),
    }
}

/// The lists of prices at the key `prices`.
fn own_prices(
    alloc: Global,
    most: usize,
    version: Version,
    value: &Value,
) -> Result<Option<PriceLists>, NoMemory>
    requires { most ≤ SHIPS }
    ensures { IfOk result (λ o. o ≡ value_at (codes "prices") (price_lists_in most version) (view value.now)) }
{
    match value.get("prices") {
        Some(prices) => price_lists_in(alloc, most, version, prices),
        None => Ok(None),
    }
}

/// The lists of prices of a version, which are none where it has no prices.
fn prices_under(
    alloc: Global,
    most: usize,
    version: Version,
    value: &Value,
) -> Result<Option<PriceLists>, NoMemory>
    requires { most ≤ SHIPS }
    ensures { IfOk result (λ o. o ≡ prices_under most version (view value.now)) }
{
    if has_prices(version) {
        own_prices(alloc, most, version, value)
    } else {
        Ok(Some(PriceLists::new(alloc)))
    }
}

/// The lists of prices at the key `prices`, each of 1 to `most` numbers up to 1,000,000, and in a version
/// that has them of triples in order besides; none where the version has no prices. Answers `Shape(6)`
/// exactly where there are no such lists, or else want of memory. Inlined, what it needs would be on the stack
/// while the other parts are read.
#[inline(never)]
pub fn prices_at(
    alloc: Global,
    most: usize,
    version: Version,
    value: &Value,
) -> Result<PriceLists, DossierError>
    requires { most ≤ SHIPS }
    ensures read { IfOk result (λ prices. prices_under most version (view value.now) ≡ Some prices) }
    ensures shape { IfErr result (IsCausedFault (Shape 6) (prices_under most version (view value.now) ≡ None)) }
{
    match prices_under(alloc, most, version, value)? {
        Some(prices) => Ok(prices),
        None => Err(DossierError::Fault(BadDossier::Shape(6))),
    }
}
