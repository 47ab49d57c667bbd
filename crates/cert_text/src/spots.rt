//! Spots as JSON values.
ghost use Rattle.std.specs.Prelude.{◌≡◌, ◌≤◌, length, IfOk, Some, map};
ghost use Rattle.serde_json.specs.View.{view, items_of, items_view};
ghost use Rattle.cert_text.specs.Fields.{list_data, all_in};
ghost use Rattle.cert_text.specs.Plans.{rank_number, moor_number, rank_of, moor_of, rank_in, moor_in, spot_data, spot_items, spot_in, spots_items, spots_in};

use crate::value::{put_byte, put_word, word_in};
use lock_model::{MOST, Moor, Rank, Spot, Spots};
use serde_json::Value;
use std::alloc::{AllocError, Global};

/// The number of a rank.
fn rank_number(rank: Rank) -> u8
    ensures value { result ≡ rank_number rank }
    ensures reads_back { rank_of (rank_number rank) ≡ Some rank }
{
    match rank {
        Rank::Left => 0,
        Rank::Right => 1,
    }
}

/// The number of a mooring.
fn moor_number(moor: Moor) -> u32
    ensures value { result ≡ moor_number moor }
    ensures reads_back { moor_of (moor_number moor) ≡ Some moor }
{
    match moor {
        Moor::Quay => 0,
        Moor::Ship(host) => u32::from(host) + 1,
    }
}

/// A spot as a value.
fn put_spot(alloc: Global, spot: Spot) -> Result<Value, AllocError>
    ensures value { IfOk result (λ v. view v ≡ spot_data spot) }
    ensures reads_back { IfOk result (λ _. spot_in (spot_data spot) ≡ Some spot) }
{
    let x = put_word(spot.x);
    let y = put_word(spot.y);
    let rank = put_byte(rank_number(spot.rank));
    let moor = put_word(moor_number(spot.moor));
    let list = vec![in alloc; x, y, rank, moor]?;
    Ok(Value::Array(list))
}

/// The values of spots in order.
fn put_all(alloc: Global, spots: &[Spot]) -> Result<Vec<Value>, AllocError>
    ensures values { IfOk result (λ list. map view list.items ≡ map spot_data spots.now) }
    ensures reads_back { IfOk result (λ _. all_in spot_in (items_of (map spot_data spots.now)) ≡ Some spots.now) }
{
    let mut list = Vec::with_capacity(alloc, spots.len())?;
    for spot in spots {
        list.push(put_spot(alloc, *spot)?)?;
    }
    Ok(list)
}

/// Spots as a value.
pub fn put_spots(alloc: Global, spots: &Spots) -> Result<Value, AllocError>
    ensures value { IfOk result (λ v. view v ≡ list_data spot_data spots.now) }
    ensures reads_back { IfOk result (λ _. all_in spot_in (items_of (map spot_data spots.now)) ≡ Some spots.now) }
{
    let list = put_all(alloc, spots.as_slice())?;
    Ok(Value::Array(list))
}

/// The rank that a value writes.
fn rank_in(value: &Value) -> Option<Rank>
    ensures { result ≡ rank_in (view value.now) }
{
    match value.as_u64() {
        Some(0) => Some(Rank::Left),
        Some(1) => Some(Rank::Right),
        _ => None,
    }
}

/// The mooring that a value writes.
fn moor_in(value: &Value) -> Option<Moor>
    ensures { result ≡ moor_in (view value.now) }
{
    match value.as_u64() {
        Some(0) => Some(Moor::Quay),
        Some(number @ 1..=256) => Some(Moor::Ship((number - 1) as u8)),
        _ => None,
    }
}

/// The spot that four values write.
#[tactic(auto, using(crate::proofs::SpotLemmas::no_spot))]
fn spot_items(list: &[Value]) -> Option<Spot>
    ensures { result ≡ spot_items (items_view list.now) }
{
    let [x, y, rank, moor] = list else {
        return None;
    };
    match (word_in(x), word_in(y), rank_in(rank), moor_in(moor)) {
        (Some(x), Some(y), Some(rank), Some(moor)) => Some(Spot { x, y, rank, moor }),
        _ => None,
    }
}

/// The spot that a value lists.
fn spot_in(value: &Value) -> Option<Spot>
    ensures { result ≡ spot_in (view value.now) }
{
    match value.as_array() {
        Some(list) => spot_items(list.as_slice()),
        None => None,
    }
}

/// The spots that up to eight values list.
fn all_in(list: &[Value]) -> Option<Spots>
    requires { length list.now ≤ MOST }
    ensures { result ≡ all_in spot_in (items_view list.now) }
{
    let mut spots = Spots::new();
    for value in list {
        spots.push(spot_in(value)?);
    }
    Some(spots)
}

/// So many spots, if values list them.
fn spots_items(list: &[Value], count: usize) -> Option<Spots>
    requires { count ≤ MOST }
    ensures { result ≡ spots_items count (items_view list.now) }
{
    if list.len() != count {
        return None;
    }
    all_in(list)
}

/// So many spots, if a value lists them.
pub fn spots_in(value: &Value, count: usize) -> Option<Spots>
    requires { count ≤ MOST }
    ensures { result ≡ spots_in count (view value.now) }
{
    match value.as_array() {
        Some(list) => spots_items(list.as_slice(), count),
        None => None,
    }
}
