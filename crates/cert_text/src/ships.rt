//! Lists of ships as JSON values.
ghost use Rattle.std.specs.Prelude.{◌≡◌, ◌++◌, ◌<◌, ◌≤◌, length, map, OnOk, IfOk, Some, codes};
ghost use Rattle.serde_json.specs.View.{view, items_of, items_view};
ghost use Rattle.cert_text.specs.Fields.{number_data, numbers_data, byte_in, all_in, value_at};
ghost use Rattle.cert_text.specs.Ships.{ships_of, ships_in};

use crate::value::byte_in;
use lock_model::{MOST, Ships};
use serde_json::Value;
use std::alloc::{AllocError, Global};

/// Appends numbers.
pub fn push_bytes(list: &mut Vec<Value>, numbers: &[u8]) -> Result<(), AllocError>
    ensures bytes { OnOk result (all_in byte_in (items_of (map number_data numbers.now)) ≡ Some numbers.now) }
    ensures values { OnOk result (map view list.new.items ≡ map view list.old.items ++ map number_data numbers.now) }
{
    list.reserve(numbers.len())?;
    for number in numbers {
        list.push(Value::from(*number))?;
    }
    Ok(())
}

/// Appends the numbers of one to eight ships.
#[tactic(auto, using(crate::proofs::ShipLemmas::ships_back))]
pub fn push_ships(list: &mut Vec<Value>, ships: &Ships) -> Result<(), AllocError>
    requires { 1 ≤ length ships.now }
    ensures reads_back { OnOk result (ships_of (items_of (map number_data ships.now)) ≡ Some ships.now) }
    ensures values { OnOk result (map view list.new.items ≡ map view list.old.items ++ map number_data ships.now) }
{
    push_bytes(list, ships.as_slice())
}

/// One to eight ships as a value.
pub fn put_ships(alloc: Global, ships: &Ships) -> Result<Value, AllocError>
    requires { 1 ≤ length ships.now }
    ensures value { IfOk result (λ v. view v ≡ numbers_data ships.now) }
    ensures reads_back { IfOk result (λ v. ships_in (view v) ≡ Some ships.now) }
{
    let mut list = Vec::new(alloc);
    push_ships(&mut list, ships)?;
    Ok(Value::Array(list))
}

/// The ships that values write, if they are one to eight and rise.
pub fn ships_of(list: &[Value]) -> Option<Ships>
    ensures { result ≡ ships_of (items_view list.now) }
{
    if list.is_empty() {
        return None;
    }
    if list.len() > MOST {
        return None;
    }
    read_ships(list)
}

/// The ships that one to eight values write, if they rise.
fn read_ships(list: &[Value]) -> Option<Ships>
    requires some { 1 ≤ length list.now }
    requires few { length list.now ≤ MOST }
    ensures { result ≡ ships_of (items_view list.now) }
{
    let mut ships = Ships::new();
    let mut low: u16 = 0;
    for value in list {
        let ship = byte_in(value)?;
        if u16::from(ship) < low {
            return None;
        }
        ships.push(ship);
        low = u16::from(ship) + 1;
    }
    Some(ships)
}

/// The ships that a value lists, if they are one to eight and rise.
pub fn ships_in(value: &Value) -> Option<Ships>
    ensures { result ≡ ships_in (view value.now) }
{
    match value.as_array() {
        Some(list) => ships_of(list.as_slice()),
        None => None,
    }
}

/// The ships at the key `ships`, if they are one to eight and rise.
pub fn ships_at(value: &Value) -> Option<Ships>
    ensures { result ≡ value_at (codes "ships") ships_in (view value.now) }
{
    match value.get("ships") {
        Some(ships) => ships_in(ships),
        None => None,
    }
}
