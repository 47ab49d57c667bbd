//! Numbers, lists and keys of JSON values.
ghost use Rattle.std.specs.Prelude.{◌≡◌, ◌++◌, ◌∷◌, [], Some, map, OnOk, codes};
ghost use Rattle.serde_json.specs.View.{view};
ghost use Rattle.cert_text.specs.Fields.{number_data, number_below, byte_in, word_in, has_members, value_at};

use serde_json::Value;
use std::alloc::AllocError;

/// A u8 as a value.
#[tactic(auto, using(crate::proofs::FieldLemmas::below_back))]
pub fn put_byte(number: u8) -> Value
    ensures value { view result ≡ number_data number }
    ensures reads_back { byte_in (number_data number) ≡ Some number }
{
    Value::from(number)
}

/// A u32 as a value.
#[tactic(auto, using(crate::proofs::FieldLemmas::below_back))]
pub fn put_word(number: u32) -> Value
    ensures value { view result ≡ number_data number }
    ensures reads_back { word_in (number_data number) ≡ Some number }
{
    Value::from(number)
}

/// Appends a number.
pub fn push_number(list: &mut Vec<Value>, number: u64) -> Result<(), AllocError>
    ensures { OnOk result (map view list.new.items ≡ map view list.old.items ++ number_data number ∷ []) }
{
    list.push(Value::from(number))?;
    Ok(())
}

/// The number below a bound that a value writes in digits alone.
pub fn number_below(value: &Value, bound: u64) -> Option<u64>
    ensures { result ≡ number_below bound (view value.now) }
{
    match value.as_u64() {
        Some(number) if number < bound => Some(number),
        _ => None,
    }
}

/// The u8 that a value writes in digits alone.
pub fn byte_in(value: &Value) -> Option<u8>
    ensures { result ≡ byte_in (view value.now) }
{
    let number = number_below(value, 256)?;
    Some(number as u8)
}

/// The u32 that a value writes in digits alone.
pub fn word_in(value: &Value) -> Option<u32>
    ensures { result ≡ word_in (view value.now) }
{
    let number = number_below(value, 4_294_967_296)?;
    Some(number as u32)
}

/// Whether a value is an object with so many keys.
pub fn has_members(value: &Value, count: usize) -> bool
    ensures { result ≡ has_members count (view value.now) }
{
    match value.as_object() {
        Some(map) => map.len() == count,
        None => false,
    }
}

/// The chamber at the key `chamber`.
pub fn chamber_at(value: &Value) -> Option<u8>
    ensures { result ≡ value_at (codes "chamber") byte_in (view value.now) }
{
    match value.get("chamber") {
        Some(chamber) => byte_in(chamber),
        None => None,
    }
}
