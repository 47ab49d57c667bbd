//! The cost of a certificate as a JSON value.
ghost use Rattle.std.specs.Prelude.{◌≡◌, Some, None, IfOk, IfErr};
ghost use Rattle.serde_json.specs.View.{view};
ghost use Rattle.cert_text.specs.Cost.{cost_data, cost_in};
ghost use Rattle.cert_text.specs.declared.bad.BadDossier.TheVariants.{Shape};

use crate::bad::BadDossier;
use no_memory::NoMemory;
use serde_json::Value;

/// The cost, in minutes, as a value that `cost_of` reads back. `specs/Cost` says which value it
/// is. Takes no memory.
pub fn put_cost(cost: u64) -> Result<Value, NoMemory>
    ensures value { IfOk result (λ v. view v ≡ cost_data cost) }
    ensures reads_back { IfOk result (λ v. cost_in (view v) ≡ Some cost) }
{
    Ok(Value::from(cost))
}

/// The cost, in minutes, that a value writes in digits alone. Answers `Shape(2)` exactly where the
/// value is no cost. Takes no memory.
pub fn cost_of(value: &Value) -> Result<u64, BadDossier>
    ensures read { IfOk result (λ cost. cost_in (view value.now) ≡ Some cost) }
    ensures shape { IfErr result (λ f. (f ≡ Shape 2) × (cost_in (view value.now) ≡ None)) }
{
    value.as_u64().ok_or(BadDossier::Shape(2))
}
