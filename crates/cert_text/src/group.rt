//! A chamber and its ships in the object of a cut or of a lockage.
ghost use Rattle.std.specs.Prelude.{◌≡◌, ◌≤◌, [], ◌∷◌, length, IfOk, Some, codes};
ghost use Rattle.serde_json.specs.View.{members_view};
ghost use Rattle.cert_text.specs.Fields.{number_data, numbers_data, members, byte_in};
ghost use Rattle.cert_text.specs.Ships.{ships_in};

use crate::ships::put_ships;
use crate::value::put_byte;
use lock_model::Ships;
use serde_json::{Map, Value};
use std::alloc::{AllocError, Global};

/// A chamber and one to eight ships, by their keys.
#[tactic(auto, unfolding(serde_json::proofs::OnLiterals::serde_json_on_literals))]
pub fn put_group(
    alloc: Global,
    chamber: u8,
    ships: &Ships,
) -> Result<Map<String, Value>, AllocError>
    requires { 1 ≤ length ships.now }
    ensures members { IfOk result (λ map. members_view map.entries ≡ members ((codes "chamber", number_data chamber) ∷ (codes "ships", numbers_data ships.now) ∷ [])) }
    ensures chamber_back { IfOk result (λ _. byte_in (number_data chamber) ≡ Some chamber) }
    ensures ships_back { IfOk result (λ _. ships_in (numbers_data ships.now) ≡ Some ships.now) }
{
    let mut map = Map::new(alloc);
    serde_json::put(&mut map, alloc, "chamber", put_byte(chamber))?;
    let ships = put_ships(alloc, ships)?;
    serde_json::put(&mut map, alloc, "ships", ships)?;
    Ok(map)
}
