//! The object of a certificate from its parts.
ghost use Rattle.std.specs.Prelude.{◌≡◌, [], ◌∷◌, All, IfOk, Some, true, codes};
ghost use Rattle.certificate_rules.specs.WellFormed.{IsFormedCut, IsFormedLockage};
ghost use Rattle.serde_json.specs.View.{view, members_view};
ghost use Rattle.cert_text.specs.Fields.{members};
ghost use Rattle.cert_text.specs.Cuts.{cuts_data, cuts_in};
ghost use Rattle.cert_text.specs.Plans.{plan_data, IsPlanBack};
ghost use Rattle.cert_text.specs.Prices.{AreListsBack};
ghost use Rattle.cert_text.specs.Versions.{has_prices};
ghost use Rattle.cert_text.specs.Certificates.{claim_members, parts_data};

use crate::cost::put_cost;
use crate::cuts::put_cuts;
use crate::heading::Version;
use crate::plan::put_plan;
use crate::prices::put_prices;
use crate::version::has_prices;
use certificate_parts::CertCuts;
use kept_prices::KeptPrices;
use lock_model::Plan;
use no_memory::NoMemory;
use serde_json::{Map, Value};
use std::alloc::Global;

/// What a certificate has besides its marks: its cost in minutes, its cuts, its plan and its prices.
#[derive(Drop)]
pub struct Parts<'a> {
    pub cost: u64,
    pub cuts: &'a CertCuts,
    pub plan: &'a Plan,
    pub prices: &'a [KeptPrices],
}

/// The cost and the cuts, by their keys.
#[tactic(auto, unfolding(serde_json::proofs::OnLiterals::serde_json_on_literals))]
fn put_claims(alloc: Global, parts: &Parts) -> Result<Map<String, Value>, NoMemory>
    requires { All IsFormedCut parts.now.cuts.now }
    ensures members { IfOk result (λ map. members_view map.entries ≡ members (claim_members parts.now.cost parts.now.cuts.now [])) }
    ensures cuts_back { IfOk result (λ _. cuts_in (cuts_data parts.now.cuts.now) ≡ Some parts.now.cuts.now) }
{
    let mut map = Map::new(alloc);
    let cost = put_cost(parts.cost)?;
    serde_json::put(&mut map, alloc, "cost", cost)?;
    let cuts = put_cuts(alloc, parts.cuts)?;
    serde_json::put(&mut map, alloc, "cuts", cuts)?;
    Ok(map)
}

/// The cost, the cuts and the plan, by their keys.
#[tactic(auto, unfolding(serde_json::proofs::OnLiterals::serde_json_on_literals))]
fn put_members(alloc: Global, parts: &Parts) -> Result<Map<String, Value>, NoMemory>
    requires cuts { All IsFormedCut parts.now.cuts.now }
    requires lockages { All IsFormedLockage parts.now.plan.now.lockages }
    ensures members { IfOk result (λ map. members_view map.entries
        ≡ members (claim_members parts.now.cost parts.now.cuts.now ((codes "plan", plan_data parts.now.plan.now) ∷ []))) }
    ensures cuts_back { IfOk result (λ _. cuts_in (cuts_data parts.now.cuts.now) ≡ Some parts.now.cuts.now) }
    ensures plan_back { IfOk result (λ _. IsPlanBack parts.now.plan.now) }
{
    let mut map = put_claims(alloc, parts)?;
    let plan = put_plan(alloc, parts.plan)?;
    serde_json::put(&mut map, alloc, "plan", plan)?;
    Ok(map)
}

/// The object of a version with these parts and this tree. Its only refusal is want of memory.
#[tactic(auto, unfolding(serde_json::proofs::OnLiterals::serde_json_on_literals))]
pub fn put_parts(
    alloc: Global,
    version: Version,
    parts: &Parts,
    tree: Value,
) -> Result<Value, NoMemory>
    requires cuts { All IsFormedCut parts.now.cuts.now }
    requires lockages { All IsFormedLockage parts.now.plan.now.lockages }
    ensures value { IfOk result (λ v. view v ≡ parts_data version parts.now.cost parts.now.cuts.now parts.now.plan.now parts.now.prices.now (view tree)) }
    ensures cuts_back { IfOk result (λ _. cuts_in (cuts_data parts.now.cuts.now) ≡ Some parts.now.cuts.now) }
    ensures plan_back { IfOk result (λ _. IsPlanBack parts.now.plan.now) }
    ensures prices_back { IfOk result (λ _. has_prices version ≡ true → AreListsBack parts.now.prices.now) }
{
    let mut map = put_members(alloc, parts)?;
    serde_json::put(&mut map, alloc, "tree", tree)?;
    if has_prices(version) {
        let prices = put_prices(alloc, parts.prices)?;
        serde_json::put(&mut map, alloc, "prices", prices)?;
    }
    Ok(Value::Object(map))
}
