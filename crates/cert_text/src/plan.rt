//! Plans as JSON values.
ghost use Rattle.std.specs.Prelude.{◌≡◌, ◌≤◌, [], All, length, IfOk, IfErr, IfSome, IfNone, Some, None, map, codes};
ghost use Rattle.certificate_rules.specs.WellFormed.{IsFormedLockage};
ghost use Rattle.serde_json.specs.View.{view, items_of, items_view};
ghost use Rattle.cert_text.specs.Answers.{IsCausedFault};
ghost use Rattle.cert_text.specs.Fields.{word_in, all_in, value_at};
ghost use Rattle.cert_text.specs.Plans.{way_number, way_of, way_in, spots_in, lockage_data, plan_data, lockage_in, plan_items, plan_in, IsPlanBack};
ghost use Rattle.cert_text.specs.declared.bad.BadDossier.TheVariants.{Shape};

use crate::bad::{BadDossier, DossierError};
use crate::group::put_group;
use crate::ships::ships_at;
use crate::spots::{put_spots, spots_in};
use crate::value::{chamber_at, has_members, put_byte, put_word, word_in};
use lock_model::{Lockage, Lockages, MOST, Plan, SHIPS, Spots, Way};
use no_memory::NoMemory;
use serde_json::Value;
use std::alloc::{AllocError, Global};

/// The number of a way.
fn way_number(way: Way) -> u8
    ensures value { result ≡ way_number way }
    ensures reads_back { way_of (way_number way) ≡ Some way }
{
    match way {
        Way::Up => 0,
        Way::Down => 1,
    }
}

/// A lockage as a value.
#[tactic(auto, unfolding(serde_json::proofs::OnLiterals::serde_json_on_literals))]
fn put_lockage(alloc: Global, lockage: &Lockage) -> Result<Value, AllocError>
    requires { IsFormedLockage lockage.now }
    ensures value { IfOk result (λ v. view v ≡ lockage_data lockage.now) }
    ensures reads_back { IfOk result (λ _. lockage_in (lockage_data lockage.now) ≡ Some lockage.now) }
{
    let mut map = put_group(alloc, lockage.chamber, &lockage.ships)?;
    let spots = put_spots(alloc, &lockage.spots)?;
    serde_json::put(&mut map, alloc, "spots", spots)?;
    let start = put_word(lockage.start);
    serde_json::put(&mut map, alloc, "start", start)?;
    let way = put_byte(way_number(lockage.way));
    serde_json::put(&mut map, alloc, "way", way)?;
    Ok(Value::Object(map))
}

/// The values of lockages in order.
fn put_all(alloc: Global, lockages: &[Lockage]) -> Result<Vec<Value>, AllocError>
    requires { All IsFormedLockage lockages.now }
    ensures values { IfOk result (λ list. map view list.items ≡ map lockage_data lockages.now) }
    ensures reads_back { IfOk result (λ _. all_in lockage_in (items_of (map lockage_data lockages.now)) ≡ Some lockages.now) }
{
    let mut list = Vec::with_capacity(alloc, lockages.len())?;
    for lockage in lockages {
        list.push(put_lockage(alloc, lockage)?)?;
    }
    Ok(list)
}

/// The plan as a value that `plan_of` reads back where it may have so many lockages. `specs/Plans` says
/// which value it is. Its only refusal is want of memory.
#[tactic(auto, using(crate::proofs::PlanLemmas::plan_back))]
pub fn put_plan(alloc: Global, plan: &Plan) -> Result<Value, NoMemory>
    requires { All IsFormedLockage plan.now.lockages }
    ensures value { IfOk result (λ v. view v ≡ plan_data plan.now) }
    ensures reads_back { IfOk result (λ _. IsPlanBack plan.now) }
{
    let list = put_all(alloc, plan.lockages.as_slice())?;
    Ok(Value::Array(list))
}

/// The spots at the key `spots`, if they are so many.
fn spots_at(value: &Value, count: usize) -> Option<Spots>
    requires { count ≤ MOST }
    ensures { result ≡ value_at (codes "spots") (spots_in count) (view value.now) }
{
    match value.get("spots") {
        Some(spots) => spots_in(spots, count),
        None => None,
    }
}

/// The minute at the key `start`.
fn start_at(value: &Value) -> Option<u32>
    ensures { result ≡ value_at (codes "start") word_in (view value.now) }
{
    match value.get("start") {
        Some(start) => word_in(start),
        None => None,
    }
}

/// The way that a value writes.
fn way_in(value: &Value) -> Option<Way>
    ensures { result ≡ way_in (view value.now) }
{
    match value.as_u64() {
        Some(0) => Some(Way::Up),
        Some(1) => Some(Way::Down),
        _ => None,
    }
}

/// The way at the key `way`.
fn way_at(value: &Value) -> Option<Way>
    ensures { result ≡ value_at (codes "way") way_in (view value.now) }
{
    match value.get("way") {
        Some(way) => way_in(way),
        None => None,
    }
}

/// The lockage that a value writes.
#[tactic(auto, unfolding(crate::specs::Plans::lockage_in))]
fn lockage_in(value: &Value) -> Option<Lockage>
    ensures { result ≡ lockage_in (view value.now) }
{
    if !has_members(value, 5) {
        return None;
    }
    let chamber = chamber_at(value)?;
    let ships = ships_at(value)?;
    let spots = spots_at(value, ships.len())?;
    let start = start_at(value)?;
    let way = way_at(value)?;
    Some(Lockage {
        chamber,
        way,
        ships,
        start,
        spots,
    })
}

/// Appends the lockages that up to `SHIPS` values write, where there are none yet. None where one writes no lockage.
fn all_in(list: &[Value], lockages: &mut Lockages) -> Option<()>
    requires few { length list.now ≤ SHIPS }
    requires empty { lockages.old ≡ [] }
    ensures read { IfSome result (λ _. all_in lockage_in (items_view list.now) ≡ Some lockages.new) }
    ensures fault { IfNone result (all_in lockage_in (items_view list.now) ≡ None) }
{
    for value in list {
        lockages.push(lockage_in(value)?);
    }
    Some(())
}

/// Reads the plan of up to `most` lockages that values write into an empty one. None where they write none.
fn plan_items(most: usize, list: &[Value], plan: &mut Plan) -> Option<()>
    requires most { most ≤ SHIPS }
    requires empty { plan.old.lockages ≡ [] }
    ensures read { IfSome result (λ _. plan_items most (items_view list.now) ≡ Some plan.new) }
    ensures fault { IfNone result (plan_items most (items_view list.now) ≡ None) }
{
    if list.len() > most {
        return None;
    }
    all_in(list, &mut plan.lockages)
}

/// Reads the plan of up to `most` lockages that a value lists into an empty one. None where it lists none.
fn plan_in(most: usize, value: &Value, plan: &mut Plan) -> Option<()>
    requires most { most ≤ SHIPS }
    requires empty { plan.old.lockages ≡ [] }
    ensures read { IfSome result (λ _. plan_in most (view value.now) ≡ Some plan.new) }
    ensures fault { IfNone result (plan_in most (view value.now) ≡ None) }
{
    match value.as_array() {
        Some(list) => plan_items(most, list.as_slice(), plan),
        None => None,
    }
}

/// A plan without lockages, in a box: it is large, and each place that it is moved to takes as much of the
/// stack.
#[inline(never)]
fn empty_plan(alloc: Global) -> Result<Box<Plan>, NoMemory>
    ensures { IfOk result (λ plan. plan.value.lockages ≡ []) }
{
    let lockages = Lockages::new();
    match Box::new(alloc, Plan { lockages }) {
        Ok(plan) => Ok(plan),
        Err(_) => Err(NoMemory),
    }
}

/// The plan of up to `most` lockages that a value lists, each lockage with its chamber, its ships, as
/// many spots, its start and its way. Answers `Shape(4)` exactly where the value is no such plan, or else
/// want of memory.
pub fn plan_of(alloc: Global, most: usize, value: &Value) -> Result<Box<Plan>, DossierError>
    requires { most ≤ SHIPS }
    ensures read { IfOk result (λ plan. plan_in most (view value.now) ≡ Some plan.value) }
    ensures shape { IfErr result (IsCausedFault (Shape 4) (plan_in most (view value.now) ≡ None)) }
{
    let mut plan = empty_plan(alloc)?;
    match plan_in(most, value, &mut *plan) {
        Some(()) => Ok(plan),
        None => Err(DossierError::Fault(BadDossier::Shape(4))),
    }
}
