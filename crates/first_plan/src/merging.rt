//! Merging lockages of a plan where that lowers its cost.
ghost use Rattle.std.specs.Prelude.{◌≡◌, ◌<◌, ◌≤◌, length, All, IfSome, IfOk};
ghost use Rattle.lock_rules.specs.Plan.{IsLegal, cost_of};
ghost use Rattle.first_plan.specs.Merging.{IsBetter, IsAtMost};

use crate::joined::{Joined, joined_ships};
use berth_place::{BerthPlaced, place_by_berths};
use chamber_place::{Placed, place};
use chamber_times::{cost, earliest, flow_time, flow_until};
use lock_model::{Deck, Group, Instance, Plan, SHIPS, Ships, Spots, deck_of};
use mooring_rules::{first_clash, judge_plan};
use no_memory::NoMemory;
use std::alloc::Global;

// The flow times of a line's ships in its earliest timetable, added.
fn line_flow(instance: &Instance, chamber: u8, line: &[Group]) -> u64
    requires chamber_in { chamber < length instance.now.chambers }
    requires few { length line.now ≤ SHIPS }
    requires ships_in { All (λ g. All (λ s. s < length instance.now.ships) g.ships) line.now }
{
    let times = earliest(instance, chamber, line);
    let times = times.as_slice();
    let mut flow: u64 = 0;
    for i in 0..line.len() {
        flow = flow.saturating_add(flow_until(instance, &line[i].ships, times[i].1));
    }
    flow
}

// The flow times of the ships that a chamber serves in a plan, added.
#[tactic(auto, using(lock_rules::proofs::LegalLemmas::of_legal_plans))]
fn chamber_flow(instance: &Instance, plan: &Plan, chamber: u8) -> u64
    requires { IsLegal instance.now plan.now }
{
    let mut flow = 0;
    for lockage in plan.lockages.as_slice() {
        if lockage.chamber == chamber {
            flow += flow_time(instance, lockage);
        }
    }
    flow
}

// The most turns that `place` is asked about one merge, and the placer by berths where these are spent. On
// crowded decks `place` could take seconds, and a turn of the other one takes a tenth as long.
const MOST_TURNS: u32 = 50;

const MOST_BERTH_TURNS: u32 = 500;

// Spots that the placer by berths finds, if any.
fn spots_by_berths(alloc: Global, deck: &Deck, turns: u32) -> Result<Option<Spots>, NoMemory> {
    match place_by_berths(alloc, deck, turns.min(MOST_BERTH_TURNS))? {
        BerthPlaced::Fits(spots) => Ok(Some(spots)),
        BerthPlaced::Refuted(_marks) => Ok(None),
        BerthPlaced::Spent(_marks) => Ok(None),
    }
}

// Spots of ships of which no two clash, where a placer finds any.
fn spots_for(
    alloc: Global,
    instance: &Instance,
    chamber: u8,
    ships: &Ships,
    turns: u32,
) -> Result<Option<Spots>, NoMemory>
    requires chamber_in { chamber < length instance.now.chambers }
    requires ships_in { All (λ s. s < length instance.now.ships) ships.now }
    requires some { 1 ≤ length ships.now }
    requires turns { 1 ≤ turns }
{
    let deck = deck_of(instance, chamber, ships);
    if first_clash(&deck).is_some() {
        return Ok(None);
    }
    match place(alloc, &deck, turns.min(MOST_TURNS))? {
        Placed::Fits(spots) => Ok(Some(spots)),
        Placed::Refuted(_refutation) => Ok(None),
        Placed::Spent(_hard) => spots_by_berths(alloc, &deck, turns),
    }
}

// The plan, where it is legal and costs less than another.
#[tactic(auto, using(lock_rules::proofs::LegalLemmas::of_legal_plans))]
fn better(instance: &Instance, plan: &Plan, candidate: Plan) -> Option<Plan>
    requires { IsLegal instance.now plan.now }
    ensures { IfSome result (IsBetter instance.now plan.now) }
{
    if judge_plan(instance, &candidate).is_some() {
        return None;
    }
    if cost(instance, &candidate) < cost(instance, plan) {
        Some(candidate)
    } else {
        None
    }
}

// The plan with two lockages of a chamber joined, where that is legal and costs less.
fn with_joined(
    alloc: Global,
    instance: &Instance,
    plan: &Plan,
    chamber: u8,
    joined: &Joined,
    turns: u32,
) -> Result<Option<Plan>, NoMemory>
    requires legal { IsLegal instance.now plan.now }
    requires chamber_in { chamber < length instance.now.chambers }
    requires ships_in { All (λ s. s < length instance.now.ships) joined.now.ships }
    requires some { 1 ≤ length joined.now.ships }
    requires turns { 1 ≤ turns }
    ensures { IfOk result (λ found. IfSome found (IsBetter instance.now plan.now)) }
{
    let line = joined.line(instance, plan, chamber);
    if line_flow(instance, chamber, line.as_slice()) >= chamber_flow(instance, plan, chamber) {
        return Ok(None);
    }
    match spots_for(alloc, instance, chamber, &joined.ships, turns)? {
        Some(spots) => {
            let times = earliest(instance, chamber, line.as_slice());
            let candidate = joined.plan(plan, chamber, &spots, times.as_slice());
            Ok(better(instance, plan, candidate))
        }
        None => Ok(None),
    }
}

// The plan with lockage number `gone` joined into number `into`, where these are two of one chamber
// and one way and that is legal and costs less.
fn with_pair(
    alloc: Global,
    instance: &Instance,
    plan: &Plan,
    into: usize,
    gone: usize,
    turns: u32,
) -> Result<Option<Plan>, NoMemory>
    requires legal { IsLegal instance.now plan.now }
    requires into { into < length plan.now.lockages }
    requires gone { gone < length plan.now.lockages }
    requires turns { 1 ≤ turns }
    ensures { IfOk result (λ found. IfSome found (IsBetter instance.now plan.now)) }
{
    let first = &plan.lockages.as_slice()[into];
    let second = &plan.lockages.as_slice()[gone];
    if into == gone || first.chamber != second.chamber || first.way != second.way {
        return Ok(None);
    }
    let most = instance.chambers.as_slice()[first.chamber as usize].most;
    let count = instance.ships.as_slice().len() as u8;
    match joined_ships(&first.ships, &second.ships, most, count) {
        Some(ships) if ships.len() > 0 => {
            let joined = Joined { into, gone, ships };
            with_joined(alloc, instance, plan, first.chamber, &joined, turns)
        }
        _ => Ok(None),
    }
}

// The plan with another lockage joined into number `into`: the first that lowers the cost.
fn with_other(
    alloc: Global,
    instance: &Instance,
    plan: &Plan,
    into: usize,
    turns: u32,
) -> Result<Option<Plan>, NoMemory>
    requires legal { IsLegal instance.now plan.now }
    requires into { into < length plan.now.lockages }
    requires turns { 1 ≤ turns }
    ensures { IfOk result (λ found. IfSome found (IsBetter instance.now plan.now)) }
{
    for gone in 0..plan.lockages.as_slice().len() {
        let found = with_pair(alloc, instance, plan, into, gone, turns)?;
        if found.is_some() {
            return Ok(found);
        }
    }
    Ok(None)
}

// The plan with two lockages joined: the first two that lower the cost.
fn with_merge(
    alloc: Global,
    instance: &Instance,
    plan: &Plan,
    turns: u32,
) -> Result<Option<Plan>, NoMemory>
    requires legal { IsLegal instance.now plan.now }
    requires turns { 1 ≤ turns }
    ensures { IfOk result (λ found. IfSome found (IsBetter instance.now plan.now)) }
{
    for into in 0..plan.lockages.as_slice().len() {
        let found = with_other(alloc, instance, plan, into, turns)?;
        if found.is_some() {
            return Ok(found);
        }
    }
    Ok(None)
}

/// Merges lockages of one chamber, two at a time, as long as that lowers the cost. The result is
/// legal, and costs no more than the plan. Its only refusal is want of memory.
pub(crate) fn merged(
    alloc: Global,
    instance: &Instance,
    plan: Plan,
    turns: u32,
) -> Result<Plan, NoMemory>
    requires legal { IsLegal instance.now plan }
    requires turns { 1 ≤ turns }
    ensures { IfOk result (IsAtMost instance.now (cost_of instance.now plan)) }
{
    let mut plan = plan;
    for _ in 0..SHIPS {
        match with_merge(alloc, instance, &plan, turns)? {
            Some(better) => plan = better,
            None => return Ok(plan),
        }
    }
    Ok(plan)
}
