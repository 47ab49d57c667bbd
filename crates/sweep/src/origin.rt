//! Labels that go on, and what prices bound behind labels.
ghost use Rattle.std.specs.Prelude.{◌≡◌, ◌+◌, ◌*◌, ◌<◌, ◌≤◌, if◌then◌else◌, length, sum_by, IsTrue, IfOk, OnOk};
ghost use Rattle.lock_rules.specs.Arrival.{numbers_from};
ghost use Rattle.lock_rules.specs.Trace.{has_number};
ghost use Rattle.price_rules.specs.Prices.{has_triple};
ghost use Rattle.sweep_rules.specs.Gain.{ships_missing, prices_missing, triples_missing};
ghost use Rattle.sweep_labels.specs.Ships.{is_in};
ghost use Rattle.sweep_labels.specs.Labels.{label_of};
ghost use Rattle.sweep_labels.specs.Arcs.{IsGainBehind};
ghost use Rattle.sweep.specs.Bounds.{cuts_of, gain_in, AreLanesOf, AreSameLanes, AreGains, IsBoundAbove, IsMissing, IsRoom};

use crate::sums::{added, difference, hundredths};
use crate::sweep_case::SweepCase;
use lock_model::CHAMBERS;
use price_rules::Triple;
use price_terms::PriceError;
use sweep_arcs::Lane;
use sweep_labels::{Label, ReadyTimes, ShipSet};

/// The prices of the ships that a label misses, and of the triples of which it misses at least two ships, in
/// hundredths of a minute.
#[derive(Clone, Copy)]
pub(crate) struct Missing {
    pub(crate) ships: u64,
    pub(crate) triples: u64,
}

/// A label that goes on, its number, the prices of what it misses and the gains of the chambers behind it,
/// in hundredths of a minute.
#[derive(Drop)]
pub(crate) struct Origin {
    pub(crate) number: u32,
    pub(crate) label: Label,
    pub(crate) missing: Missing,
    pub(crate) gains: [u64; CHAMBERS],
}

// The gain of a chamber behind a label that has these minutes of it.
#[tactic(auto, using(crate::proofs::BoundLemmas::lanes_set, crate::proofs::BoundLemmas::lane_gain))]
fn gain_by(
    case: &SweepCase,
    lanes: &mut [Lane],
    first: usize,
    chamber: usize,
    times: &ReadyTimes,
) -> Result<u64, PriceError>
    requires lanes { AreLanesOf case.now first lanes.old }
    requires chamber { chamber < length case.now.instance.now.chambers }
    ensures same { OnOk result (AreSameLanes lanes.old lanes.new) }
    ensures gain { IfOk result (IsGainBehind case.now.instance.now (cuts_of case.now) case.now.prices.now chamber times.now) }
{
    let lane = &mut lanes[first + chamber];
    lane.gain(times)
}

/// The gains of all chambers behind a label, from the place of the first one on.
#[tactic(auto, using(crate::proofs::BoundLemmas::gains_none, crate::proofs::BoundLemmas::gains_more, crate::proofs::BoundLemmas::same_none))]
pub(crate) fn gains_of(
    case: &SweepCase,
    lanes: &mut [Lane],
    first: usize,
    label: &Label,
) -> Result<[u64; CHAMBERS], PriceError>
    requires { AreLanesOf case.now first lanes.old }
    ensures same { OnOk result (AreSameLanes lanes.old lanes.new) }
    ensures gains { IfOk result (AreGains case.now (label_of label.now)) }
{
    let mut gains = [0; CHAMBERS];
    for chamber in 0..case.instance.chambers.as_slice().len() {
        gains[chamber] = gain_by(case, lanes, first, chamber, &label.ready[chamber])?;
    }
    Ok(gains)
}

// The gains of all chambers, added.
#[tactic(auto, using(crate::proofs::BoundLemmas::sum_more))]
fn sum_of(case: &SweepCase, gains: &[u64; CHAMBERS]) -> Result<u64, PriceError>
    ensures { IfOk result (λ sum. sum ≡ sum_by (gain_in gains.now) (numbers_from 0 (length case.now.instance.now.chambers))) }
{
    let mut sum = 0;
    for chamber in 0..case.instance.chambers.as_slice().len() {
        sum = added(sum, gains[chamber])?;
    }
    Ok(sum)
}

/// The prices of the ships that aren't served, added.
#[tactic(auto, using(crate::proofs::BoundLemmas::filter_in, crate::proofs::BoundLemmas::filter_out))]
pub(crate) fn missing_prices(case: &SweepCase, served: &ShipSet) -> Result<u64, PriceError>
    ensures { IfOk result (λ sum. sum ≡ prices_missing case.now.instance.now case.now.prices.now (is_in served.now.bits)) }
{
    let count = case.instance.ships.as_slice().len() as u8;
    let mut sum = 0;
    for ship in 0..count {
        if !served.has(ship) {
            sum = added(sum, case.prices.at(ship) as u64)?;
        }
    }
    Ok(sum)
}

// Whether a ship of the instance isn't served.
#[tactic(auto, using(crate::proofs::BoundLemmas::missing_told, crate::proofs::BoundLemmas::missing_untold))]
#[inline(always)]
fn misses(case: &SweepCase, served: &ShipSet, ship: u8) -> bool
    ensures { result ≡ has_number (ships_missing case.now.instance.now (is_in served.now.bits)) ship }
{
    if (ship as usize) < case.instance.ships.as_slice().len() {
        !served.has(ship)
    } else {
        false
    }
}

// Whether at least two ships of a triple aren't served.
#[inline(always)]
fn misses_two(case: &SweepCase, served: &ShipSet, triple: &Triple) -> bool
    ensures { result ≡ has_triple (ships_missing case.now.instance.now (is_in served.now.bits)) triple.now }
{
    let second = misses(case, served, triple.second);
    let third = misses(case, served, triple.third);
    if misses(case, served, triple.first) {
        second || third
    } else {
        second && third
    }
}

// The price of a triple where at least two of its ships aren't served, else 0.
#[inline(always)]
fn price_if_missing(case: &SweepCase, served: &ShipSet, triple: &Triple) -> u32
    ensures value { result ≡ (if has_triple (ships_missing case.now.instance.now (is_in served.now.bits)) triple.now then triple.now.price else 0) }
    ensures small { result ≤ triple.now.price }
{
    if misses_two(case, served, triple) {
        triple.price
    } else {
        0
    }
}

/// The prices of the triples of which at least two ships aren't served, added: ways to go on may have these.
pub(crate) fn missing_triples(case: &SweepCase, served: &ShipSet) -> u64
    ensures { result ≡ triples_missing case.now.instance.now case.now.prices.now (is_in served.now.bits) }
{
    let mut sum = 0;
    for triple in case.prices.triples() {
        sum += price_if_missing(case, served, triple) as u64;
    }
    sum
}

/// The prices of what a label misses that serves these ships.
pub(crate) fn missing_of(case: &SweepCase, served: &ShipSet) -> Result<Missing, PriceError>
    ensures { IfOk result (IsMissing case.now (is_in served.now.bits)) }
{
    Ok(Missing {
        ships: missing_prices(case, served)?,
        triples: missing_triples(case, served),
    })
}

// What the goal and the gains of chambers come to, with the triples that are missing.
fn goal_with(goal: u64, gains: u64, missing: Missing) -> Result<u64, PriceError>
    ensures { IfOk result (λ all. all ≡ 100 * goal + gains + missing.triples) }
{
    let own = added(hundredths(goal)?, gains)?;
    added(own, missing.triples)
}

// What a plan behind a label costs at least, beside the gains, and a minute more.
fn cost_by(label: &Label, missing: Missing) -> Result<u64, PriceError>
    ensures { IfOk result (λ all. all ≡ 100 * label.now.flow + 100 + missing.ships) }
{
    let own = label.flow as u64 * 100 + 100;
    added(own, missing.ships)
}

/// Whether a label's bound is above the goal, by the prices of what it misses and the gains of the chambers.
pub(crate) fn is_above(
    case: &SweepCase,
    label: &Label,
    missing: Missing,
    gains: &[u64; CHAMBERS],
    goal: u64,
) -> Result<bool, PriceError>
    ensures { IfOk result (λ above. IsTrue above → IsBoundAbove case.now label.now missing gains.now goal) }
{
    let low = goal_with(goal, sum_of(case, gains)?, missing)?;
    let high = cost_by(label, missing)?;
    Ok(low < high)
}

/// What a group of a chamber may be worth at most by which a label goes on.
#[tactic(auto, using(crate::proofs::BoundLemmas::room_wide))]
pub(crate) fn room_of(
    case: &SweepCase,
    from: &Origin,
    chamber: usize,
    goal: u64,
) -> Result<i64, PriceError>
    requires { chamber < length case.now.instance.now.chambers }
    ensures { IfOk result (IsRoom case.now from.now chamber goal) }
{
    let beside = sum_of(case, &from.gains)?.saturating_sub(from.gains[chamber]);
    let low = goal_with(goal, beside, from.missing)?;
    let high = cost_by(&from.label, from.missing)?;
    let room = difference(low, high)?;
    Ok(room)
}

/// By how much a label's bound is below the goal: so far arcs are listed.
pub(crate) fn spread_of(
    case: &SweepCase,
    label: &Label,
    missing: Missing,
    gains: &[u64; CHAMBERS],
    goal: u64,
) -> Result<i64, PriceError> {
    let low = goal_with(goal, sum_of(case, gains)?, missing)?;
    let high = cost_by(label, missing)?;
    difference(low, high)
}
