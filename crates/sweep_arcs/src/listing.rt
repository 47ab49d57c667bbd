//! Arcs of a chamber and way from a minute on, listed.
ghost use Rattle.std.specs.Prelude.{◌≡◌, ◌+◌, ◌*◌, ◌^◌, ◌≤◌, pos, ◌+ℤ◌, ◌≤ℤ◌, length, sum_by, IfOk, OnOk};
ghost use Rattle.std.specs.List.Sorted.{IsPermutation};
ghost use Rattle.lock_model.specs.declared.limits.TheConstants.{MOST};
ghost use Rattle.price_rules.specs.Prices.{price_at};
ghost use Rattle.price_groups.specs.Asked.{line_asked};
ghost use Rattle.sweep_arcs.specs.Lanes.{gains_ask, AreGainsKept};
ghost use Rattle.sweep_arcs.specs.Ways.{IsWayGroup, IsWayOf, IsReached, IsArcWorth, IsPutArc, AreRising, IsRangeList};

use crate::arc_list::ArcList;
use crate::gains::{Gains, other_way, stand_before};
use crate::way_groups::WayGroups;
use chamber_times::{flow_until, group_times};
use lock_model::{Ships, Way};
use price_groups::{GrownGroup, LineCase, charge};
use price_terms::{PriceError, append};
use std::alloc::Global;
use sweep_labels::{Arc, ShipSet, minute_of};

/// From when on arcs of a way are listed, and up to which worth, in hundredths of a minute.
#[derive(Clone, Copy)]
pub(crate) struct Range {
    pub(crate) way: Way,
    pub(crate) minute: u32,
    pub(crate) limit: i64,
}

// The prices of ships, added.
fn paid(case: &LineCase, ships: &Ships) -> u64
    requires { length ships.now ≤ MOST }
    ensures value { result ≡ sum_by (price_at case.now.prices.now) ships.now }
    ensures small { result ≤ 8000000 }
{
    let mut sum = 0;
    for &ship in ships.as_slice() {
        sum += case.prices.at(ship) as u64;
    }
    sum
}

// What a group is worth that has this flow time and these prices, is charged so and has this gain behind it, in hundredths of a minute.
fn worth(flow: u32, prices: u64, charged: u32, gain: u64) -> Result<i64, PriceError>
    requires paid { prices ≤ 8000000 }
    requires charged { charged ≤ 255000000 }
    ensures least { IfOk result (λ worth. (worth +ℤ pos (prices + gain)) ≤ℤ pos (100 * flow + charged)) }
    ensures fits { IfOk result (λ worth. pos 0 ≤ℤ (worth +ℤ pos (2 ^ 63))) }
{
    let Ok(gain) = i64::try_from(gain) else {
        return Err(PriceError::TooMany);
    };
    let own = flow as i64 * 100 + charged as i64 - prices as i64;
    match own.checked_sub(gain) {
        Some(worth) => Ok(worth),
        None => Err(PriceError::TooMany),
    }
}

// The arc of a group from a minute on.
fn arc_of(
    case: &LineCase,
    gains: &mut Gains,
    minute: u32,
    one: &GrownGroup,
) -> Result<Arc, PriceError>
    requires kept { AreGainsKept gains.old }
    requires asked { gains_ask gains.old ≡ line_asked case.now }
    requires group { IsWayGroup (line_asked case.now) one.now.group.way one.now }
    ensures same { gains_ask gains.new ≡ gains_ask gains.old }
    ensures kept { OnOk result (AreGainsKept gains.new) }
    ensures arc { IfOk result (IsArcWorth (line_asked case.now) minute one.now.group) }
{
    let group = &one.group;
    let from = stand_before(group.way);
    let (start, end) = group_times(case.instance, case.index, from, minute as u64, group);
    let flow = minute_of(flow_until(case.instance, &group.ships, end))?;
    let prices = paid(case, &group.ships);
    let gain = gains.at(other_way(group.way), end)?;
    let charged = charge(case.prices, one.sums.mask);
    let worth = worth(flow, prices, charged, gain)?;
    Ok(Arc {
        ships: ShipSet {
            bits: one.sums.mask,
        },
        start: minute_of(start)?,
        end: minute_of(end)?,
        flow,
        prices,
        worth,
    })
}

// Appends the arc of a group that isn't empty, where its worth is within the range.
#[tactic(auto, using(crate::proofs::ListLemmas::put_none, crate::proofs::ListLemmas::put_beyond, crate::proofs::ListLemmas::put_own))]
fn put_arc(
    case: &LineCase,
    gains: &mut Gains,
    range: &Range,
    arcs: &mut Vec<Arc>,
    one: &GrownGroup,
) -> Result<(), PriceError>
    requires kept { AreGainsKept gains.old }
    requires asked { gains_ask gains.old ≡ line_asked case.now }
    requires group { IsWayGroup (line_asked case.now) one.now.group.way one.now }
    ensures same { gains_ask gains.new ≡ gains_ask gains.old }
    ensures kept { OnOk result (AreGainsKept gains.new) }
    ensures put { OnOk result (IsPutArc (line_asked case.now) range.now one.now.group arcs.old.items arcs.new.items) }
{
    if one.group.ships.len() == 0 {
        return Ok(());
    }
    let arc = arc_of(case, gains, range.minute, one)?;
    if arc.worth > range.limit {
        return Ok(());
    }
    append(arcs, arc)?;
    Ok(())
}

// Puts arcs of least worth first.
fn least_first(arcs: &mut Vec<Arc>) -> Result<(), PriceError>
    ensures same { OnOk result (IsPermutation arcs.old.items arcs.new.items) }
    ensures rising { OnOk result (AreRising arcs.new.items) }
{
    match arcs.sort_by_key(|arc| arc.worth) {
        Ok(()) => Ok(()),
        Err(_) => Err(PriceError::NoMemory),
    }
}

/// The arcs of all groups of a way from a minute on whose worth is no more than a limit, those of
/// least worth first.
#[tactic(auto, using(crate::proofs::ListLemmas::puts_first, crate::proofs::ListLemmas::puts_next))]
pub(crate) fn listed(
    alloc: Global,
    case: &LineCase,
    gains: &mut Gains,
    all: &WayGroups,
    range: &Range,
) -> Result<ArcList, PriceError>
    requires kept { AreGainsKept gains.old }
    requires asked { gains_ask gains.old ≡ line_asked case.now }
    requires all { IsWayOf (line_asked case.now) range.now.way all.now }
    requires reached { IsReached (line_asked case.now) range.now all.now.spread }
    ensures same { gains_ask gains.new ≡ gains_ask gains.old }
    ensures kept { OnOk result (AreGainsKept gains.new) }
    ensures list { IfOk result (IsRangeList (line_asked case.now) range.now) }
{
    let mut arcs = Vec::new(alloc);
    for one in &all.groups {
        put_arc(case, gains, range, &mut arcs, one)?;
    }
    least_first(&mut arcs)?;
    Ok(ArcList {
        limit: range.limit,
        arcs,
    })
}
