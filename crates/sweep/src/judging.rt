//! The judge of lines that a sweep has found: whether they are an uncut plan, and what it costs.
ghost use Rattle.std.specs.Prelude.{◌≡◌, ◌<◌, length, All, IsTrue, IfOk, OnOk};
ghost use Rattle.lock_rules.specs.Plan.{times_in};
ghost use Rattle.lock_rules.specs.Node.{times_on};
ghost use Rattle.lock_rules.specs.Bound.{line_flow};
ghost use Rattle.sweep_rules.specs.Uncut.{times_over};
ghost use Rattle.sweep.specs.Judging.{lines_in, IsOfWay, IsOwnGroup, IsUncutLine, AreUncutLines, StandOnce};
ghost use Rattle.sweep.specs.Ends.{IsCheaper};

use crate::asked::SweepAsked;
use crate::plan::UncutPlan;
use crate::sums::added;
use chamber_times::{earliest, flow_until};
use lock_model::{Group, Instance, SHIPS, Way};
use price_groups::{are_spared, forbidden_sets};
use price_terms::PriceError;
use std::alloc::Global;

// How often a ship is among these.
fn times_in(ships: &[u8], ship: u8) -> Result<u64, PriceError>
    ensures { IfOk result (λ times. times ≡ times_in ships.now ship) }
{
    let mut times = 0;
    for &other in ships {
        if other == ship {
            times = added(times, 1)?;
        }
    }
    Ok(times)
}

// How often a ship stands in a line.
fn times_on(line: &[Group], ship: u8) -> Result<u64, PriceError>
    ensures { IfOk result (λ times. times ≡ times_on ship line.now) }
{
    let mut times = 0;
    for group in line {
        times = added(times, times_in(group.ships.as_slice(), ship)?)?;
    }
    Ok(times)
}

// How often a ship stands in the lines of all chambers.
fn times_over(instance: &Instance, lines: &[Vec<Group>], ship: u8) -> Result<u64, PriceError>
    requires { length lines.now ≡ length instance.now.chambers }
    ensures { IfOk result (λ times. times ≡ times_over instance.now ship (lines_in lines.now)) }
{
    let mut times = 0;
    for chamber in 0..lines.len() {
        times = added(times, times_on(&lines[chamber], ship)?)?;
    }
    Ok(times)
}

// Refuses lines in which a ship of the instance doesn't stand once.
fn stand_once(instance: &Instance, lines: &[Vec<Group>]) -> Result<(), PriceError>
    requires { length lines.now ≡ length instance.now.chambers }
    ensures { OnOk result (StandOnce instance.now (length instance.now.ships) (lines_in lines.now)) }
{
    let count = instance.ships.as_slice().len() as u8;
    for ship in 0..count {
        if times_over(instance, lines, ship)? != 1 {
            return Err(PriceError::TooMany);
        }
    }
    Ok(())
}

// Whether a ship is the instance's and goes this way.
fn is_of_way(instance: &Instance, way: Way, ship: u8) -> bool
    ensures { IsTrue result → IsOfWay instance.now way ship }
{
    let ships = instance.ships.as_slice();
    let place = ship as usize;
    place < ships.len() && ships[place].way == way
}

// Whether all these ships are.
fn are_of_way(instance: &Instance, way: Way, ships: &[u8]) -> bool
    ensures { IsTrue result → All (IsOfWay instance.now way) ships.now }
{
    for &ship in ships {
        if !is_of_way(instance, way, ship) {
            return false;
        }
    }
    true
}

// Whether a chamber may serve a group of the instance's ships, if they fit.
fn is_own_group(instance: &Instance, chamber: u8, group: &Group) -> bool
    requires { chamber < length instance.now.chambers }
    ensures { IsTrue result → IsOwnGroup instance.now chamber group.now }
{
    let most = instance.chambers.as_slice()[chamber as usize].most as usize;
    let ships = group.ships.as_slice();
    !ships.is_empty() && ships.len() <= most && are_of_way(instance, group.way, ships)
}

// Whether it may serve all groups of a line.
fn are_own_groups(instance: &Instance, chamber: u8, line: &[Group]) -> bool
    requires { chamber < length instance.now.chambers }
    ensures { IsTrue result → All (IsOwnGroup instance.now chamber) line.now }
{
    for group in line {
        if !is_own_group(instance, chamber, group) {
            return false;
        }
    }
    true
}

// The flow times of a line's ships in its earliest timetable, added.
fn line_flow(instance: &Instance, chamber: u8, line: &[Group]) -> Result<u64, PriceError>
    requires chamber_in { chamber < length instance.now.chambers }
    requires own { All (IsOwnGroup instance.now chamber) line.now }
    ensures { IfOk result (λ flow. flow ≡ line_flow instance.now chamber line.now) }
{
    if line.len() > SHIPS {
        return Err(PriceError::TooMany);
    }
    let times = earliest(instance, chamber, line);
    let times = times.as_slice();
    let mut flow = 0;
    for place in 0..line.len() {
        flow = added(
            flow,
            flow_until(instance, &line[place].ships, times[place].1),
        )?;
    }
    Ok(flow)
}

// The flow time of a line of uncut groups; other lines are refused.
fn uncut_flow(
    alloc: Global,
    asked: &SweepAsked,
    chamber: u8,
    line: &[Group],
) -> Result<u64, PriceError>
    requires { chamber < length asked.now.instance.now.chambers }
    ensures { IfOk result (IsUncutLine asked.now chamber line.now) }
{
    let sets = forbidden_sets(alloc, &asked.case_of(chamber))?;
    if !are_own_groups(asked.instance, chamber, line) || !are_spared(&sets, line) {
        return Err(PriceError::TooMany);
    }
    let flow = line_flow(asked.instance, chamber, line)?;
    Ok(flow)
}

// The flow times of the lines of all chambers, added; lines that aren't of uncut groups are refused.
fn flow_over(alloc: Global, asked: &SweepAsked, lines: &[Vec<Group>]) -> Result<u64, PriceError>
    requires { length lines.now ≡ length asked.now.instance.now.chambers }
    ensures { IfOk result (AreUncutLines asked.now (lines_in lines.now) (length asked.now.instance.now.chambers)) }
{
    let count = asked.instance.chambers.as_slice().len() as u8;
    let mut flow = 0;
    for chamber in 0..count {
        flow = added(
            flow,
            uncut_flow(alloc, asked, chamber, &lines[chamber as usize])?,
        )?;
    }
    Ok(flow)
}

/// The plan of these lines. Refused are lines that aren't an uncut plan or cost as much as the goal, which a
/// sweep doesn't come to, and want of memory.
pub(crate) fn judged(
    alloc: Global,
    asked: &SweepAsked,
    lines: Vec<Vec<Group>>,
) -> Result<UncutPlan, PriceError>
    ensures { IfOk result (IsCheaper asked.now) }
{
    if lines.len() != asked.instance.chambers.as_slice().len() {
        return Err(PriceError::TooMany);
    }
    stand_once(asked.instance, &lines)?;
    let cost = flow_over(alloc, asked, &lines)?;
    if cost < asked.goal {
        Ok(UncutPlan { lines, cost })
    } else {
        Err(PriceError::TooMany)
    }
}
