//! The sweep.
ghost use Rattle.std.specs.Prelude.{◌≡◌, length, All, IfOk, OnOk, IfSome};
ghost use Rattle.sweep_labels.specs.Coming.{AllArrive};
ghost use Rattle.sweep.specs.Bounds.{cuts_of};
ghost use Rattle.sweep.specs.Late.{AreLanes};
ghost use Rattle.sweep.specs.Going.{IsSound};
ghost use Rattle.sweep.specs.Ends.{IsRootCase, HasRowMore, AreAllCases, AreLanesBy, AreLanesAsked, ArriveInAll, IsSweptBy, IsGoalsEnd, IsSweepEnd};

use crate::asked::{SweepAsked, SweepLimits};
use crate::goals::Goals;
use crate::judging::judged;
use crate::late::LateShips;
use crate::late_bound::LateCosts;
use crate::late_costs::all_late_ships;
use crate::plan::{UncutPlan, lines_to};
use crate::sums::added;
use crate::sweep_case::SweepCase;
use crate::sweeper::Sweeper;
use price_groups::LineCase;
use price_terms::{PriceError, Swept, append};
use std::alloc::Global;
use std::mem;
use sweep_arcs::{ArcLimits, Lane};
use sweep_labels::{Arrivals, KeptLabel, Made, Queue, first_label};

// How many labels a cost may take before late ships are looked for, and a cost of these.
const LATE_LABELS: usize = 20_000;

/// How a sweep ends.
#[derive(Drop)]
pub enum SweepEnd<'a> {
    /// No uncut plan costs less than the goal.
    Swept(Swept<'a>),
    /// An uncut plan that costs less, and none costs less than that.
    Cheaper { plan: UncutPlan, swept: Swept<'a> },
}

/// How a sweep ended, if it did within its labels, how many labels it made for all costs, and those of the last
/// cost: what they serve beyond their parents are groups of nearly cheapest uncut plans. Nothing is claimed of
/// these labels.
#[derive(Drop)]
pub struct SweepOutcome<'a> {
    pub end: Option<SweepEnd<'a>>,
    pub labels: u64,
    pub last: Vec<KeptLabel>,
}

// Puts the cases of all chambers behind others.
#[tactic(auto, using(crate::proofs::EndLemmas::cases_none))]
fn append_cases<'a>(cases: &mut Vec<LineCase<'a>>, asked: &SweepAsked<'a>) -> Result<(), PriceError>
    requires { All IsRootCase cases.old.items }
    ensures { OnOk result (HasRowMore asked.now asked.now.prices.now cases.old.items cases.new.items) }
{
    let count = asked.instance.chambers.as_slice().len() as u8;
    for index in 0..count {
        append(cases, asked.case_of(index))?;
    }
    Ok(())
}

// Puts those by the prices of early ships, in the place that these are said to have.
fn append_early<'a>(
    cases: &mut Vec<LineCase<'a>>,
    asked: &SweepAsked<'a>,
    late: &'a LateShips,
) -> Result<(), PriceError>
    requires { All IsRootCase cases.old.items }
    ensures first { OnOk result (late.now.first ≡ length cases.old.items) }
    ensures row { OnOk result (HasRowMore asked.now late.now.prices cases.old.items cases.new.items) }
{
    if cases.len() != late.first {
        return Err(PriceError::TooMany);
    }
    let early = SweepAsked {
        instance: asked.instance,
        cuts: asked.cuts,
        prices: &late.prices,
        low: asked.low,
        first: asked.first,
        goal: asked.goal,
    };
    append_cases(cases, &early)?;
    Ok(())
}

/// The cases of all chambers, by all prices and behind them by those of early ships.
pub(crate) fn cases_of<'a>(
    alloc: Global,
    asked: &SweepAsked<'a>,
    late: &'a [LateShips],
) -> Result<Vec<LineCase<'a>>, PriceError>
    ensures { IfOk result (λ cases. AreAllCases asked.now late.now (length late.now) cases.items) }
{
    let mut cases = Vec::new(alloc);
    append_cases(&mut cases, asked)?;
    for place in 0..late.len() {
        append_early(&mut cases, asked, &late[place])?;
    }
    Ok(cases)
}

/// The chambers of these cases.
pub(crate) fn lanes_of<'a>(
    alloc: Global,
    cases: &'a [LineCase<'a>],
    limits: ArcLimits,
) -> Result<Vec<Lane<'a>>, PriceError>
    requires { All IsRootCase cases.now }
    ensures { IfOk result (λ lanes. AreLanesBy cases.now (length cases.now) lanes.items) }
{
    let mut lanes = Vec::new(alloc);
    for place in 0..cases.len() {
        let lane = Lane::new(alloc, &cases[place], limits)?;
        append(&mut lanes, lane)?;
    }
    Ok(lanes)
}

/// The ships that the chambers wait for.
pub(crate) fn arrivals_of(
    alloc: Global,
    asked: &SweepAsked,
    lanes: &[Lane],
) -> Result<Vec<Arrivals>, PriceError>
    requires { AreLanesAsked asked.now lanes.now }
    ensures { IfOk result (λ all. ArriveInAll asked.now all.items) }
{
    let mut all = Vec::new(alloc);
    for place in 0..asked.instance.chambers.as_slice().len() {
        let arrivals = lanes[place].arrivals(alloc)?;
        append(&mut all, arrivals)?;
    }
    Ok(all)
}

// How the sweep of one cost after the other ended.
#[derive(Drop)]
enum GoalsEnd {
    // The last cost is swept.
    Reached,
    // A plan that costs less, and that cost is swept.
    Found(UncutPlan),
    // Labels ran out, or the costs of these late ships would help: the greatest cost that is swept.
    Open { reached: u64, late: Vec<LateShips> },
}

// How it ended, how many labels it made, and those of the last cost.
#[derive(Drop)]
struct SweepStage {
    end: GoalsEnd,
    labels: u64,
    last: Vec<KeptLabel>,
}

// How it has ended: where the goal is lower than that was asked for, a plan costs that.
fn ended(alloc: Global, asked: &SweepAsked, made: &Made) -> Result<GoalsEnd, PriceError>
    requires { IsSweptBy asked.now made.now.goal }
    ensures { IfOk result (IsGoalsEnd asked.now) }
{
    if made.goal == asked.goal {
        return Ok(GoalsEnd::Reached);
    }
    let Some(number) = made.found else {
        return Err(PriceError::TooMany);
    };
    let lines = lines_to(alloc, asked.instance, &made.labels.items, number)?;
    let plan = judged(alloc, asked, lines)?;
    if plan.cost == made.goal {
        Ok(GoalsEnd::Found(plan))
    } else {
        Err(PriceError::TooMany)
    }
}

// How the whole sweep ends then.
fn end_of<'a>(asked: &SweepAsked<'a>, end: GoalsEnd) -> Option<SweepEnd<'a>>
    requires { IsGoalsEnd asked.now end }
    ensures { IfSome result (IsSweepEnd asked.now) }
{
    match end {
        GoalsEnd::Reached => {
            let swept = Swept::new(asked.instance, asked.cuts, asked.goal);
            Some(SweepEnd::Swept(swept))
        }
        GoalsEnd::Found(plan) => {
            let swept = Swept::new(asked.instance, asked.cuts, plan.cost);
            Some(SweepEnd::Cheaper { plan, swept })
        }
        GoalsEnd::Open { .. } => None,
    }
}

// How many labels the next cost may take, where so many were made for those before and late ships are looked
// for or not.
fn most_labels(limits: SweepLimits, made: u64, looks: bool) -> usize {
    let left = limits.all.saturating_sub(made);
    let most = limits.labels.min(left as usize);
    if looks { most.min(LATE_LABELS) } else { most }
}

// Late ships whose costs would help, where they are looked for.
fn late_behind(
    alloc: Global,
    asked: &SweepAsked,
    case: &SweepCase,
    sweeper: &mut Sweeper,
    looks: bool,
) -> Result<Vec<LateShips>, PriceError>
    requires { IsSound case.now sweeper.old }
    ensures { OnOk result (IsSound case.now sweeper.new) }
{
    if !looks {
        return Ok(Vec::new(alloc));
    }
    let first = sweeper.known.first;
    let late = all_late_ships(alloc, asked, case, sweeper.lanes, &first)?;
    Ok(late)
}

// Sweeps costs up to the goal, or to that of a plan that is found, as far as labels are left or the costs of
// late ships would help; how many labels were made. Late ships are looked for once.
fn sweep_goals(
    alloc: Global,
    asked: &SweepAsked,
    case: &SweepCase,
    sweeper: &mut Sweeper,
    limits: SweepLimits,
) -> Result<(GoalsEnd, u64), PriceError>
    requires sound { IsSound case.now sweeper.old }
    requires instance { case.now.instance.now ≡ asked.now.instance.now }
    requires cuts { case.now.cuts.now ≡ asked.now.cuts.now }
    ensures { IfOk result (λ ended. IsGoalsEnd asked.now ended.0) }
{
    let mut goals = Goals::new(asked.low, asked.first, asked.goal);
    let mut looks = asked.instance.is_large() && sweeper.known.late.is_empty();
    let mut labels = 0;
    let mut reached = asked.first;
    for _ in 0..u64::MAX {
        let goal = goals.next();
        sweeper.most = most_labels(limits, labels, looks);
        let done = sweeper.sweep(alloc, case, goal)?;
        let made = sweeper.made.labels.items.len();
        labels = added(labels, made as u64)?;
        if done && (goal == asked.goal || sweeper.made.goal < goal) {
            return Ok((ended(alloc, asked, &sweeper.made)?, labels));
        }
        if done {
            reached = goal;
            goals.rise(made as u64, most_labels(limits, labels, looks) as u64);
        } else {
            looks = looks && made >= LATE_LABELS;
            let late = late_behind(alloc, asked, case, sweeper, looks)?;
            if !looks || !late.is_empty() {
                return Ok((GoalsEnd::Open { reached, late }, labels));
            }
            looks = false;
        }
    }
    Err(PriceError::TooMany)
}

// The sweep of a case by its chambers, with the costs of late ships where there are any.
fn swept(
    alloc: Global,
    asked: &SweepAsked,
    case: &SweepCase,
    lanes: &mut [Lane],
    late: &[LateShips],
    limits: SweepLimits,
) -> Result<SweepStage, PriceError>
    requires arrive { AllArrive case.now.instance.now (cuts_of case.now) case.now.arrivals.now }
    requires instance { case.now.instance.now ≡ asked.now.instance.now }
    requires cuts { case.now.cuts.now ≡ asked.now.cuts.now }
    requires lanes { AreLanes case.now late.now lanes.old }
    ensures { IfOk result (λ stage. IsGoalsEnd asked.now stage.end) }
{
    let mut sweeper = Sweeper {
        lanes,
        known: LateCosts {
            late,
            first: first_label(case.instance, case.arrivals)?,
            costs: Vec::new(alloc),
        },
        made: Made::new(alloc, asked.goal)?,
        queue: Queue::new(alloc),
        spread: 0,
        most: LATE_LABELS,
    };
    sweeper.find_costs(alloc, case)?;
    let (end, labels) = sweep_goals(alloc, asked, case, &mut sweeper, limits)?;
    let last = mem::replace(&mut sweeper.made.labels.items, Vec::new(alloc));
    Ok(SweepStage { end, labels, last })
}

// A sweep with these late ships.
fn sweep_with<'a>(
    alloc: Global,
    asked: &SweepAsked<'a>,
    late: &'a [LateShips],
    limits: SweepLimits,
) -> Result<SweepStage, PriceError>
    ensures { IfOk result (λ stage. IsGoalsEnd asked.now stage.end) }
{
    let cases = cases_of(alloc, asked, late)?;
    let mut lanes = lanes_of(alloc, &cases, limits.of_arcs())?;
    let arrivals = arrivals_of(alloc, asked, &lanes)?;
    let case = SweepCase {
        instance: asked.instance,
        cuts: asked.cuts,
        prices: asked.prices,
        arrivals: &arrivals,
    };
    swept(alloc, asked, &case, &mut lanes, late, limits)
}

// Goes on with the costs of late ships, behind so many labels.
fn sweep_late<'a>(
    alloc: Global,
    asked: &SweepAsked<'a>,
    late: &[LateShips],
    before: u64,
    limits: SweepLimits,
) -> Result<SweepOutcome<'a>, PriceError>
    ensures { IfOk result (λ sweep. IfSome sweep.end (IsSweepEnd asked.now)) }
{
    let SweepStage { end, labels, last } = sweep_with(alloc, &*asked, &*late, limits)?;
    let end = end_of(asked, end);
    let labels = added(before, labels)?;
    Ok(SweepOutcome { end, labels, last })
}

/// Whether no uncut plan costs less than the goal; else a cheapest one. The end is open where one cost, or all
/// together, would take more labels than the limits allow. Refused are want of memory and more groups or turns
/// than the limits allow.
pub fn sweep<'a>(
    alloc: Global,
    asked: &SweepAsked<'a>,
    limits: SweepLimits,
) -> Result<SweepOutcome<'a>, PriceError>
    ensures { IfOk result (λ sweep. IfSome sweep.end (IsSweepEnd asked.now)) }
{
    let SweepStage { end, labels, last } = sweep_with(alloc, &*asked, &[], limits)?;
    match end {
        GoalsEnd::Open { reached, late } => {
            if late.is_empty() {
                let end = None;
                return Ok(SweepOutcome { end, labels, last });
            }
            let rest = asked.from(reached);
            sweep_late(alloc, &rest, &late, labels, limits.without(labels))
        }
        end => {
            let end = end_of(asked, end);
            Ok(SweepOutcome { end, labels, last })
        }
    }
}
