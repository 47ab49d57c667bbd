//! A beam: plans to which few labels of each number of served ships lead.
//!
//! It goes on from labels as a sweep does, but of each number of served ships only from those of least bound,
//! and only by groups that lose little by themselves. So it takes seconds where a sweep takes minutes, and comes
//! near the cheapest plans. It shows nothing of costs, and nothing is claimed of finding a plan.
ghost use Rattle.std.specs.Prelude.{◌<◌, length, IfOk, OnOk, IfSome};
ghost use Rattle.sweep.specs.Bounds.{AreLanesOf};
ghost use Rattle.sweep.specs.Ends.{IsCheaper};

use crate::asked::SweepAsked;
use crate::beam_level::{BeamLabel, BeamLevel};
use crate::judging::judged;
use crate::origin::{Missing, Origin, gains_of, missing_of, missing_triples, room_of, spread_of};
use crate::plan::{UncutPlan, lines_to};
use crate::soonest::with_soonest;
use crate::sums::{less, signed};
use crate::sweep_case::SweepCase;
use crate::sweeper::arcs_of;
use crate::sweeping::{arrivals_of, cases_of, lanes_of};
use lock_model::{Group, Way};
use price_terms::{PriceError, append};
use std::alloc::Global;
use std::mem;
use sweep_arcs::{ArcLimits, ArcsAsked, Lane};
use sweep_labels::{Arc, KeptLabel, ShipSet, Step, first_label, gone_on};

// How much a group may lose by itself at the most at first, in hundredths of a minute.
const MOST_LOST: i64 = 8_000;
// How many times that is tried, a fifth less each time, where chambers have more groups than the limits allow.
const MOST_TIMES: u32 = 8;

/// The chambers, by number of served ships the labels from which it is to go on, those from which it went on,
/// the cost to which it is to find a cheaper plan, and how far arcs are listed.
#[derive(Drop)]
struct Beam<'s, 'a> {
    lanes: &'s mut [Lane<'a>],
    levels: Vec<BeamLevel>,
    labels: Vec<KeptLabel>,
    goal: u64,
    spread: i64,
}

// A chamber and a way by which a label goes on, and how much a group may be worth there at the most.
#[derive(Clone, Copy)]
struct Course {
    chamber: u8,
    way: Way,
    room: i64,
}

// So many levels without labels.
fn empty_levels(alloc: Global, count: usize) -> Result<Vec<BeamLevel>, PriceError> {
    let mut levels = Vec::new(alloc);
    for _ in 0..count {
        let items = Vec::new(alloc);
        append(&mut levels, BeamLevel { items })?;
    }
    Ok(levels)
}

// Takes the labels of a number of served ships.
fn take_level(alloc: Global, levels: &mut [BeamLevel], count: usize) -> Vec<BeamLabel> {
    if count < levels.len() {
        mem::replace(&mut levels[count].items, Vec::new(alloc))
    } else {
        Vec::new(alloc)
    }
}

// How many ships these are.
fn count_of(served: &ShipSet) -> usize {
    served.bits.count_ones() as usize
}

// Whether a label that serves these ships may be kept where its bound is below the goal by so much.
fn has_room(levels: &[BeamLevel], served: &ShipSet, margin: i64) -> bool {
    match levels.get(count_of(served)) {
        Some(level) => level.has_room(margin),
        None => false,
    }
}

// Puts a label to those of as many ships.
fn put_to(levels: &mut [BeamLevel], one: BeamLabel) -> Result<(), PriceError> {
    let count = count_of(&one.kept.label.served);
    if count < levels.len() {
        let level = &mut levels[count];
        return level.put(one);
    }
    Ok(())
}

// Puts a label to those from which the beam went on; its number.
fn keep(labels: &mut Vec<KeptLabel>, kept: KeptLabel) -> Result<u32, PriceError> {
    let Ok(number) = u32::try_from(labels.len()) else {
        return Err(PriceError::TooMany);
    };
    append(labels, kept)?;
    Ok(number)
}

impl Beam<'_, '_> {
    // Goes on by a step; the label is kept if its bound is among the least ones of its number of ships.
    #[tactic(auto, using(crate::proofs::BoundLemmas::lanes_on))]
    fn offer(&mut self, case: &SweepCase, from: &Origin, step: &Step) -> Result<(), PriceError>
        requires lanes { AreLanesOf case.now 0 self.old.lanes.now }
        requires chamber { step.now.chamber < length case.now.instance.now.chambers }
        ensures { OnOk result (AreLanesOf case.now 0 self.new.lanes.now) }
    {
        let label = gone_on(case.instance, case.arrivals, &from.label, step)?;
        let gains = gains_of(case, self.lanes, 0, &label)?;
        let missing = Missing {
            ships: less(from.missing.ships, step.arc.prices)?,
            triples: missing_triples(case, &label.served),
        };
        let margin = spread_of(case, &label, missing, &gains, self.goal)?;
        if !has_room(&self.levels, &label.served, margin) {
            return Ok(());
        }
        let missing = with_soonest(case, &label, missing)?;
        let margin = spread_of(case, &label, missing, &gains, self.goal)?;
        if !has_room(&self.levels, &label.served, margin) {
            return Ok(());
        }
        let kept = KeptLabel {
            label,
            parent: Some(from.number),
            chamber: step.chamber,
            start: step.arc.start,
        };
        put_to(&mut self.levels, BeamLabel { margin, kept })
    }

    // Goes on by arcs of a course, but for those that are worth too much.
    fn offer_by_arcs(
        &mut self,
        case: &SweepCase,
        from: &Origin,
        course: &Course,
        arcs: &[Arc],
    ) -> Result<(), PriceError>
        requires lanes { AreLanesOf case.now 0 self.old.lanes.now }
        requires chamber { course.now.chamber < length case.now.instance.now.chambers }
        ensures { OnOk result (AreLanesOf case.now 0 self.new.lanes.now) }
    {
        let Course { chamber, way, room } = *course;
        for place in 0..arcs.len() {
            let arc = arcs[place];
            let served = from.label.served.joined(&arc.ships);
            if has_room(&self.levels, &served, room.saturating_sub(arc.worth)) {
                self.offer(case, from, &Step { chamber, way, arc })?;
            }
        }
        Ok(())
    }

    // Goes on by a chamber and a way.
    #[tactic(auto, using(crate::proofs::BoundLemmas::lanes_on))]
    fn offer_by(
        &mut self,
        case: &SweepCase,
        from: &Origin,
        chamber: u8,
        way: Way,
    ) -> Result<(), PriceError>
        requires lanes { AreLanesOf case.now 0 self.old.lanes.now }
        requires chamber { chamber < length case.now.instance.now.chambers }
        ensures { OnOk result (AreLanesOf case.now 0 self.new.lanes.now) }
    {
        let place = chamber as usize;
        let room = room_of(case, from, place, self.goal)?;
        let gain = signed(from.gains[place])?;
        let most = self.spread.saturating_sub(gain);
        let asked = ArcsAsked {
            way,
            minute: from.label.ready[place].by(way),
            served: from.label.served,
            room: room.min(most),
            spread: self.spread,
        };
        let arcs = arcs_of(case, self.lanes, place, &asked)?;
        self.offer_by_arcs(case, from, &Course { chamber, way, room }, &arcs)
    }

    // Goes on by all chambers.
    fn offer_by_all(&mut self, case: &SweepCase, from: &Origin) -> Result<(), PriceError>
        requires { AreLanesOf case.now 0 self.old.lanes.now }
        ensures { OnOk result (AreLanesOf case.now 0 self.new.lanes.now) }
    {
        let count = case.instance.chambers.as_slice().len() as u8;
        for chamber in 0..count {
            self.offer_by(case, from, chamber, Way::Up)?;
            self.offer_by(case, from, chamber, Way::Down)?;
        }
        Ok(())
    }

    // Goes on from a label.
    #[tactic(auto, using(crate::proofs::BoundLemmas::lanes_on))]
    fn go_on_from(&mut self, case: &SweepCase, kept: KeptLabel) -> Result<(), PriceError>
        requires { AreLanesOf case.now 0 self.old.lanes.now }
        ensures { OnOk result (AreLanesOf case.now 0 self.new.lanes.now) }
    {
        let number = keep(&mut self.labels, kept)?;
        let label = kept.label;
        let missing = missing_of(case, &label.served)?;
        let gains = gains_of(case, self.lanes, 0, &label)?;
        let from = Origin {
            number,
            label,
            missing,
            gains,
        };
        self.offer_by_all(case, &from)
    }

    // Goes on from labels.
    fn go_on_from_all(&mut self, case: &SweepCase, labels: &[BeamLabel]) -> Result<(), PriceError>
        requires { AreLanesOf case.now 0 self.old.lanes.now }
        ensures { OnOk result (AreLanesOf case.now 0 self.new.lanes.now) }
    {
        for place in 0..labels.len() {
            self.go_on_from(case, labels[place].kept)?;
        }
        Ok(())
    }

    // Begins with the label that serves nobody. A group may lose no more than so much by itself.
    #[tactic(auto, using(crate::proofs::BoundLemmas::lanes_on))]
    fn begin(&mut self, case: &SweepCase, lost: i64) -> Result<(), PriceError>
        requires { AreLanesOf case.now 0 self.old.lanes.now }
        ensures { OnOk result (AreLanesOf case.now 0 self.new.lanes.now) }
    {
        let label = first_label(case.instance, case.arrivals)?;
        let missing = missing_of(case, &label.served)?;
        let gains = gains_of(case, self.lanes, 0, &label)?;
        let margin = spread_of(case, &label, missing, &gains, self.goal)?;
        self.spread = margin.min(lost).max(0);
        let kept = KeptLabel {
            label,
            parent: None,
            chamber: 0,
            start: 0,
        };
        put_to(&mut self.levels, BeamLabel { margin, kept })
    }

    // Goes on from the labels of all numbers of served ships, the least numbers first.
    fn run(&mut self, alloc: Global, case: &SweepCase) -> Result<(), PriceError>
        requires { AreLanesOf case.now 0 self.old.lanes.now }
        ensures { OnOk result (AreLanesOf case.now 0 self.new.lanes.now) }
    {
        for count in 0..case.instance.ships.as_slice().len() {
            let labels = take_level(alloc, &mut self.levels, count);
            self.go_on_from_all(case, &labels)?;
        }
        Ok(())
    }

    // The lines that lead to the label of least bound that serves all ships, if there is one.
    fn lines(
        &mut self,
        alloc: Global,
        case: &SweepCase,
    ) -> Result<Option<Vec<Vec<Group>>>, PriceError> {
        let count = case.instance.ships.as_slice().len();
        let whole = take_level(alloc, &mut self.levels, count);
        let Some(first) = whole.first() else {
            return Ok(None);
        };
        let number = keep(&mut self.labels, first.kept)?;
        Ok(Some(lines_to(alloc, case.instance, &self.labels, number)?))
    }
}

// The lines of a plan that costs less than the goal, if one is found by groups of which none loses more than
// so much by itself.
fn lines_below(
    alloc: Global,
    case: &SweepCase,
    lanes: &mut [Lane],
    goal: u64,
    lost: i64,
) -> Result<Option<Vec<Vec<Group>>>, PriceError>
    requires { AreLanesOf case.now 0 lanes.old }
{
    let count = case.instance.ships.as_slice().len();
    let mut beam = Beam {
        lanes,
        levels: empty_levels(alloc, count + 1)?,
        labels: Vec::new(alloc),
        goal,
        spread: 0,
    };
    beam.begin(case, lost)?;
    beam.run(alloc, case)?;
    beam.lines(alloc, case)
}

// The same as a plan.
fn plan_below(
    alloc: Global,
    asked: &SweepAsked,
    limits: ArcLimits,
    lost: i64,
) -> Result<Option<UncutPlan>, PriceError>
    ensures { IfOk result (λ plan. IfSome plan (IsCheaper asked.now)) }
{
    let cases = cases_of(alloc, asked, &[])?;
    let mut lanes = lanes_of(alloc, &cases, limits)?;
    let arrivals = arrivals_of(alloc, asked, &lanes)?;
    let case = SweepCase {
        instance: asked.instance,
        cuts: asked.cuts,
        prices: asked.prices,
        arrivals: &arrivals,
    };
    let Some(lines) = lines_below(alloc, &case, &mut lanes, asked.goal, lost)? else {
        return Ok(None);
    };
    Ok(Some(judged(alloc, asked, lines)?))
}

/// An uncut plan that costs less than the goal, if one is found. Refused are want of memory and more groups or
/// turns than the limits allow, also where only groups count that lose little; labels aren't limited.
pub fn beam_plan(
    alloc: Global,
    asked: &SweepAsked,
    limits: ArcLimits,
) -> Result<Option<UncutPlan>, PriceError>
    ensures { IfOk result (λ plan. IfSome plan (IsCheaper asked.now)) }
{
    let mut lost = MOST_LOST;
    for _ in 0..MOST_TIMES {
        match plan_below(alloc, asked, limits, lost) {
            Err(PriceError::TooMany) => lost = lost / 5 * 4,
            end => return end,
        }
    }
    Err(PriceError::TooMany)
}
