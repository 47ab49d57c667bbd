//! A sweep in work.
ghost use Rattle.std.specs.Prelude.{ℕ, ◌≡◌, ◌<◌, false, length, slice_index_or, IsTrue, IfOk, OnOk};
ghost use Rattle.sweep_rules.specs.Treated.{IsTreated};
ghost use Rattle.sweep_rules.specs.Uncut.{IsSwept};
ghost use Rattle.sweep_rules.specs.Completion.{EndsBelow};
ghost use Rattle.sweep_labels.specs.Ships.{is_in};
ghost use Rattle.sweep_labels.specs.Putting.{open_at};
ghost use Rattle.sweep_labels.specs.Sweeping.{labels_of};
ghost use Rattle.sweep_labels.specs.Labels.{label_of};
ghost use Rattle.sweep_labels.specs.declared.label.KeptLabel.{KeptLabel as AnyLabel};
ghost use Rattle.sweep.specs.Bounds.{cuts_of, AreLanesOf, AreSameLanes, AreArcsAsked, IsOrigin};
ghost use Rattle.sweep.specs.Going.{IsSound, IsFurther, IsMetBy, IsDone, IsArcLed, AreArcsLed, IsWayLed, AreLed};

use crate::late_bound::{LateCosts, is_early_above};
use crate::origin::{
    Missing, Origin, gains_of, is_above, missing_of, missing_triples, room_of, spread_of,
};
use crate::soonest::{is_late_above, is_steady};
use crate::sums::less;
use crate::sweep_case::SweepCase;
use lock_model::Way;
use price_terms::PriceError;
use std::alloc::Global;
use sweep_arcs::{ArcsAsked, Lane};
use sweep_labels::{Arc, KeptLabel, Label, Made, Queue, Step, are_closed, gone_on};

/// The chambers, the late costs that are known, the labels that were made and what is to be swept, those that
/// are open, how far arcs are listed, and the number of labels after which the sweep stops.
#[derive(Drop)]
pub(crate) struct Sweeper<'s, 'k, 'a> {
    pub(crate) lanes: &'s mut [Lane<'a>],
    pub(crate) known: LateCosts<'k>,
    pub(crate) made: Made,
    pub(crate) queue: Queue,
    pub(crate) spread: i64,
    pub(crate) most: usize,
}

/// The arcs of a chamber that are asked for.
#[tactic(auto, using(crate::proofs::BoundLemmas::lanes_set, crate::proofs::BoundLemmas::lane_arcs))]
pub(crate) fn arcs_of(
    case: &SweepCase,
    lanes: &mut [Lane],
    chamber: usize,
    asked: &ArcsAsked,
) -> Result<Vec<Arc>, PriceError>
    requires lanes { AreLanesOf case.now 0 lanes.old }
    requires chamber { chamber < length case.now.instance.now.chambers }
    ensures same { OnOk result (AreSameLanes lanes.old lanes.new) }
    ensures arcs { IfOk result (λ arcs. AreArcsAsked case.now chamber asked.now arcs.items) }
{
    let lane = &mut lanes[chamber];
    lane.arcs(asked)
}

// Puts a label that is open to the queue.
fn put_to(queue: &mut Queue, number: Option<u32>, kept: &KeptLabel) -> Result<(), PriceError> {
    match number {
        None => Ok(()),
        Some(number) => queue.put(number, kept.start, kept.chamber),
    }
}

impl Sweeper<'_, '_, '_> {
    // Keeps a label.
    #[tactic(auto, using(crate::proofs::GrownLemmas::kept_further))]
    fn keep(&mut self, case: &SweepCase, kept: KeptLabel) -> Result<(), PriceError>
        requires { IsSound case.now self.old }
        ensures further { OnOk result (IsFurther case.now self.old self.new) }
        ensures met { OnOk result (IsMetBy case.now self.new.made (label_of kept.label)) }
    {
        let whole = case.first_missing(&kept.label.served).is_none();
        let number = self.made.keep(kept, whole)?;
        put_to(&mut self.queue, number, &kept)?;
        Ok(())
    }

    // Whether any late cost says that no completion of a label costs less than the goal: only of labels whose
    // chambers are steady, and ready no sooner than those of a first label.
    #[tactic(auto, using(crate::proofs::GrownLemmas::guided_on, crate::proofs::GrownLemmas::further_same, crate::proofs::GrownLemmas::further_more, crate::proofs::LateLemmas::split_none))]
    fn is_split_above(&mut self, case: &SweepCase, label: &Label) -> Result<bool, PriceError>
        requires { IsSound case.now self.old }
        ensures further { OnOk result (IsFurther case.now self.old self.new) }
        ensures none { IfOk result (λ above. IsTrue above → EndsBelow case.now.instance.now (cuts_of case.now) self.new.made.goal (label_of label.now) → ⊥) }
    {
        let late = self.known.late;
        let goal = self.made.goal;
        let count = self.known.costs.len();
        if count == 0 || !self.known.first.is_no_worse(label) || !is_steady(case, label) {
            return Ok(false);
        }
        for place in 0..count {
            let left = goal.saturating_sub(self.known.costs[place]);
            if is_early_above(case, self.lanes, &late[place], label, left)? {
                return Ok(true);
            }
        }
        Ok(false)
    }

    // Goes on by a step.
    #[tactic(auto, using(crate::proofs::GrownLemmas::guided_on, crate::proofs::GrownLemmas::sound_same, crate::proofs::GrownLemmas::further_same, crate::proofs::GrownLemmas::further_more, crate::proofs::GoingLemmas::arc_dropped, crate::proofs::GoingLemmas::arc_late, crate::proofs::GoingLemmas::arc_kept))]
    fn go_on(&mut self, case: &SweepCase, from: &Origin, step: &Step) -> Result<(), PriceError>
        requires sound { IsSound case.now self.old }
        requires origin { IsOrigin case.now from.now }
        requires chamber { step.now.chamber < length case.now.instance.now.chambers }
        ensures further { OnOk result (IsFurther case.now self.old self.new) }
        ensures led { OnOk result (IsArcLed case.now self.new.made from.now.label step.now.chamber step.now.way step.now.arc) }
    {
        let label = gone_on(case.instance, case.arrivals, &from.label, step)?;
        let gains = gains_of(case, self.lanes, 0, &label)?;
        let missing = Missing {
            ships: less(from.missing.ships, step.arc.prices)?,
            triples: missing_triples(case, &label.served),
        };
        let above = is_above(case, &label, missing, &gains, self.made.goal)?;
        if above {
            return Ok(());
        }
        let late = is_late_above(case, &label, missing.triples, &gains, self.made.goal)?;
        if late {
            return Ok(());
        }
        let split = self.is_split_above(case, &label)?;
        if split {
            return Ok(());
        }
        let kept = KeptLabel {
            label,
            parent: Some(from.number),
            chamber: step.chamber,
            start: step.arc.start,
        };
        self.keep(case, kept)?;
        Ok(())
    }

    // Goes on by arcs of a chamber and a way.
    #[tactic(auto, using(crate::proofs::GrownLemmas::further_same, crate::proofs::GrownLemmas::further_more, crate::proofs::GrownLemmas::arcs_led_none, crate::proofs::GrownLemmas::arcs_led_more))]
    fn go_by_arcs(
        &mut self,
        case: &SweepCase,
        from: &Origin,
        chamber: u8,
        way: Way,
        arcs: &[Arc],
    ) -> Result<(), PriceError>
        requires sound { IsSound case.now self.old }
        requires origin { IsOrigin case.now from.now }
        requires chamber { chamber < length case.now.instance.now.chambers }
        ensures further { OnOk result (IsFurther case.now self.old self.new) }
        ensures led { OnOk result (AreArcsLed case.now self.new.made from.now.label chamber way (length arcs.now) arcs.now) }
    {
        for place in 0..arcs.len() {
            let arc = arcs[place];
            self.go_on(case, from, &Step { chamber, way, arc })?;
        }
        Ok(())
    }

    // Goes on by a chamber and a way.
    #[tactic(auto, using(crate::proofs::GrownLemmas::guided_on, crate::proofs::GrownLemmas::sound_same, crate::proofs::GrownLemmas::further_same, crate::proofs::GrownLemmas::further_more, crate::proofs::GoingLemmas::way_led))]
    fn go_by(
        &mut self,
        case: &SweepCase,
        from: &Origin,
        chamber: u8,
        way: Way,
    ) -> Result<(), PriceError>
        requires sound { IsSound case.now self.old }
        requires origin { IsOrigin case.now from.now }
        requires chamber { chamber < length case.now.instance.now.chambers }
        ensures further { OnOk result (IsFurther case.now self.old self.new) }
        ensures led { OnOk result (IsWayLed case.now self.new.made (label_of from.now.label) chamber way) }
    {
        let place = chamber as usize;
        let minute = from.label.ready[place].by(way);
        let room = room_of(case, from, place, self.made.goal)?;
        let asked = ArcsAsked {
            way,
            minute,
            served: from.label.served,
            room,
            spread: self.spread,
        };
        let arcs = arcs_of(case, self.lanes, place, &asked)?;
        self.go_by_arcs(case, from, chamber, way, &arcs)?;
        Ok(())
    }

    // Goes on by a chamber.
    #[tactic(auto, using(crate::proofs::GrownLemmas::further_more, crate::proofs::GrownLemmas::way_led_on))]
    fn go_by_both(&mut self, case: &SweepCase, from: &Origin, chamber: u8) -> Result<(), PriceError>
        requires sound { IsSound case.now self.old }
        requires origin { IsOrigin case.now from.now }
        requires chamber { chamber < length case.now.instance.now.chambers }
        ensures further { OnOk result (IsFurther case.now self.old self.new) }
        ensures up { OnOk result (IsWayLed case.now self.new.made (label_of from.now.label) chamber Way.Up) }
        ensures down { OnOk result (IsWayLed case.now self.new.made (label_of from.now.label) chamber Way.Down) }
    {
        self.go_by(case, from, chamber, Way::Up)?;
        self.go_by(case, from, chamber, Way::Down)?;
        Ok(())
    }

    // Goes on by all chambers.
    #[tactic(auto, using(crate::proofs::GrownLemmas::further_same, crate::proofs::GrownLemmas::further_more, crate::proofs::GrownLemmas::led_none, crate::proofs::GrownLemmas::led_more))]
    fn go_by_all(&mut self, case: &SweepCase, from: &Origin) -> Result<(), PriceError>
        requires sound { IsSound case.now self.old }
        requires origin { IsOrigin case.now from.now }
        ensures further { OnOk result (IsFurther case.now self.old self.new) }
        ensures led { OnOk result (AreLed case.now self.new.made (label_of from.now.label) (length case.now.instance.now.chambers)) }
    {
        let count = case.instance.chambers.as_slice().len() as u8;
        for chamber in 0..count {
            self.go_by_both(case, from, chamber)?;
        }
        Ok(())
    }

    // Closes a treated label.
    #[tactic(auto, using(crate::proofs::GrownLemmas::closed_further))]
    fn close(&mut self, case: &SweepCase, number: u32)
        requires sound { IsSound case.now self.old }
        requires treated { IsTreated case.now.instance.now (cuts_of case.now) self.old.made.goal (labels_of self.old.made.labels.items.items) number }
        ensures { IsFurther case.now self.old self.new }
    {
        self.made.labels.close(number as usize);
    }

    // Goes on from the label of a number that misses a ship, unless its bound is above the goal, and closes it.
    #[tactic(auto, using(crate::proofs::GrownLemmas::further_more, crate::proofs::GoingLemmas::at_number, crate::proofs::GoingLemmas::at_number_on, crate::proofs::GoingLemmas::bound_treated, crate::proofs::GoingLemmas::late_treated, crate::proofs::GoingLemmas::led_treated))]
    fn treat(&mut self, case: &SweepCase, from: &Origin, missed: u8) -> Result<(), PriceError>
        requires sound { IsSound case.now self.old }
        requires origin { IsOrigin case.now from.now }
        requires within { from.now.number < length self.old.made.labels.items.items }
        requires label { (d : AnyLabel) → from.now.label ≡ (slice_index_or self.old.made.labels.items.items from.now.number d).label }
        requires known { missed < length case.now.instance.now.ships }
        requires missing { is_in from.now.label.served.bits missed ≡ false }
        ensures { OnOk result (IsFurther case.now self.old self.new) }
    {
        let above = is_above(case, &from.label, from.missing, &from.gains, self.made.goal)?;
        if above {
            self.close(case, from.number);
            return Ok(());
        }
        let late = is_late_above(
            case,
            &from.label,
            from.missing.triples,
            &from.gains,
            self.made.goal,
        )?;
        if late {
            self.close(case, from.number);
            return Ok(());
        }
        self.go_by_all(case, from)?;
        self.close(case, from.number);
        Ok(())
    }

    // Goes on from the label of a number, and closes it.
    #[tactic(auto, using(crate::proofs::GrownLemmas::guided_on, crate::proofs::GrownLemmas::sound_same, crate::proofs::GrownLemmas::further_same, crate::proofs::GrownLemmas::further_more))]
    fn expand(&mut self, case: &SweepCase, number: u32, label: Label) -> Result<(), PriceError>
        requires sound { IsSound case.now self.old }
        requires within { number < length self.old.made.labels.items.items }
        requires label { (d : AnyLabel) → label ≡ (slice_index_or self.old.made.labels.items.items number d).label }
        ensures { OnOk result (IsFurther case.now self.old self.new) }
    {
        let Some(missed) = case.first_missing(&label.served) else {
            return Err(PriceError::TooMany);
        };
        let missing = missing_of(case, &label.served)?;
        let gains = gains_of(case, self.lanes, 0, &label)?;
        let from = Origin {
            number,
            label,
            missing,
            gains,
        };
        self.treat(case, &from, missed)?;
        Ok(())
    }

    // Goes on from the label of a number, where it is open.
    #[tactic(auto, using(crate::proofs::GrownLemmas::further_same))]
    fn settle(&mut self, case: &SweepCase, number: u32) -> Result<(), PriceError>
        requires { IsSound case.now self.old }
        ensures { OnOk result (IsFurther case.now self.old self.new) }
    {
        match self.made.labels.open_label(number as usize) {
            None => Ok(()),
            Some(label) => self.expand(case, number, label),
        }
    }

    // Goes on from labels until the queue has none, or there are more than may be.
    #[tactic(auto, using(crate::proofs::GrownLemmas::guided_on, crate::proofs::GrownLemmas::sound_same, crate::proofs::GrownLemmas::further_same, crate::proofs::GrownLemmas::further_more))]
    fn settle_all(&mut self, case: &SweepCase) -> Result<(), PriceError>
        requires { IsSound case.now self.old }
        ensures { OnOk result (IsFurther case.now self.old self.new) }
    {
        for _ in 0..u64::MAX {
            if self.made.labels.items.len() >= self.most {
                return Ok(());
            }
            match self.queue.take()? {
                None => return Ok(()),
                Some(number) => self.settle(case, number)?,
            }
        }
        Ok(())
    }

    // Goes on from all labels; whether none is open in the end.
    fn run(&mut self, case: &SweepCase) -> Result<bool, PriceError>
        requires { IsSound case.now self.old }
        ensures further { OnOk result (IsFurther case.now self.old self.new) }
        ensures closed { IfOk result (λ done. IsTrue done → (k : ℕ) → open_at self.new.made.labels.are_open.items k ≡ false) }
    {
        self.settle_all(case)?;
        Ok(are_closed(&self.made.labels.are_open))
    }

    // Begins with a label.
    #[tactic(auto, using(crate::proofs::GrownLemmas::guided_on, crate::proofs::GrownLemmas::sound_same, crate::proofs::GrownLemmas::further_same, crate::proofs::GrownLemmas::further_more))]
    fn begin(&mut self, case: &SweepCase, label: Label) -> Result<(), PriceError>
        requires { IsSound case.now self.old }
        ensures further { OnOk result (IsFurther case.now self.old self.new) }
        ensures met { OnOk result (IsMetBy case.now self.new.made (label_of label)) }
    {
        let missing = missing_of(case, &label.served)?;
        let gains = gains_of(case, self.lanes, 0, &label)?;
        self.spread = spread_of(case, &label, missing, &gains, self.made.goal)?;
        let kept = KeptLabel {
            label,
            parent: None,
            chamber: 0,
            start: 0,
        };
        self.keep(case, kept)?;
        Ok(())
    }

    // Forgets all labels, and takes a cost that is to be swept. What is kept of the chambers stays.
    fn restart(&mut self, alloc: Global, case: &SweepCase, goal: u64) -> Result<(), PriceError>
        requires { IsSound case.now self.old }
        ensures sound { OnOk result (IsSound case.now self.new) }
        ensures known { OnOk result (self.new.known ≡ self.old.known) }
    {
        self.made = Made::new(alloc, goal)?;
        self.queue = Queue::new(alloc);
        Ok(())
    }

    /// Sweeps a cost behind a label; whether no label is open in the end.
    pub(crate) fn sweep_behind(
        &mut self,
        alloc: Global,
        case: &SweepCase,
        label: Label,
        goal: u64,
    ) -> Result<bool, PriceError>
        requires { IsSound case.now self.old }
        ensures sound { OnOk result (IsSound case.now self.new) }
        ensures known { OnOk result (self.new.known ≡ self.old.known) }
        ensures done { IfOk result (λ done. IsTrue done → IsDone case.now self.new.made (label_of label)) }
    {
        self.restart(alloc, case, goal)?;
        self.begin(case, label)?;
        let done = self.run(case)?;
        Ok(done)
    }

    /// Sweeps a cost. Where it is done the goal is swept in the end, which is the cost, or that of a plan that
    /// was found.
    pub(crate) fn sweep(
        &mut self,
        alloc: Global,
        case: &SweepCase,
        goal: u64,
    ) -> Result<bool, PriceError>
        requires { IsSound case.now self.old }
        ensures sound { OnOk result (IsSound case.now self.new) }
        ensures swept { IfOk result (λ done. IsTrue done → IsSwept case.now.instance.now (cuts_of case.now) self.new.made.goal) }
    {
        let first = self.known.first;
        let done = self.sweep_behind(alloc, case, first, goal)?;
        Ok(done)
    }
}
