//! How labels go on.
ghost use Rattle.std.specs.Prelude.{ℕ, ◌≡◌, ◌+◌, ◌≤◌, ◌<◌, max, List, length, IfOk};
ghost use Rattle.lock_model.specs.declared.way.Way.{Way};
ghost use Rattle.lock_model.specs.declared.group.Group.{Group};
ghost use Rattle.lock_rules.specs.Lawful.{stand_after};
ghost use Rattle.lock_rules.specs.Timetable.{ready_at};
ghost use Rattle.price_rules.specs.Prices.{PlainCut};
ghost use Rattle.sweep_rules.specs.Label.{IsFirstLabel, IsGoneOn};
ghost use Rattle.sweep_labels.specs.declared.arrivals.Arrivals.{Arrivals};
ghost use Rattle.sweep_labels.specs.Labels.{ready_by, label_of};
ghost use Rattle.sweep_labels.specs.Coming.{AreRaised, AllArrive};
ghost use Rattle.sweep_labels.specs.Steps.{IsStepBy, low_by, low_first, AllRaised};

use crate::arrivals::Arrivals;
use crate::label::Label;
use crate::minutes::minute_of;
use crate::ready_times::ReadyTimes;
use crate::ship_set::ShipSet;
use crate::step::Step;
use chamber_times::{ready, stand_after};
use lock_model::{CHAMBERS, Chamber, Instance, Stand, Way};
use price_terms::PriceError;

// When a chamber may go on that stands so and is done with all before at a minute.
fn ready_from(
    chamber: &Chamber,
    arrivals: &Arrivals,
    stand: Stand,
    served: &ShipSet,
    from: u32,
) -> Result<ReadyTimes, PriceError>
    requires { chamber.now.turn ≤ 1000000 }
    ensures { IfOk result (AreRaised arrivals.now served.now.bits (ready_at chamber.now stand from)) }
{
    let up_from = ready(chamber, stand, from as u64, Way::Up);
    let down_from = ready(chamber, stand, from as u64, Way::Down);
    let low_up = minute_of(up_from)?;
    let low_down = minute_of(down_from)?;
    let up = arrivals.up.raised(served, low_up);
    let down = arrivals.down.raised(served, low_down);
    Ok(ReadyTimes { up, down })
}

// When another chamber may go on beside a step of a way, no sooner than at a minute: ships of the other way
// are still missing as before.
#[tactic(auto, using(crate::proofs::ComingLemmas::raised_itself))]
fn ready_beside(
    arrivals: &Arrivals,
    before: &ReadyTimes,
    way: Way,
    served: &ShipSet,
    low: u32,
) -> ReadyTimes
    ensures { AreRaised arrivals.now served.now.bits (λ w. max (ready_by before.now w) low) result }
{
    let up = before.up.max(low);
    let down = before.down.max(low);
    match way {
        Way::Up => ReadyTimes {
            up: arrivals.up.raised(served, up),
            down,
        },
        Way::Down => ReadyTimes {
            up,
            down: arrivals.down.raised(served, down),
        },
    }
}

// The minute from which on another chamber may go on beside a step: lockages come in the order of their
// starts and chambers.
fn low_beside(step: &Step, at: usize) -> Result<u32, PriceError>
    ensures after { step.now.chamber < at → IfOk result (λ low. low ≡ step.now.arc.start) }
    ensures before { at ≤ step.now.chamber → IfOk result (λ low. low ≡ step.now.arc.start + 1) }
{
    if at > step.chamber as usize {
        return Ok(step.arc.start);
    }
    match step.arc.start.checked_add(1) {
        Some(low) => Ok(low),
        None => Err(PriceError::TooMany),
    }
}

// When a chamber may go on behind a step.
#[tactic(auto, using(crate::proofs::GoingLemmas::low_own, crate::proofs::GoingLemmas::low_later, crate::proofs::GoingLemmas::low_sooner))]
fn ready_after(
    instance: &Instance,
    arrivals: &Arrivals,
    label: &Label,
    step: &Step,
    served: &ShipSet,
    at: usize,
) -> Result<ReadyTimes, PriceError>
    requires { at < length instance.now.chambers }
    ensures { IfOk result (AreRaised arrivals.now served.now.bits (low_by instance.now label.now step.now at)) }
{
    if at == step.chamber as usize {
        let own = &instance.chambers.as_slice()[at];
        return ready_from(own, arrivals, stand_after(step.way), served, step.arc.end);
    }
    let low = low_beside(step, at)?;
    Ok(ready_beside(arrivals, &label.ready[at], step.way, served, low))
}

// When all chambers may go on behind a step.
#[tactic(auto, using(crate::proofs::GoingLemmas::raised_none, crate::proofs::GoingLemmas::raised_more))]
fn all_ready_after(
    instance: &Instance,
    arrivals: &[Arrivals],
    label: &Label,
    step: &Step,
    served: &ShipSet,
) -> Result<[ReadyTimes; CHAMBERS], PriceError>
    requires { length arrivals.now ≡ length instance.now.chambers }
    ensures { IfOk result (AllRaised (low_by instance.now label.now step.now) arrivals.now served.now.bits (length instance.now.chambers)) }
{
    let mut times = [ReadyTimes::never(); CHAMBERS];
    for at in 0..instance.chambers.as_slice().len() {
        times[at] = ready_after(instance, &arrivals[at], label, step, served, at)?;
    }
    Ok(times)
}

// A sum of flow times; one that a u32 doesn't hold is refused, which no plan's is.
fn added(flow: u32, more: u32) -> Result<u32, PriceError>
    ensures { IfOk result (λ all. all ≡ flow + more) }
{
    match flow.checked_add(more) {
        Some(all) => Ok(all),
        None => Err(PriceError::TooMany),
    }
}

/// A label that has gone on by a step: whatever cuts the arrivals are listed by, and whatever group the
/// step is, that label of the rules gone on by the group.
pub fn gone_on(
    instance: &Instance,
    arrivals: &[Arrivals],
    label: &Label,
    step: &Step,
) -> Result<Label, PriceError>
    requires level { length arrivals.now ≡ length instance.now.chambers }
    requires chamber_in { step.now.chamber < length instance.now.chambers }
    ensures { IfOk result (λ next. (cuts : List PlainCut) → AllArrive instance.now cuts arrivals.now → (g : Group) → IsStepBy instance.now (label_of label.now) g step.now → IsGoneOn instance.now cuts (label_of label.now) step.now.chamber g (label_of next)) }
{
    let served = label.served.joined(&step.arc.ships);
    let ready = all_ready_after(instance, arrivals, label, step, &served)?;
    let flow = added(label.flow, step.arc.flow)?;
    Ok(Label {
        served,
        ready,
        flow,
    })
}

// When all chambers may go on at first.
#[tactic(auto, using(crate::proofs::GoingLemmas::raised_none, crate::proofs::GoingLemmas::raised_more))]
fn all_first_ready(
    instance: &Instance,
    arrivals: &[Arrivals],
    served: &ShipSet,
) -> Result<[ReadyTimes; CHAMBERS], PriceError>
    requires { length arrivals.now ≡ length instance.now.chambers }
    ensures { IfOk result (AllRaised (low_first instance.now) arrivals.now served.now.bits (length instance.now.chambers)) }
{
    let mut times = [ReadyTimes::never(); CHAMBERS];
    for at in 0..instance.chambers.as_slice().len() {
        let own = &instance.chambers.as_slice()[at];
        times[at] = ready_from(own, &arrivals[at], own.stands, served, own.opens)?;
    }
    Ok(times)
}

/// The label that serves nobody: whatever cuts the arrivals are listed by, a first label of the rules.
pub fn first_label(instance: &Instance, arrivals: &[Arrivals]) -> Result<Label, PriceError>
    requires { length arrivals.now ≡ length instance.now.chambers }
    ensures { IfOk result (λ label. (cuts : List PlainCut) → AllArrive instance.now cuts arrivals.now → IsFirstLabel instance.now cuts (label_of label)) }
{
    let served = ShipSet::new();
    let ready = all_first_ready(instance, arrivals, &served)?;
    Ok(Label {
        served,
        ready,
        flow: 0,
    })
}
