//! What ships that a label misses cost at the least: a ship that has waited for long is served no sooner than
//! one of its chambers is ready.
ghost use Rattle.std.specs.Prelude.{◌≡◌, ◌+◌, ◌≤◌, ◌<◌, max, length, sum_by, IsTrue, IfOk};
ghost use Rattle.sweep_rules.specs.Completion.{EndsBelow};
ghost use Rattle.lock_model.specs.declared.limits.TheConstants.{SHIPS};
ghost use Rattle.sweep_rules.specs.Gain.{ships_missing, triples_missing};
ghost use Rattle.sweep_labels.specs.Coming.{AllArrive};
ghost use Rattle.sweep_labels.specs.Ships.{is_in};
ghost use Rattle.sweep_labels.specs.Labels.{label_of};
ghost use Rattle.sweep.specs.Bounds.{cuts_of, AreGains};
ghost use Rattle.sweep.specs.Soonest.{soon_at, cost_from, AreSoon, AreSoonIn, AreSoonBefore, AreLower, IsSteadyIn, AreSteadyBefore};

use crate::origin::{Missing, is_above};
use crate::sums::added;
use crate::sweep_case::SweepCase;
use lock_model::{CHAMBERS, SHIPS};
use price_terms::PriceError;
use sweep_labels::{Arrivals, Coming, ComingShips, Label, NEVER, ReadyTimes, ShipSet};

// By ship the minutes from its arrival until a lockage could have passed that serves it, without its handling.
type Soonest = [u32; SHIPS];

// Lowers the minutes of a ship to those of a chamber that is ready for it and passes in so many.
fn lower(soonest: &mut Soonest, one: &Coming, ready: u32, pass: u32)
    ensures own { one.now.ship < SHIPS → soon_at soonest.new one.now.ship + one.now.arrival ≤ max ready one.now.arrival + pass }
    ensures lower { AreLower soonest.old soonest.new }
{
    let place = one.ship as usize;
    let minutes = ready.max(one.arrival).saturating_add(pass) - one.arrival;
    if place < SHIPS && minutes < soonest[place] {
        soonest[place] = minutes;
    }
}

// Lowers the minutes of the ships that a chamber waits for on a way.
#[tactic(auto, using(crate::proofs::SoonestLemmas::lower_none, crate::proofs::SoonestLemmas::lower_more))]
fn lower_all(soonest: &mut Soonest, coming: &ComingShips, ready: u32, pass: u32)
    ensures own { AreSoon coming.now.items.items ready pass (length coming.now.items.items) soonest.new }
    ensures lower { AreLower soonest.old soonest.new }
{
    for one in &coming.items {
        lower(soonest, one, ready, pass);
    }
}

// Lowers the minutes of the ships that a chamber waits for.
fn lower_both(soonest: &mut Soonest, arrivals: &Arrivals, times: &ReadyTimes, pass: u32)
    ensures own { AreSoonIn arrivals.now times.now pass soonest.new }
    ensures lower { AreLower soonest.old soonest.new }
{
    lower_all(soonest, &arrivals.up, times.up, pass);
    lower_all(soonest, &arrivals.down, times.down, pass);
}

// The minutes of all ships behind a label.
#[tactic(auto, using(crate::proofs::SoonestLemmas::soon_none, crate::proofs::SoonestLemmas::soon_more))]
fn soonest_of(case: &SweepCase, label: &Label) -> Soonest
    ensures { AreSoonBefore case.now label.now (length case.now.instance.now.chambers) result }
{
    let mut soonest = [NEVER; SHIPS];
    for chamber in 0..case.instance.chambers.as_slice().len() {
        let pass = case.instance.chambers.as_slice()[chamber].pass;
        lower_both(
            &mut soonest,
            &case.arrivals[chamber],
            &label.ready[chamber],
            pass,
        );
    }
    soonest
}

// What a ship costs at the least, in hundredths of a minute: its price, or its soonest flow time where that is more.
fn cost_of(case: &SweepCase, soonest: &Soonest, ship: u8) -> u64
    requires { ship < length case.now.instance.now.ships }
    ensures { result ≡ cost_from case.now soonest.now ship }
{
    let handling = case.instance.ships.as_slice()[ship as usize].handling;
    let minutes = soonest[ship as usize] as u64 + handling as u64;
    (case.prices.at(ship) as u64).max(minutes * 100)
}

// What the ships that aren't served cost at the least, added.
#[tactic(auto, using(crate::proofs::BoundLemmas::filter_in, crate::proofs::BoundLemmas::filter_out))]
fn missing_cost(case: &SweepCase, soonest: &Soonest, served: &ShipSet) -> Result<u64, PriceError>
    ensures { IfOk result (λ sum. sum ≡ sum_by (cost_from case.now soonest.now) (ships_missing case.now.instance.now (is_in served.now.bits))) }
{
    let count = case.instance.ships.as_slice().len() as u8;
    let mut sum = 0;
    for ship in 0..count {
        if !served.has(ship) {
            sum = added(sum, cost_of(case, soonest, ship))?;
        }
    }
    Ok(sum)
}

// Whether a chamber is ready for each way no later than a lockage of the other one lets it be.
#[tactic(auto, using(crate::proofs::SoonestLemmas::steady_in))]
fn is_steady_in(arrivals: &Arrivals, served: &ShipSet, times: &ReadyTimes, pass: u32) -> bool
    ensures { IsTrue result → IsSteadyIn arrivals.now served.now.bits times.now pass }
{
    let up = arrivals.up.raised(served, times.down.saturating_add(pass));
    let down = arrivals.down.raised(served, times.up.saturating_add(pass));
    let ready = ReadyTimes { up, down };
    times.is_no_later(&ready)
}

// Whether all chambers are so behind a label.
#[tactic(auto, using(crate::proofs::SoonestLemmas::steady_none, crate::proofs::SoonestLemmas::steady_more))]
pub(crate) fn is_steady(case: &SweepCase, label: &Label) -> bool
    ensures { IsTrue result → AreSteadyBefore case.now label.now (length case.now.instance.now.chambers) }
{
    for chamber in 0..case.instance.chambers.as_slice().len() {
        let pass = case.instance.chambers.as_slice()[chamber].pass;
        if !is_steady_in(
            &case.arrivals[chamber],
            &label.served,
            &label.ready[chamber],
            pass,
        ) {
            return false;
        }
    }
    true
}

/// The prices of what a label misses, each missing ship at its soonest flow time where that is more; only of
/// labels whose chambers are steady.
pub(crate) fn with_soonest(
    case: &SweepCase,
    label: &Label,
    missing: Missing,
) -> Result<Missing, PriceError> {
    let mut ships = missing.ships;
    if is_steady(case, label) {
        let soonest = soonest_of(case, label);
        ships = missing_cost(case, &soonest, &label.served)?;
    }
    Ok(Missing { ships, ..missing })
}

/// Whether a label's bound is above the goal where each missing ship costs at least its price and its soonest
/// flow time; only of labels whose chambers are steady.
#[tactic(auto, using(crate::proofs::SoonestLemmas::late_none))]
pub(crate) fn is_late_above(
    case: &SweepCase,
    label: &Label,
    triples: u64,
    gains: &[u64; CHAMBERS],
    goal: u64,
) -> Result<bool, PriceError>
    requires arrive { AllArrive case.now.instance.now (cuts_of case.now) case.now.arrivals.now }
    requires triples { triples ≡ triples_missing case.now.instance.now case.now.prices.now (label_of label.now).served }
    requires gains { AreGains case.now (label_of label.now) gains.now }
    ensures { IfOk result (λ above. IsTrue above → EndsBelow case.now.instance.now (cuts_of case.now) goal (label_of label.now) → ⊥) }
{
    if !is_steady(case, label) {
        return Ok(false);
    }
    let soonest = soonest_of(case, label);
    let ships = missing_cost(case, &soonest, &label.served)?;
    let above = is_above(case, label, Missing { ships, triples }, gains, goal)?;
    Ok(above)
}
