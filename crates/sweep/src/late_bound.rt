//! What late ships cost by themselves, and the bound that it makes for labels that miss all of them.
ghost use Rattle.std.specs.Prelude.{◌≡◌, length, IsTrue, IfOk, OnOk};
ghost use Rattle.sweep_rules.specs.Completion.{EndsBelow};
ghost use Rattle.sweep_labels.specs.Coming.{AreRaised, AllArrive};
ghost use Rattle.sweep_labels.specs.Labels.{ready_by, label_of};
ghost use Rattle.sweep_labels.specs.Ships.{is_in, AreApart};
ghost use Rattle.sweep_labels.specs.Steps.{AllRaised};
ghost use Rattle.sweep_split.specs.Split.{early_label};
ghost use Rattle.sweep.specs.Bounds.{cuts_of, AreSameLanes, AreLanesFrom};
ghost use Rattle.sweep.specs.Late.{times_from};

use crate::late::LateShips;
use crate::origin::{gains_of, missing_triples};
use crate::soonest::is_late_above;
use crate::sweep_case::SweepCase;
use lock_model::CHAMBERS;
use price_terms::PriceError;
use sweep_arcs::Lane;
use sweep_labels::{Arrivals, Label, ReadyTimes, ShipSet};

/// Late ships, a first label, and the costs of the first of these late ships that are known, in minutes: from
/// the first label's minutes on nothing serves them with less flow time.
#[derive(Drop)]
pub(crate) struct LateCosts<'s> {
    pub(crate) late: &'s [LateShips],
    pub(crate) first: Label,
    pub(crate) costs: Vec<u64>,
}

// The minutes of a chamber, raised to the first arrivals of ships that aren't served.
fn raised_in(arrivals: &Arrivals, times: &ReadyTimes, served: &ShipSet) -> ReadyTimes
    ensures { AreRaised arrivals.now served.now.bits (ready_by times.now) result }
{
    ReadyTimes {
        up: arrivals.up.raised(served, times.up),
        down: arrivals.down.raised(served, times.down),
    }
}

/// The label that serves these ships and no flow time, where the chambers are as at a first label.
#[tactic(auto, using(sweep_labels::proofs::GoingLemmas::raised_none))]
pub(crate) fn first_late(case: &SweepCase, first: &Label, served: ShipSet) -> Label
    ensures flow { result.flow ≡ 0 }
    ensures served { result.served ≡ served }
    ensures raised { AllRaised (times_from first.now) case.now.arrivals.now served.bits (length case.now.instance.now.chambers) result.ready }
{
    let mut ready = [ReadyTimes::never(); CHAMBERS];
    for chamber in 0..case.instance.chambers.as_slice().len() {
        ready[chamber] = raised_in(&case.arrivals[chamber], &first.ready[chamber], &served);
    }
    Label {
        served,
        ready,
        flow: 0,
    }
}

/// Whether a label misses all late ships, and its early ships, by their prices, cost at least what is left of a
/// goal.
#[tactic(auto, using(crate::proofs::BoundLemmas::same_none))]
pub(crate) fn is_early_above(
    case: &SweepCase,
    lanes: &mut [Lane],
    late: &LateShips,
    label: &Label,
    left: u64,
) -> Result<bool, PriceError>
    requires arrive { AllArrive case.now.instance.now (cuts_of case.now) case.now.arrivals.now }
    requires lanes { AreLanesFrom case.now.instance.now (cuts_of case.now) late.now.prices late.now.first (length case.now.instance.now.chambers) lanes.old }
    ensures same { OnOk result (AreSameLanes lanes.old lanes.new) }
    ensures apart { IfOk result (λ above. IsTrue above → AreApart label.now.served.bits late.now.ships.bits) }
    ensures none { IfOk result (λ above. IsTrue above → EndsBelow case.now.instance.now (cuts_of case.now) left (early_label (label_of label.now) (is_in late.now.ships.bits)) → ⊥) }
{
    if !label.served.misses(&late.ships) {
        return Ok(false);
    }
    let own = SweepCase {
        instance: case.instance,
        cuts: case.cuts,
        prices: &late.prices,
        arrivals: case.arrivals,
    };
    let early = Label {
        served: label.served.joined(&late.ships),
        ready: label.ready,
        flow: label.flow,
    };
    let gains = gains_of(&own, lanes, late.first, &early)?;
    let triples = missing_triples(&own, &early.served);
    let above = is_late_above(&own, &early, triples, &gains, left)?;
    Ok(above)
}
