//! What late ships cost by themselves.
ghost use Rattle.std.specs.Prelude.{◌≡◌, ◌+◌, ◌<◌, [], length, IfOk, OnOk};
ghost use Rattle.sweep_rules.specs.Completion.{EndsBelow};
ghost use Rattle.sweep_labels.specs.Labels.{label_of};
ghost use Rattle.sweep.specs.Bounds.{cuts_of, AreLanesOf, AreSameLanes};
ghost use Rattle.sweep.specs.Going.{IsSound};

use crate::asked::SweepAsked;
use crate::goals::Goals;
use crate::late::{LateShips, last_ships, late_ships};
use crate::late_bound::first_late;
use crate::origin::{gains_of, missing_of, spread_of};
use crate::sweep_case::SweepCase;
use crate::sweeper::Sweeper;
use price_terms::{PriceError, append};
use std::alloc::Global;
use sweep_arcs::Lane;
use sweep_labels::Label;

// How far above what prices bound a late cost is looked for, in minutes.
const LATE_REACH: u64 = 64;
// Late ships are far behind all others where the bound falls by so many ships' mean costs with one ship more.
const CLEAR_FALL: u64 = 4;

// What prices bound behind a label, in minutes.
fn low_of(case: &SweepCase, lanes: &mut [Lane], label: &Label) -> Result<u64, PriceError>
    requires lanes { AreLanesOf case.now 0 lanes.old }
    ensures same { OnOk result (AreSameLanes lanes.old lanes.new) }
{
    let gains = gains_of(case, lanes, 0, label)?;
    let missing = missing_of(case, &label.served)?;
    let room = spread_of(case, label, missing, &gains, 0)?;
    Ok(room.min(0).unsigned_abs() / 100)
}

// What prices bound of the last so many ships, in minutes.
fn low_of_last(
    case: &SweepCase,
    lanes: &mut [Lane],
    first: &Label,
    most: usize,
) -> Result<u64, PriceError>
    requires lanes { AreLanesOf case.now 0 lanes.old }
    ensures same { OnOk result (AreSameLanes lanes.old lanes.new) }
{
    let ships = last_ships(case.instance, most);
    let label = first_late(case, first, case.all_but(&ships));
    low_of(case, lanes, &label)
}

/// All sets of last ships that are far behind the others.
#[tactic(auto, using(crate::proofs::BoundLemmas::same_more))]
pub(crate) fn all_late_ships(
    alloc: Global,
    asked: &SweepAsked,
    case: &SweepCase,
    lanes: &mut [Lane],
    first: &Label,
) -> Result<Vec<LateShips>, PriceError>
    requires lanes { AreLanesOf case.now 0 lanes.old }
    ensures same { OnOk result (AreSameLanes lanes.old lanes.new) }
{
    let count = asked.instance.ships.as_slice().len();
    let chambers = asked.instance.chambers.as_slice().len();
    let mean = low_of(case, lanes, first)? / (count as u64).max(1);
    let fall = mean.saturating_mul(CLEAR_FALL);
    let mut before = 0;
    let mut all = Vec::new(alloc);
    for most in 1..count {
        let low = low_of_last(case, lanes, first, most)?;
        if before > low.saturating_add(fall) {
            let place = (all.len() + 1) * chambers;
            append(&mut all, late_ships(alloc, asked, most - 1, place)?)?;
        }
        before = low;
    }
    Ok(all)
}

impl Sweeper<'_, '_, '_> {
    // Sweeps ever greater costs behind a label; the greatest that is swept.
    #[tactic(auto, using(crate::proofs::GrownLemmas::guided_on, crate::proofs::GrownLemmas::sound_same, crate::proofs::GoingLemmas::done_none, crate::proofs::LateLemmas::zero_none))]
    fn late_cost(
        &mut self,
        alloc: Global,
        case: &SweepCase,
        label: Label,
    ) -> Result<u64, PriceError>
        requires { IsSound case.now self.old }
        ensures sound { OnOk result (IsSound case.now self.new) }
        ensures known { OnOk result (self.new.known ≡ self.old.known) }
        ensures none { IfOk result (λ cost. EndsBelow case.now.instance.now (cuts_of case.now) cost (label_of label) → ⊥) }
    {
        let low = low_of(case, self.lanes, &label)?;
        let last = low.saturating_add(LATE_REACH);
        let mut goals = Goals::new(low, low, last);
        let mut cost = 0;
        for _ in 0..u64::MAX {
            let goal = goals.next();
            if !self.sweep_behind(alloc, case, label, goal)? {
                return Ok(cost);
            }
            cost = self.made.goal;
            if cost < goal || goal == last {
                return Ok(cost);
            }
            goals.rise(self.made.labels.items.len() as u64, self.most as u64);
        }
        Ok(cost)
    }

    // Finds the cost of the late ships of a place, behind those that are known, and keeps it.
    fn find_cost(&mut self, alloc: Global, case: &SweepCase, place: usize) -> Result<(), PriceError>
        requires sound { IsSound case.now self.old }
        requires place { place ≡ length self.old.known.costs.items }
        requires within { place < length self.old.known.late.now }
        ensures sound { OnOk result (IsSound case.now self.new) }
        ensures late { OnOk result (self.new.known.late.now ≡ self.old.known.late.now) }
        ensures costs { OnOk result (length self.new.known.costs.items ≡ place + 1) }
    {
        let served = case.all_but(&self.known.late[place].ships);
        let label = first_late(case, &self.known.first, served);
        let cost = self.late_cost(alloc, case, label)?;
        append(&mut self.known.costs, cost)?;
        Ok(())
    }

    /// Finds the costs of all late ships, one after the other.
    pub(crate) fn find_costs(&mut self, alloc: Global, case: &SweepCase) -> Result<(), PriceError>
        requires sound { IsSound case.now self.old }
        requires none { self.old.known.costs.items ≡ [] }
        ensures { OnOk result (IsSound case.now self.new) }
    {
        for place in 0..self.known.late.len() {
            self.find_cost(alloc, case, place)?;
        }
        Ok(())
    }
}
