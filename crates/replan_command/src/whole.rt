//! What was shown of a plan of the rest, said of the whole plan.
ghost use Rattle.std.specs.Prelude.{◌≡◌, ◌^◌};
ghost use Rattle.std.specs.List.Sorted.{IsStrictlyIncreasing};
ghost use Rattle.lock_rules.specs.Plan.{IsLegal, cost_of};
ghost use Rattle.replan_command.specs.Keeping.{in_whole};
ghost use Rattle.replan_command.specs.Searches.{IsToldBelow};

use chamber_times::cost;
use lock_model::{Instance, Plan, Verdict};
use replan::{Residual, ships_of};

// The verdict with its ships renumbered and its lower bound raised.
fn renumbered(numbers: &[u8], added: u64, verdict: &Verdict) -> Verdict
    requires told { IsToldBelow (2 ^ 64) numbers.now added verdict.now }
    requires rising { IsStrictlyIncreasing numbers.now }
    ensures { result ≡ in_whole numbers.now added verdict.now }
{
    match verdict {
        Verdict::Optimal => Verdict::Optimal,
        Verdict::OpenNodes { used, low } => Verdict::OpenNodes {
            used: *used,
            low: *low + added,
        },
        Verdict::OpenTurns {
            chamber,
            ships,
            turns,
            low,
        } => Verdict::OpenTurns {
            chamber: *chamber,
            ships: ships_of(numbers, ships),
            turns: *turns,
            low: *low + added,
        },
    }
}

/// The verdict on a plan of the rest, its ships told by their numbers in the instance, and its lower
/// bound raised by what the whole plan costs more. It stays below the whole plan's cost.
#[tactic(auto, using(lock_rules::proofs::LegalLemmas::of_legal_plans, crate::proofs::KeepingLemmas::told_more))]
pub(crate) fn in_whole(
    instance: &Instance,
    left: &Residual,
    plan: &Plan,
    verdict: &Verdict,
) -> Verdict
    requires legal { IsLegal instance.now plan.now }
    requires told { IsToldBelow (cost_of instance.now plan.now) left.now.numbers left.now.added verdict.now }
    requires rising { IsStrictlyIncreasing left.now.numbers }
    ensures { result ≡ in_whole left.now.numbers left.now.added verdict.now }
{
    // The cost is small, so the raised bound is too.
    let _cost = cost(instance, plan);
    renumbered(left.numbers.as_slice(), left.added, verdict)
}
