//! A plan of the rest, put together with the kept plan.
ghost use Rattle.std.specs.Prelude.{◌≡◌, ◌+◌, ◌≤◌, ◌<◌, ℕ, length, All, IsSomeAnd, Some, map};
ghost use Rattle.std.specs.List.Sorted.{IsStrictlyIncreasing};
ghost use Rattle.lock_model.specs.declared.instance.Instance.{Instance as AnyInstance};
ghost use Rattle.lock_model.specs.declared.plan.Plan.{Plan as AnyPlan};
ghost use Rattle.lock_rules.specs.Plan.{IsLegal, cost_of};
ghost use Rattle.replan.specs.GoingOn.{CanGoOn};
ghost use Rattle.replan.specs.Kept.{kept_of};
ghost use Rattle.replan.specs.Lived.{IsLivedLeft};
ghost use Rattle.replan.specs.Rest.{IsLeft};
ghost use Rattle.replan.specs.Together.{number_of, renumbered, joined, Keeps};

use crate::remainder::Residual;
use lock_model::{Instance, Lockage, Plan, SHIPS, Ships};

/// Ships of the rest by their numbers in the instance.
pub fn ships_of(numbers: &[u8], ships: &Ships) -> Ships
    requires known { All (λ s. s < length numbers.now) ships.now }
    requires rising { IsStrictlyIncreasing numbers.now }
    ensures { result ≡ map (number_of numbers.now) ships.now }
{
    let mut renumbered = Ships::new();
    for &ship in ships.as_slice() {
        renumbered.push(numbers[ship as usize]);
    }
    renumbered
}

/// A lockage of the rest, its ships told by their numbers in the instance.
fn renumbered(numbers: &[u8], lockage: &Lockage) -> Lockage
    requires known { All (λ s. s < length numbers.now) lockage.now.ships }
    requires rising { IsStrictlyIncreasing numbers.now }
    ensures { result ≡ renumbered numbers.now lockage.now }
{
    Lockage {
        chamber: lockage.chamber,
        way: lockage.way,
        ships: ships_of(numbers, &lockage.ships),
        start: lockage.start,
        spots: lockage.spots.copy(),
    }
}

/// The kept lockages, and then those of a plan of the rest.
fn joined(kept: &Plan, numbers: &[u8], found: &Plan) -> Plan
    requires known { All (λ l. All (λ s. s < length numbers.now) l.ships) found.now.lockages }
    requires rising { IsStrictlyIncreasing numbers.now }
    requires few { length kept.now.lockages + length found.now.lockages ≤ SHIPS }
    ensures { result ≡ joined kept.now numbers.now found.now }
{
    let mut lockages = kept.lockages.copy();
    for lockage in found.lockages.as_slice() {
        lockages.push(renumbered(numbers, lockage));
    }
    Plan { lockages }
}

/// Puts a legal plan of a rest as lived together with the begun lockages: the result is legal for the
/// instance, can still be carried out at the minute, and costs what the found plan costs and `added`
/// minutes more. The residual is one that `rest_as_lived` gives for this instance, and its rest is
/// there. Takes no memory.
pub fn put_together_as_lived(instance: &Instance, residual: &Residual, found: &Plan) -> Plan
    requires left { (plan : AnyPlan) × ((minute : ℕ) × IsLivedLeft instance.now plan minute residual.now) }
    requires legal { IsSomeAnd residual.now.rest (λ rest. IsLegal rest found.now) }
    ensures legal { IsLegal instance.now result }
    ensures can { (plan : AnyPlan) (minute : ℕ) → IsLivedLeft instance.now plan minute residual.now
        → CanGoOn instance.now plan minute result }
    ensures cost { (rest : AnyInstance) → residual.now.rest ≡ Some rest
        → cost_of instance.now result ≡ cost_of rest found.now + residual.now.added }
    ensures value { result ≡ joined residual.now.kept residual.now.numbers found.now }
{
    joined(&residual.kept, residual.numbers.as_slice(), found)
}

/// Puts a legal plan of the rest together with the kept plan: the result is legal for the
/// instance, keeps the kept plan, and costs what the found plan costs and `added` minutes more.
/// The residual is one that `residual` gives for this instance, and its rest is there. Takes no
/// memory.
pub fn put_together(instance: &Instance, residual: &Residual, found: &Plan) -> Plan
    requires left { (plan : AnyPlan) × ((from : ℕ) × IsLeft instance.now (kept_of plan from) from residual.now) }
    requires legal { IsSomeAnd residual.now.rest (λ rest. IsLegal rest found.now) }
    ensures legal { IsLegal instance.now result }
    ensures keeps { (plan : AnyPlan) (from : ℕ) → IsLeft instance.now (kept_of plan from) from residual.now
        → Keeps residual.now.kept from result }
    ensures cost { (rest : AnyInstance) → residual.now.rest ≡ Some rest
        → cost_of instance.now result ≡ cost_of rest found.now + residual.now.added }
    ensures value { result ≡ joined residual.now.kept residual.now.numbers found.now }
{
    joined(&residual.kept, residual.numbers.as_slice(), found)
}
