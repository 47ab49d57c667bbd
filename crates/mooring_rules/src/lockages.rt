//! The first break of placements, of cargo and of times in a plan.
ghost use Rattle.std.specs.Prelude.{◌<◌, IfNone, IfSome};
ghost use Rattle.lock_model.specs.Fitting.{deck_of};
ghost use Rattle.mooring_rules.specs.PlacementBreaks.{IsFirstBroken};
ghost use Rattle.mooring_rules.specs.CargoBreaks.{AreFirstClashing};
ghost use Rattle.mooring_rules.specs.PlanBreaks.{HasShape, AreShaped, IsPlaced, ArePlaced, IsClear, AreClear, AreOnTime};
ghost use Rattle.mooring_rules.specs.PlanBreaks.{IsFirstMisplaced, IsFirstClash, IsFirstUntimely};

use crate::breaks::Broken;
use crate::cargo::first_clash;
use crate::placement::judge_spots;
use chamber_times::{BrokenTime, judge_line};
use lock_model::{Instance, Lockage, Plan, deck_of};

/// The first break of the placement of a lockage.
fn judge_deck(instance: &Instance, lockage: &Lockage) -> Option<Broken>
    requires { HasShape instance.now lockage.now }
    ensures none { IfNone result (IsPlaced instance.now lockage.now) }
    ensures some { IfSome result
        (IsFirstBroken (deck_of instance.now lockage.now.chamber lockage.now.ships) lockage.now.spots) }
{
    let deck = deck_of(instance, lockage.chamber, &lockage.ships);
    judge_spots(&deck, &lockage.spots)
}

/// The first two ships of a lockage that clash, by their places in its deck.
fn judge_cargo(instance: &Instance, lockage: &Lockage) -> Option<(u8, u8)>
    requires { HasShape instance.now lockage.now }
    ensures none { IfNone result (IsClear instance.now lockage.now) }
    ensures some { IfSome result
        (λ p. AreFirstClashing (deck_of instance.now lockage.now.chamber lockage.now.ships) p.0 p.1) }
{
    let deck = deck_of(instance, lockage.chamber, &lockage.ships);
    first_clash(&deck)
}

/// The first lockage whose placement isn't legal, and the first break of that.
pub(crate) fn first_misplaced(instance: &Instance, plan: &Plan) -> Option<(u8, Broken)>
    requires { AreShaped instance.now plan.now }
    ensures none { IfNone result (ArePlaced instance.now plan.now) }
    ensures some { IfSome result (λ b. IsFirstMisplaced instance.now plan.now b.0 b.1) }
{
    let lockages = plan.lockages.as_slice();
    for p in 0..lockages.len() as u8 {
        if let Some(broken) = judge_deck(instance, &lockages[p as usize]) {
            return Some((p, broken));
        }
    }
    None
}

/// The first lockage of which two ships clash, and the first two that do.
pub(crate) fn first_clashing(instance: &Instance, plan: &Plan) -> Option<(u8, u8, u8)>
    requires { AreShaped instance.now plan.now }
    ensures none { IfNone result (AreClear instance.now plan.now) }
    ensures some { IfSome result (λ b. IsFirstClash instance.now plan.now b.0 b.1 b.2) }
{
    let lockages = plan.lockages.as_slice();
    for p in 0..lockages.len() as u8 {
        if let Some((i, j)) = judge_cargo(instance, &lockages[p as usize]) {
            return Some((p, i, j));
        }
    }
    None
}

/// The first chamber whose line isn't lawful, and the first break of that.
pub(crate) fn first_untimely(instance: &Instance, plan: &Plan) -> Option<(u8, BrokenTime)>
    requires { AreShaped instance.now plan.now }
    ensures none { IfNone result (AreOnTime instance.now plan.now) }
    ensures some { IfSome result (λ b. IsFirstUntimely instance.now plan.now b.0 b.1) }
{
    let count = instance.chambers.as_slice().len() as u8;
    for chamber in 0..count {
        if let Some(broken) = judge_line(instance, chamber, plan) {
            return Some((chamber, broken));
        }
    }
    None
}
