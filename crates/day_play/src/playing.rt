//! A plan played as a day.
ghost use Rattle.std.specs.Prelude.{◌≡◌, ◌↔◌};
ghost use Rattle.lock_rules.specs.Plan.{IsLegal};
ghost use Rattle.mooring_rules.specs.PlanBreaks.{IsFirstBrokenPlan};
ghost use Rattle.day_play.specs.Lawful.{IsLawfulDay, HasLawfulDay};
ghost use Rattle.day_play.specs.Playing.{CanAllComeIn, day_of};
ghost use Rattle.day_play.specs.Played.{OnDay, OnStuck};

use crate::day::Day;
use crate::lines::day_of;
use crate::rising::learn_rising;
use lock_model::{Instance, Plan};
use mooring_rules::{BrokenPlan, judge_plan};

/// What comes of playing a plan.
#[derive(Drop)]
pub enum Played {
    /// The plan is legal, and this is a lawful day of it.
    Day(Day),
    /// The plan isn't legal, so it has no lawful day, and this is its first break.
    Stuck(BrokenPlan),
}

/// Plays a plan as a day. `Day` exactly where the plan is legal: a lawful day of it, with a turn
/// only before a lockage that needs one, at the least lawful minute. The ships of a lockage moor in
/// an order in which all can come in: each host before its guests, and none blocked by one that is
/// moored. Else `Stuck` with the break of `judge_plan`. Exactly the legal plans have a lawful day,
/// whoever made it. Takes no memory.
pub fn play(instance: &Instance, plan: &Plan) -> Played
    ensures legal { OnDay result (λ d. IsLegal instance.now plan.now) }
    ensures lawful { OnDay result (IsLawfulDay instance.now plan.now) }
    ensures room { OnDay result (λ d. CanAllComeIn instance.now plan.now) }
    ensures day { OnDay result (λ d. d ≡ day_of instance.now plan.now) }
    ensures stuck { OnStuck result (λ b. IsFirstBrokenPlan instance.now plan.now b) }
    ensures illegal { OnStuck result (λ b. IsLegal instance.now plan.now → ⊥) }
    ensures exactly { HasLawfulDay instance.now plan.now ↔ IsLegal instance.now plan.now }
{
    learn_rising(plan);
    match judge_plan(instance, plan) {
        Some(broken) => Played::Stuck(broken),
        None => Played::Day(day_of(instance, plan)),
    }
}
