//! Which plans have a plan text.
ghost use Rattle.std.specs.Prelude.{◌↔◌};
ghost use Rattle.lock_model.specs.declared.instance.Instance.{Instance as AnyInstance};
ghost use Rattle.lock_model.specs.declared.plan.Plan.{Plan as AnyPlan};
ghost use Rattle.plan_text.specs.Reading.{HasPlanText};
ghost use Rattle.plan_text.specs.Writable.{AreWritable};

/// A plan has a plan text exactly where it is writable: it has at most
/// `most_lockages` lockages, their chambers and ships are the instance's, each ship has a spot, each
/// host is a ship of the lockage, and no number is over its limit.
pub fn plans_with_texts()
    ensures { (i : AnyInstance) (plan : AnyPlan) → HasPlanText i plan ↔ AreWritable i plan }
{}
