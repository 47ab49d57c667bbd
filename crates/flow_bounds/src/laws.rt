//! The law that the search rests on, as the contract of a function that does nothing.
ghost use Rattle.std.specs.Prelude.{◌↔◌, ℕ, List};
ghost use Rattle.lock_model.specs.declared.group.Group.{Group as AnyGroup};
ghost use Rattle.lock_model.specs.declared.plan.Plan.{Plan as AnyPlan};
ghost use Rattle.lock_rules.specs.Plan.{IsLegal, IsCheapest, cost_of};
ghost use Rattle.lock_rules.specs.Search.{IsWholeNode, IsLeastBound, HasWholeNode, HasPlanAtBound, IsCheapestCost, FitsAreDecided};
ghost use Rattle.lock_rules.specs.Unfit.{HasNoUnfit};

use lock_model::Instance;

/// The conclusion of the search tree: the least bound of the nodes that hold all ships and whose
/// groups all fit their chambers is the cost of a cheapest plan.
///
/// `plans`: every legal plan lies under such a node, which steps to children lead to from the root,
/// and costs at least its bound. `nodes`: under every such node a legal plan costs its bound.
/// `least` and `cheapest`: so the least of these bounds is what a cheapest plan costs, and a legal
/// plan is cheapest exactly where it costs so much. Where each ship fits some chamber alone, there
/// is such a node (`some`), and a least bound where it is known which groups fit (`exists`).
pub fn least_bound_is_cheapest(instance: &Instance)
    ensures plans { (P : AnyPlan) → IsLegal instance.now P → HasWholeNode instance.now P }
    ensures nodes { (lines : List (List AnyGroup)) → IsWholeNode instance.now lines → HasPlanAtBound instance.now lines }
    ensures least { (b : ℕ) → IsLeastBound instance.now b ↔ IsCheapestCost instance.now b }
    ensures cheapest { (P : AnyPlan) → IsLegal instance.now P → IsCheapest instance.now P ↔ IsLeastBound instance.now (cost_of instance.now P) }
    ensures some { HasNoUnfit instance.now → (lines : List (List AnyGroup)) × IsWholeNode instance.now lines }
    ensures exists { HasNoUnfit instance.now → FitsAreDecided instance.now → (b : ℕ) × IsLeastBound instance.now b }
{
    let _ = instance;
}
