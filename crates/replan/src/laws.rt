//! Why a rest may be planned in the place of all plans that keep the kept part. Each law is the
//! contract of a function that does nothing.
ghost use Rattle.replan.specs.GoingOn.{LegalPlansGoOn, RestsGoOn, ComeFromLivedRests, StayCheapestAsLived};
ghost use Rattle.replan.specs.Together.{ComeFromRests, StayCheapest};

/// Every legal plan of the instance that keeps the kept plan comes, up to the order of its
/// lockages, from a legal plan of the rest, which costs less by the kept plan's cost and the delays
/// of the other ships.
pub fn plans_that_keep()
    ensures { ComeFromRests }
{}

/// A cheapest plan of the rest, put together with the kept plan, costs no more than any legal plan
/// that keeps the kept plan.
pub fn cheapest_that_keeps()
    ensures { StayCheapest }
{}

/// What has begun at a minute is what is played: the day that `play` tells of a legal plan, whose
/// lockages before the minute can be kept, goes on from the day of what has begun in it. So the plan
/// can still be carried out.
pub fn legal_plans_go_on()
    ensures { LegalPlansGoOn }
{}

/// Every legal plan of a rest as lived, put together with the begun lockages, is legal for the
/// instance, costs as much more as these and the delays of the other ships do, and can still be
/// carried out: it has a lawful day that goes on at the minute from the day of what has begun.
pub fn rests_go_on()
    ensures { RestsGoOn }
{}

/// Every legal plan of the instance that can still be carried out at the minute comes, up to the
/// order of its lockages, from a legal plan of the rest as lived.
pub fn plans_that_can_go_on()
    ensures { ComeFromLivedRests }
{}

/// A cheapest plan of the rest as lived, put together with the begun lockages, costs no more than any
/// legal plan that can still be carried out.
pub fn cheapest_that_can_go_on()
    ensures { StayCheapestAsLived }
{}
