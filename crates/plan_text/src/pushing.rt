//! Plans whose ships are pushed to the near ends of their chambers.
ghost use Rattle.std.specs.Prelude.{◌≡◌, ◌<◌};
ghost use Rattle.lock_model.specs.Fitting.{deck_of};
ghost use Rattle.lock_rules.specs.Plan.{IsLegal, IsLegalLockage};
ghost use Rattle.plan_text.specs.Neat.{IsNearer, DiffersInX, IsNeat, AreNeat};

use deck_laws::normalise;
use lock_model::{Instance, Lockage, Lockages, Plan, deck_of};

/// The same lockage with a normal placement.
fn neat_lockage(instance: &Instance, lockage: &Lockage) -> Lockage
    requires { IsLegalLockage instance.now lockage.now }
    ensures nearer { IsNearer lockage.now result }
    ensures normal { IsNeat instance.now result }
{
    let deck = deck_of(instance, lockage.chamber, &lockage.ships);
    let mut spots = lockage.spots.copy();
    normalise(&deck, &mut spots);
    Lockage {
        chamber: lockage.chamber,
        way: lockage.way,
        ships: lockage.ships.copy(),
        start: lockage.start,
        spots,
    }
}

/// The plan with every placement normalised: it is legal, differs from the legal plan that is given
/// in x alone, has no greater x, and all its placements are normal. Takes no memory.
pub fn neat(instance: &Instance, plan: &Plan) -> Plan
    requires { IsLegal instance.now plan.now }
    ensures legal { IsLegal instance.now result }
    ensures nearer { DiffersInX plan.now result }
    ensures normal { AreNeat instance.now result }
{
    let mut lockages = Lockages::new();
    for lockage in plan.lockages.as_slice() {
        lockages.push(neat_lockage(instance, lockage));
    }
    Plan { lockages }
}
