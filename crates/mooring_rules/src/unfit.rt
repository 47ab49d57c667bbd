//! Ships that fit no chamber.
ghost use Rattle.std.specs.Prelude.{◌≡◌, ◌<◌, ◌↔◌, length, IsTrue, IfSome, IfNone};
ghost use Rattle.lock_rules.specs.Unfit.{FitsSome, IsFirstUnfit, HasNoUnfit};

use lock_model::{Instance, fits_alone};

// Whether some chamber takes the ship.
fn fits_some(instance: &Instance, ship: u8) -> bool
    requires { ship < length instance.now.ships }
    ensures yes { IsTrue result → FitsSome instance.now ship }
    ensures not { FitsSome instance.now ship → IsTrue result }
{
    let vessel = &instance.ships.as_slice()[ship as usize];
    for chamber in instance.chambers.as_slice() {
        if fits_alone(chamber, vessel) {
            return true;
        }
    }
    false
}

/// The first ship, by number, that fits no chamber alone; None exactly where each ship fits one.
/// Takes no memory.
pub fn first_unfit(instance: &Instance) -> Option<u8>
    ensures found { IfSome result (λ s. IsFirstUnfit instance.now s) }
    ensures none { IfNone result (HasNoUnfit instance.now) }
{
    let count = instance.ships.as_slice().len() as u8;
    for ship in 0..count {
        if !fits_some(instance, ship) {
            return Some(ship);
        }
    }
    None
}
