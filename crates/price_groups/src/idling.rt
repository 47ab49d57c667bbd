//! Groups that are left out as they grow, since one of their ships gains nothing.
ghost use Rattle.std.specs.Prelude.{◌≡◌, ◌*◌, ◌<◌, ◌≤◌, true, length, All, IsTrue};
ghost use Rattle.price_groups.specs.Asked.{group_asked};
ghost use Rattle.price_groups.specs.Growing.{IsIdleBy, HasIdlerBy};
ghost use Rattle.price_groups.specs.Worth.{soonest_of};

use crate::extension::Extension;
use lock_model::Group;

// Whether the node lacks a ship and it gains nothing at the ceilings where it is served by a minute.
fn is_idle(extension: &Extension, ship: u8, end: u64) -> bool
    requires known { ship < length extension.now.case.now.instance.now.ships }
    requires small { end ≤ 10000000000 }
    ensures { IsTrue result → IsIdleBy extension.now.case.now.instance.now extension.now.case.now.depth extension.now.ceilings.now ship end }
{
    extension.high_rates[ship as usize] as u64 <= 100 * end && extension.case.lacks(ship)
}

/// Whether a group has several ships, and one that the node lacks gains nothing at the ceilings, even at
/// their soonest end: then the others serve as well, and so does what grows from them.
pub(crate) fn has_idler(extension: &Extension, group: &Group, end: u64) -> bool
    requires known { All (λ s. s < length extension.now.case.now.instance.now.ships) group.now.ships }
    requires end { end ≡ soonest_of extension.now.case.now.instance.now extension.now.case.now.index 0 group.now.ships }
    requires small { end ≤ 10000000000 }
    ensures { IsTrue result → HasIdlerBy (group_asked extension.now) group.now }
{
    if group.ships.len() < 2 {
        return false;
    }
    for &ship in group.ships.as_slice() {
        if is_idle(extension, ship, end) {
            return true;
        }
    }
    false
}
