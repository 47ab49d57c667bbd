//! Whether kept lockages end when a chamber may still open.
ghost use Rattle.std.specs.Prelude.{◌≡◌, ◌↔◌, All, IfNone, IfSome, IsNone};
ghost use Rattle.lock_rules.specs.Plan.{IsLegalPart};
ghost use Rattle.replan.specs.Kept.{EndsInTime, CanBeKept};
ghost use Rattle.replan.specs.PartBreaks.{IsFirstLate, IsPartRefusal};

use crate::naming::{place_of, renamed};
use crate::refusal::ReplanError;
use chamber_times::lockage_end;
use lock_model::{Instance, Plan};
use mooring_rules::judge_part;

/// The last minute at which a chamber may open.
const LAST_OPENING: u64 = 1_000_000;

/// The first lockage that ends too late.
fn first_late(instance: &Instance, part: &Plan) -> Option<u8>
    requires { IsLegalPart instance.now part.now }
    ensures none { IfNone result (All (EndsInTime instance.now) part.now.lockages) }
    ensures some { IfSome result (IsFirstLate instance.now part.now) }
{
    let lockages = part.lockages.as_slice();
    for p in 0..lockages.len() as u8 {
        if lockage_end(instance, &lockages[p as usize]) > LAST_OPENING {
            return Some(p);
        }
    }
    None
}

/// Why the part can't be kept; its lockages have these places in the whole plan.
pub(crate) fn refusal(instance: &Instance, part: &Plan, places: &[u8]) -> Option<ReplanError>
    ensures none { IsNone result ↔ CanBeKept instance.now part.now }
    ensures some { IfSome result (IsPartRefusal instance.now part.now places.now) }
{
    if let Some(broken) = judge_part(instance, part) {
        return Some(ReplanError::Kept(renamed(places, broken)));
    }
    if let Some(p) = first_late(instance, part) {
        return Some(ReplanError::Late(place_of(places, p)));
    }
    None
}
