//! Breaks of a part, told by places in the whole plan.
ghost use Rattle.std.specs.Prelude.{◌≡◌};
ghost use Rattle.replan.specs.PartBreaks.{place_of, renamed_time, renamed};

use chamber_times::BrokenTime;
use mooring_rules::BrokenPlan;

/// The place in the plan of lockage `p` of the part, whose lockages have these places.
pub(crate) fn place_of(places: &[u8], p: u8) -> u8
    ensures { result ≡ place_of places.now p }
{
    if (p as usize) < places.len() {
        places[p as usize]
    } else {
        0
    }
}

fn renamed_time(places: &[u8], broken: BrokenTime) -> BrokenTime
    ensures { result ≡ renamed_time places.now broken }
{
    match broken {
        BrokenTime::Early(p) => BrokenTime::Early(place_of(places, p)),
        BrokenTime::Soon(p) => BrokenTime::Soon(place_of(places, p)),
        BrokenTime::Shut(p) => BrokenTime::Shut(place_of(places, p)),
    }
}

/// The same break, its lockage told by its place in the plan.
pub(crate) fn renamed(places: &[u8], broken: BrokenPlan) -> BrokenPlan
    ensures { result ≡ renamed places.now broken }
{
    match broken {
        BrokenPlan::Shape(p) => BrokenPlan::Shape(place_of(places, p)),
        BrokenPlan::Double(ship) => BrokenPlan::Double(ship),
        BrokenPlan::Missing(ship) => BrokenPlan::Missing(ship),
        BrokenPlan::Deck(p, broken) => BrokenPlan::Deck(place_of(places, p), broken),
        BrokenPlan::Clash(p, i, j) => BrokenPlan::Clash(place_of(places, p), i, j),
        BrokenPlan::Time(chamber, broken) => {
            BrokenPlan::Time(chamber, renamed_time(places, broken))
        }
    }
}
