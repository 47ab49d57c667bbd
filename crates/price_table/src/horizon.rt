//! From when on missing ships may be left out of a loose line.
ghost use Rattle.std.specs.Prelude.{◌+◌, ◌*◌, ◌<◌, ◌≤◌, length};
ghost use Rattle.lock_model.specs.Fleet.{ship_at};
ghost use Rattle.price_rules.specs.Prices.{price_at};
ghost use Rattle.price_groups.specs.Worth.{IsLateBy, IsHorizon};

use price_groups::LineCase;

// The minute from which on a ship is served for at least its price.
fn late(case: &LineCase, ship: u8) -> u64
    requires { ship < length case.now.instance.now.ships }
    ensures served { price_at case.now.prices.now ship + 100 * (ship_at case.now.instance.now ship).arrival ≤ 100 * result }
    ensures small { result ≤ 1010000 }
{
    let arrival = case.instance.ships.as_slice()[ship as usize].arrival as u64;
    arrival + (case.prices.at(ship) as u64 + 99) / 100
}

// The later of a minute and that from which on a ship is served for at least its price, where the
// node lacks it.
fn later(case: &LineCase, latest: u64, ship: u8) -> u64
    requires known { ship < length case.now.instance.now.ships }
    requires old_small { latest ≤ 1010000 }
    ensures served { IsLateBy case.now.instance.now case.now.depth case.now.prices.now ship result }
    ensures later { latest ≤ result }
    ensures small { result ≤ 1010000 }
{
    if case.lacks(ship) {
        latest.max(late(case, ship))
    } else {
        latest
    }
}

/// A minute from which on each missing ship is served for at least its price.
pub(crate) fn horizon(case: &LineCase) -> u64
    ensures late { IsHorizon case.now.instance.now case.now.depth case.now.prices.now result }
    ensures small { result ≤ 1010000 }
{
    let mut latest = 0;
    for ship in 0..case.instance.ships.as_slice().len() as u8 {
        latest = later(case, latest, ship);
    }
    latest
}
