//! Prices to begin with.
ghost use Rattle.std.specs.Prelude.{◌≡◌, ◌<◌, length, All};

use chamber_times::lockage_end;
use lock_model::{Instance, Lockage, Plan, SHIPS};
use price_terms::Prices;

// The greatest price, in hundredths of a minute.
const MOST: u64 = 1_000_000;

// Puts what each ship of a lockage costs into its place, in hundredths of a minute.
fn put_costs(instance: &Instance, lockage: &Lockage, costs: &mut [u32; SHIPS])
    requires chamber_in { lockage.now.chamber < length instance.now.chambers }
    requires ships_in { All (λ s. s < length instance.now.ships) lockage.now.ships }
{
    let end = lockage_end(instance, lockage);
    for &ship in lockage.ships.as_slice() {
        let arrival = instance.ships.as_slice()[ship as usize].arrival as u64;
        costs[ship as usize] = end.saturating_sub(arrival).saturating_mul(100).min(MOST) as u32;
    }
}

/// What each ship costs in a plan, in hundredths of a minute and 1,000,000 at most: one price for each
/// ship of the instance, 0 for one that lies in no lockage.
pub fn first_prices(instance: &Instance, plan: &Plan) -> Prices
    requires chambers_in { All (λ l. l.chamber < length instance.now.chambers) plan.now.lockages }
    requires ships_in { All (λ l. All (λ s. s < length instance.now.ships) l.ships) plan.now.lockages }
    ensures { length result.ships ≡ length instance.now.ships }
{
    let mut costs = [0; SHIPS];
    for lockage in plan.lockages.as_slice() {
        put_costs(instance, lockage, &mut costs);
    }
    Prices::capped(&costs[..instance.ships.as_slice().len()])
}
