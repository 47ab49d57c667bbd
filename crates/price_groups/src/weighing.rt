//! The sums of groups that may come next.
ghost use Rattle.std.specs.Prelude.{◌≡◌, ◌+◌, ◌*◌, ◌<◌, ◌≤◌, length, All, IfOk};
ghost use Rattle.price_groups.specs.Asked.{group_asked};
ghost use Rattle.price_groups.specs.Sums.{rate_of, AreRates, AreSumsIn, AreSumsMore};

use crate::extension::Extension;
use crate::line_case::LineCase;
use crate::masks::{mask_of, with_bit};
use crate::sums::Sums;
use chamber_times::{duration, last_arrival};
use lock_model::Ships;
use price_terms::{PriceError, Prices, append};
use std::alloc::Global;

// What a ship counts by some prices: 100 times its arrival, and its price where the node lacks it.
fn rate(case: &LineCase, prices: &Prices, ship: u8) -> u32
    requires { ship < length case.now.instance.now.ships }
    ensures value { result ≡ rate_of case.now.instance.now case.now.depth prices.now ship }
    ensures small { result ≤ 101000000 }
{
    let arrival = 100 * case.instance.ships.as_slice()[ship as usize].arrival;
    if case.lacks(ship) {
        arrival + prices.at(ship)
    } else {
        arrival
    }
}

/// What each ship counts by some prices.
pub fn rates(alloc: Global, case: &LineCase, prices: &Prices) -> Result<Vec<u32>, PriceError>
    ensures { IfOk result (λ rates. AreRates case.now.instance.now case.now.depth prices.now (length case.now.instance.now.ships) rates.items) }
{
    let mut rates = Vec::new(alloc);
    for ship in 0..case.instance.ships.as_slice().len() as u8 {
        append(&mut rates, rate(case, prices, ship))?;
    }
    Ok(rates)
}

/// The sums of ships that none has joined.
pub(crate) fn sums_of(extension: &Extension, ships: &Ships) -> Sums
    requires { All (λ s. s < length extension.now.case.now.instance.now.ships) ships.now }
    ensures { AreSumsIn (group_asked extension.now) ships.now result }
{
    let case = extension.case;
    Sums {
        duration: duration(case.instance, case.index, ships) as u32,
        last: last_arrival(case.instance, 0, ships) as u32,
        least: u32::MAX,
        mask: mask_of(ships.as_slice()),
    }
}

/// The sums of ships that have those sums, once another one has joined them.
pub(crate) fn more_sums(extension: &Extension, sums: &Sums, ship: u8) -> Sums
    requires known { ship < length extension.now.case.now.instance.now.ships }
    requires short { sums.now.duration ≤ 9000000 }
    ensures { AreSumsMore (group_asked extension.now) ship sums.now result }
{
    let own = &extension.case.instance.ships.as_slice()[ship as usize];
    Sums {
        duration: sums.duration + own.handling,
        last: sums.last.max(own.arrival),
        least: sums.least.min(extension.high_rates[ship as usize]),
        mask: with_bit(sums.mask, ship),
    }
}
