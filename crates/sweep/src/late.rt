//! Late ships: the last ones to arrive. What these cost by themselves, and the prices of all others, bound
//! labels that miss all late ships.
ghost use Rattle.std.specs.Prelude.{◌<◌, length};

use crate::asked::SweepAsked;
use lock_model::{Instance, SHIPS, Ship};
use price_rules::Triple;
use price_terms::{PriceError, Prices, append};
use std::alloc::Global;
use sweep_labels::ShipSet;

/// Late ships, the prices of the early ones, 0 for the late ones, and the place of the first chamber that
/// is asked by these prices.
#[derive(Drop)]
pub(crate) struct LateShips {
    pub(crate) ships: ShipSet,
    pub(crate) prices: Prices,
    pub(crate) first: usize,
}

// How many ships arrive after one, or with it but stand behind it.
fn later_than(ships: &[Ship], ship: u8) -> usize
    requires { ship < length ships.now }
{
    let own = ships[ship as usize].arrival;
    let mut later = 0;
    for place in 0..ships.len() {
        let other = ships[place].arrival;
        if other > own || other == own && place > ship as usize {
            later += 1;
        }
    }
    later
}

/// The last so many ships to arrive.
pub(crate) fn last_ships(instance: &Instance, most: usize) -> ShipSet {
    let ships = instance.ships.as_slice();
    let mut late = ShipSet::new();
    for ship in 0..ships.len() as u8 {
        if later_than(ships, ship) < most {
            late = late.with(ship);
        }
    }
    late
}

// Prices with 0 for late ships, without triples.
fn early_ships(alloc: Global, prices: &Prices, late: &ShipSet) -> Result<Prices, PriceError> {
    let all = prices.as_slice();
    let mut early = Vec::new(alloc);
    for ship in 0..all.len() as u8 {
        let price = if late.has(ship) {
            0
        } else {
            all[ship as usize]
        };
        append(&mut early, price)?;
    }
    Ok(Prices::capped(&early))
}

// Whether no ship of a triple is late.
fn is_early(late: &ShipSet, triple: &Triple) -> bool {
    for ship in [triple.first, triple.second, triple.third] {
        if ship as usize >= SHIPS || late.has(ship) {
            return false;
        }
    }
    true
}

// The triples without late ships.
fn early_triples(
    alloc: Global,
    prices: &Prices,
    late: &ShipSet,
) -> Result<Vec<Triple>, PriceError> {
    let mut early = Vec::new(alloc);
    for &triple in prices.triples() {
        if is_early(late, &triple) {
            append(&mut early, triple)?;
        }
    }
    Ok(early)
}

// Prices with 0 for late ships, and the triples without them.
fn early_prices(alloc: Global, prices: &Prices, late: &ShipSet) -> Result<Prices, PriceError> {
    let ships = early_ships(alloc, prices, late)?;
    let triples = early_triples(alloc, prices, late)?;
    match ships.with_triples(&triples) {
        Some(early) => Ok(early),
        None => Ok(ships),
    }
}

/// The last so many ships as late ones; the place of the first chamber that is asked by the others' prices.
pub(crate) fn late_ships(
    alloc: Global,
    asked: &SweepAsked,
    most: usize,
    first: usize,
) -> Result<LateShips, PriceError> {
    let ships = last_ships(asked.instance, most);
    let prices = early_prices(alloc, asked.prices, &ships)?;
    Ok(LateShips {
        ships,
        prices,
        first,
    })
}
