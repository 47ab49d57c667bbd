//! A list of prices in two vectors.
ghost use Rattle.std.specs.Prelude.{◌≡◌, ◌<◌, ◌≤◌, ◌↔◌, [], length, All, IsTrue, IfOk};
ghost use Rattle.std.specs.Cmp.Lexicographic.{pointwise};
ghost use Rattle.price_rules.specs.Triples.{AreTriples};
ghost use Rattle.closing_rules.specs.ListedPrices.{ArePrices, same_triple, same_prices};

use lock_model::SHIPS;
use no_memory::NoMemory;
use price_rules::Triple;
use price_terms::{Prices, are_among};
use std::alloc::Global;
use std::marker::Model;

/// The prices of ships in the order of the instance, and of triples of them in the order of these, in
/// hundredths of a minute of flow time: what `Prices` have, in as much memory as they need.
#[derive(Drop)]
pub struct KeptPrices {
    ships: Vec<u32>,
    triples: Vec<Triple>,
}

impl Model for KeptPrices {
    ghost use Rattle.price_rules.specs.Prices.{PriceList};
    ghost use Rattle.closing_rules.specs.ListedPrices.{ArePrices};

    ghost Value = { PriceList };

    ghost view = { λ a. record { ships = a.ships.items; triples = a.triples.items } };

    ghost invariant = { λ a. ArePrices (record { ships = a.ships.items; triples = a.triples.items }) };
}

// Whether two lists of triples are the same.
fn same_triples(some: &[Triple], others: &[Triple]) -> bool
    ensures { result ≡ pointwise same_triple some.now others.now }
{
    some == others
}

// Prices of ships, without triples.
fn of_ships(ships: &[u32]) -> Prices
    requires few { length ships.now ≤ SHIPS }
    requires small { All (λ p. p ≤ 1000000) ships.now }
    ensures { result ≡ record { ships = ships.now; triples = [] } }
{
    match Prices::new(ships) {
        Some(prices) => prices,
        None => unreachable!(),
    }
}

// The same prices of ships, and these triples.
fn with_triples(prices: &Prices, triples: &[Triple]) -> Prices
    requires { AreTriples triples.now }
    ensures { result ≡ record { ships = prices.now.ships; triples = triples.now } }
{
    match prices.with_triples(triples) {
        Some(prices) => prices,
        None => unreachable!(),
    }
}

impl KeptPrices {
    /// The same prices, in memory that is taken for them; refuses want of it alone.
    pub fn of(alloc: Global, prices: &Prices) -> Result<KeptPrices, NoMemory>
        ensures { IfOk result (λ kept. kept ≡ prices.now) }
    {
        Ok(KeptPrices {
            ships: prices.as_slice().to_vec(alloc)?,
            triples: prices.triples().to_vec(alloc)?,
        })
    }

    /// Whether they are these prices.
    pub fn equals(&self, prices: &Prices) -> bool
        ensures { result ≡ same_prices prices.now self.now }
    {
        prices.as_slice() == self.ships.as_slice() && same_triples(prices.triples(), self.triples())
    }

    /// Whether these are prices of so many ships, and of triples of them.
    pub fn are_of(&self, ships: usize) -> bool
        ensures { IsTrue result ↔ ((length self.now.ships ≡ ships) × All (λ t. t.third < ships) self.now.triples) }
    {
        self.ships.len() == ships && are_among(self.triples(), ships)
    }

    /// The same prices, for a bound.
    pub fn prices(&self) -> Prices
        ensures { result ≡ self.now }
    {
        with_triples(&of_ships(self.ships()), self.triples())
    }

    /// The prices in the order of the ships.
    pub fn ships(&self) -> &[u32]
        ensures value { result.now ≡ self.now.ships }
        ensures kept { ArePrices self.now }
    {
        self.ships.as_slice()
    }

    /// The triples in their order.
    pub fn triples(&self) -> &[Triple]
        ensures value { result.now ≡ self.now.triples }
        ensures listed { AreTriples result.now }
    {
        self.triples.as_slice()
    }
}
