//! Prices of the ships of an instance, and of triples of them.
ghost use Rattle.std.specs.Prelude.{◌≡◌, ◌<◌, ◌≤◌, ◌↔◌, [], length, map, min, All, IsSome, IfSome, IsTrue};
ghost use Rattle.price_rules.specs.Prices.{price_at};
ghost use Rattle.price_rules.specs.Triples.{AreTriples};

use crate::triples::{are_among, are_triples};
use arrayvec::ArrayVec;
use lock_model::SHIPS;
use price_rules::{TRIPLES, Triple};
use std::marker::Model;

/// The prices of up to `SHIPS` ships in the order of the instance: whole numbers from 0 to 1,000,000, in
/// hundredths of a minute of flow time. And the prices of up to `TRIPLES` triples of ships, in the order
/// of these: numbers from 1 to 1,000,000.
#[derive(PartialEq, Eq, Drop)]
pub struct Prices {
    items: ArrayVec<u32, SHIPS>,
    triples: ArrayVec<Triple, TRIPLES>,
}

impl Model for Prices {
    ghost use Rattle.std.specs.Prelude.{ℕ, List, All, ◌≤◌};
    ghost use Rattle.price_rules.specs.Prices.{PriceList};
    ghost use Rattle.price_rules.specs.Triples.{AreTriples};

    ghost Value = { PriceList };

    ghost view = { λ a. record { ships = a.items.items; triples = a.triples.items } };

    ghost invariant = { λ a. All (λ p. p ≤ 1000000) a.items.items × AreTriples a.triples.items };

    ghost inverse = { λ prices. record { items = record { items = prices.ships }; triples = record { items = prices.triples } } };
}

// Whether no price is above 1,000,000.
fn are_prices(prices: &[u32]) -> bool
    ensures { IsTrue result ↔ All (λ p. p ≤ 1000000) prices.now }
{
    for &price in prices {
        if price > 1_000_000 {
            return false;
        }
    }
    true
}

// A list of these numbers.
fn listed(prices: &[u32]) -> ArrayVec<u32, SHIPS>
    requires { length prices.now ≤ SHIPS }
    ensures { result.items ≡ prices.now }
{
    let mut items = ArrayVec::new();
    for &price in prices {
        items.push(price);
    }
    items
}

// A list of these triples.
fn listed_triples(triples: &[Triple]) -> ArrayVec<Triple, TRIPLES>
    requires { length triples.now ≤ TRIPLES }
    ensures { result.items ≡ triples.now }
{
    let mut items = ArrayVec::new();
    for &triple in triples {
        items.push(triple);
    }
    items
}

impl Prices {
    /// These prices, without triples; None exactly where there are more than `SHIPS` or one is above 1,000,000.
    pub fn new(prices: &[u32]) -> Option<Prices>
        ensures valid { IsSome result ↔ ((length prices.now ≤ SHIPS) × All (λ p. p ≤ 1000000) prices.now) }
        ensures value { IfSome result (λ p. p ≡ record { ships = prices.now; triples = [] }) }
    {
        if prices.len() <= SHIPS && are_prices(prices) {
            Some(Prices {
                items: listed(prices),
                triples: ArrayVec::new(),
            })
        } else {
            None
        }
    }

    /// These prices, but 1,000,000 in the place of all that are above it, without triples.
    pub fn capped(prices: &[u32]) -> Prices
        requires { length prices.now ≤ SHIPS }
        ensures { result ≡ record { ships = map (min 1000000) prices.now; triples = [] } }
    {
        let mut items = ArrayVec::new();
        for &price in prices {
            items.push(price.min(1_000_000));
        }
        Prices {
            items,
            triples: ArrayVec::new(),
        }
    }

    /// The same prices of ships, and these triples; None exactly where there are more than `TRIPLES`, or
    /// one has ships that don't rise or a price of 0 or above 1,000,000, or they aren't in the order of
    /// their ships.
    pub fn with_triples(&self, triples: &[Triple]) -> Option<Prices>
        ensures valid { IsSome result ↔ AreTriples triples.now }
        ensures value { IfSome result (λ p. p ≡ record { ships = self.now.ships; triples = triples.now }) }
    {
        if are_triples(triples) {
            Some(Prices {
                items: listed(self.as_slice()),
                triples: listed_triples(triples),
            })
        } else {
            None
        }
    }

    /// The triples in their order.
    pub fn triples(&self) -> &[Triple]
        ensures value { result.now ≡ self.now.triples }
        ensures listed { AreTriples result.now }
    {
        self.triples.as_slice()
    }

    /// The prices in the order of the ships.
    pub fn as_slice(&self) -> &[u32]
        ensures value { result.now ≡ self.now.ships }
        ensures fits { length result.now ≤ SHIPS }
        ensures small { All (λ p. p ≤ 1000000) result.now }
    {
        self.items.as_slice()
    }

    /// The price of a ship, 0 where it has none.
    pub fn at(&self, ship: u8) -> u32
        ensures value { result ≡ price_at self.now ship }
        ensures small { result ≤ 1000000 }
    {
        let prices = self.as_slice();
        let place = ship as usize;
        if place < prices.len() {
            prices[place]
        } else {
            0
        }
    }

    /// Whether these are prices of so many ships, and of triples of them.
    pub fn are_of(&self, ships: usize) -> bool
        ensures { IsTrue result ↔ ((length self.now.ships ≡ ships) × All (λ t. t.third < ships) self.now.triples) }
    {
        self.items.len() == ships && are_among(self.triples.as_slice(), ships)
    }

    /// The same prices.
    pub fn copy(&self) -> Prices
        ensures { result ≡ self.now }
    {
        Prices {
            items: listed(self.as_slice()),
            triples: listed_triples(self.triples()),
        }
    }
}
