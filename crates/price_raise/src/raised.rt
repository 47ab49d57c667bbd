//! Prices of triples that are raised.
ghost use Rattle.std.specs.Prelude.{◌≡◌, ◌≤◌, ◌<ℤ◌, pos, length};

use crate::picking::Pick;
use crate::stands::{Stands, mask_of_triple};
use crate::steps::{Step, exact, turned, whole, with_square};
use arrayvec::ArrayVec;
use price_rules::{TRIPLES, Triple};
use price_terms::Prices;

// A triple at its whole price, its price in fractions, and the direction in which this goes.
#[derive(Clone, Copy, Default)]
struct RaisedTriple {
    triple: Triple,
    exact: i64,
    direction: i64,
}

impl RaisedTriple {
    // A triple at its price, which goes nowhere yet.
    fn new(triple: Triple) -> RaisedTriple {
        RaisedTriple {
            triple,
            exact: exact(triple.price),
            direction: 0,
        }
    }

    // Turns the direction by how many groups have the triple more than the one that may. A price of 0 isn't
    // pulled down.
    fn turn(&mut self, stands: &Stands, kept: u32) {
        let pull = stands
            .having(mask_of_triple(&self.triple))
            .saturating_sub(1);
        let direction = turned(self.direction, kept, pull);
        self.direction = if self.exact > 0 {
            direction
        } else {
            direction.max(0)
        };
    }

    // Goes to this exact price.
    fn go_to(&mut self, exact: i64) {
        self.exact = exact;
        self.triple.price = whole(exact);
    }
}

/// Triples with their exact prices and directions, in the order of their ships. They are fixed until they
/// are freed.
#[derive(Drop)]
pub(crate) struct RaisedTriples {
    items: ArrayVec<RaisedTriple, TRIPLES>,
    are_fixed: bool,
}

// The ships of a triple as one number, by which triples are ordered.
fn key(triple: &Triple) -> u32 {
    (triple.first as u32 * 256 + triple.second as u32) * 256 + triple.third as u32
}

// The price of a triple among others, 0 where it isn't among them.
fn price_among(triples: &[Triple], wanted: Triple) -> u32 {
    for triple in triples {
        if key(triple) == key(&wanted) {
            return triple.price;
        }
    }
    0
}

impl RaisedTriples {
    /// The triples of these prices, fixed.
    pub(crate) fn of(prices: &Prices) -> RaisedTriples {
        let mut items = ArrayVec::new();
        for &triple in prices.triples() {
            let _ = items.try_push(RaisedTriple::new(triple));
        }
        RaisedTriples {
            items,
            are_fixed: true,
        }
    }

    /// Whether a triple is among them.
    pub(crate) fn has(&self, triple: &Triple) -> bool {
        for raised in self.items.as_slice() {
            if key(&raised.triple) == key(triple) {
                return true;
            }
        }
        false
    }

    // The place of a triple among them: behind those before it.
    fn place_of(&self, triple: &Triple) -> usize
        ensures { result ≤ length self.now.items.items }
    {
        let items = self.items.as_slice();
        for place in 0..items.len() {
            if key(triple) <= key(&items[place].triple) {
                return place;
            }
        }
        items.len()
    }

    // Adds a triple at its price, as long as there are fewer than `TRIPLES`.
    fn add(&mut self, triple: Triple) {
        let place = self.place_of(&triple);
        let _ = self.items.try_insert(place, RaisedTriple::new(triple));
    }

    /// Adds the triples that were picked.
    pub(crate) fn add_all(&mut self, picks: &[Pick]) {
        for pick in picks {
            self.add(pick.triple);
        }
    }

    /// Turns the directions by how many groups have each triple, unless they are fixed: of what they were
    /// so many tenths are kept.
    pub(crate) fn turn(&mut self, stands: &Stands, kept: u32) {
        if self.are_fixed {
            return;
        }
        for raised in self.items.as_mut_slice().iter_mut() {
            raised.turn(stands, kept);
        }
    }

    /// The squares of the directions, added to others.
    pub(crate) fn with_squares(&self, others: i64) -> i64 {
        let mut norm = others;
        for raised in self.items.as_slice() {
            norm = with_square(norm, raised.direction);
        }
        norm
    }

    /// Makes a step along the directions.
    pub(crate) fn go(&mut self, step: Step)
        requires { pos 0 <ℤ step.norm }
    {
        for raised in self.items.as_mut_slice().iter_mut() {
            raised.go_to(step.from(raised.exact, raised.direction));
        }
    }

    /// Goes back to these prices; a triple that has none there is at 0.
    pub(crate) fn go_back(&mut self, prices: &Prices) {
        for raised in self.items.as_mut_slice().iter_mut() {
            let price = price_among(prices.triples(), raised.triple);
            raised.go_to(exact(price));
        }
    }

    /// Frees them: they are raised from now on, at first in no direction.
    pub(crate) fn free(&mut self) {
        self.are_fixed = false;
        for raised in self.items.as_mut_slice().iter_mut() {
            raised.direction = 0;
        }
    }

    // The triples that have a price.
    fn priced(&self) -> ArrayVec<Triple, TRIPLES> {
        let mut triples = ArrayVec::new();
        for raised in self.items.as_slice() {
            if raised.triple.price > 0 {
                let _ = triples.try_push(raised.triple);
            }
        }
        triples
    }

    /// These prices of ships, with the triples that have a price.
    pub(crate) fn with(&self, prices: Prices) -> Prices
        ensures { length result.ships ≡ length prices.ships }
    {
        match prices.with_triples(self.priced().as_slice()) {
            Some(with) => with,
            None => prices,
        }
    }
}
