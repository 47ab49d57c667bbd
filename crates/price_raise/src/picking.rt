//! Which triples get a price.

use crate::raised::RaisedTriples;
use crate::recent::Recent;
use crate::stands::mask_of_triple;
use arrayvec::ArrayVec;
use price_rules::Triple;

/// The most triples that are picked at a time.
pub(crate) const MOST_PICKED: usize = 15;

/// A triple at the least price, and what the groups weigh that have it.
#[derive(Clone, Copy, Default)]
pub(crate) struct Pick {
    pub(crate) triple: Triple,
    weight: i64,
}

// Triples that are picked from those that groups had of late: the heaviest ones, all above this weight, and
// none that is raised.
#[derive(Drop)]
struct Picking<'a> {
    recent: &'a Recent,
    raised: &'a RaisedTriples,
    least: i64,
    picks: ArrayVec<Pick, MOST_PICKED>,
}

impl Picking<'_> {
    // The place of the lightest one.
    fn lightest(&self) -> usize {
        let picks = self.picks.as_slice();
        let mut lightest = 0;
        for place in 1..picks.len() {
            if picks[place].weight < picks[lightest].weight {
                lightest = place;
            }
        }
        lightest
    }

    // Puts a triple in the place of the lightest one, if that is lighter.
    fn put_over(&mut self, pick: Pick) {
        let place = self.lightest();
        let picks = self.picks.as_mut_slice();
        if place < picks.len() && picks[place].weight < pick.weight {
            picks[place] = pick;
        }
    }

    // Picks a triple, if it is heavy enough and not raised.
    fn weigh(&mut self, triple: Triple) {
        let weight = self.recent.weight_having(mask_of_triple(&triple));
        if weight <= self.least || self.raised.has(&triple) {
            return;
        }
        let pick = Pick { triple, weight };
        if self.picks.try_push(pick).is_err() {
            self.put_over(pick);
        }
    }

    // Weighs the triples of two ships and a later one of so many.
    fn weigh_third(&mut self, first: u8, second: u8, ships: u8) {
        for third in second.saturating_add(1)..ships {
            self.weigh(Triple {
                first,
                second,
                third,
                price: 1,
            });
        }
    }

    // Weighs the triples of a ship and two later ones of so many.
    fn weigh_second(&mut self, first: u8, ships: u8) {
        for second in first.saturating_add(1)..ships {
            self.weigh_third(first, second, ships);
        }
    }

    // Weighs all triples of so many ships.
    fn weigh_all(&mut self, ships: u8) {
        for first in 0..ships {
            self.weigh_second(first, ships);
        }
    }
}

/// Up to 15 triples of so many ships: those that groups had the most often of late, if more than once a
/// round by a tenth, and none that is raised.
pub(crate) fn picked(
    recent: &Recent,
    raised: &RaisedTriples,
    ships: u8,
) -> ArrayVec<Pick, MOST_PICKED> {
    let mut picking = Picking {
        recent,
        raised,
        least: recent.rounds().saturating_mul(11) / 10,
        picks: ArrayVec::new(),
    };
    picking.weigh_all(ships);
    picking.picks
}
