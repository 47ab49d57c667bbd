//! What stands in lines, and how often.

use arrayvec::ArrayVec;
use lock_model::{SHIPS, Ships};
use price_rules::Triple;

/// Ships as the bits of a number.
pub(crate) type ShipMask = u128;

// From here on it makes no difference how often a ship stands in lines.
const MOST: i64 = 64;
// The most groups that are kept.
const MOST_GROUPS: usize = 128;

/// How often each of `SHIPS` ships stands in some groups, up to 64 times, and the first 128 of the groups.
#[derive(Drop)]
pub struct Stands {
    counts: [i64; SHIPS],
    groups: ArrayVec<ShipMask, MOST_GROUPS>,
}

// The number that has the bit of a ship alone; 0 for what is no ship's number.
fn bit_of(ship: u8) -> ShipMask {
    if (ship as usize) < SHIPS {
        1 << ship
    } else {
        0
    }
}

// The number whose bits are these ships.
fn mask_of(ships: &Ships) -> ShipMask {
    let mut mask = 0;
    for &ship in ships.as_slice() {
        mask |= bit_of(ship);
    }
    mask
}

/// The number whose bits are the ships of a triple.
pub(crate) fn mask_of_triple(triple: &Triple) -> ShipMask {
    bit_of(triple.first) | bit_of(triple.second) | bit_of(triple.third)
}

/// Whether a group has a triple: at least two of its ships.
pub(crate) fn has_two(group: ShipMask, triple: ShipMask) -> bool {
    let common = group & triple;
    common & common.wrapping_sub(1) != 0
}

impl Stands {
    /// No ship stands in any group.
    pub fn new() -> Stands {
        Stands {
            counts: [0; SHIPS],
            groups: ArrayVec::new(),
        }
    }

    // Counts a ship.
    fn count(&mut self, ship: u8) {
        if (ship as usize) < SHIPS {
            let count = self.counts[ship as usize];
            self.counts[ship as usize] = count.saturating_add(1).min(MOST);
        }
    }

    /// Counts the ships of a group, and keeps the group.
    pub fn add(&mut self, ships: &Ships) {
        for &ship in ships.as_slice() {
            self.count(ship);
        }
        let _ = self.groups.try_push(mask_of(ships));
    }

    /// How often a ship stands in the groups that were counted, 64 at the most; 0 of a number that is
    /// no ship's.
    pub fn of(&self, ship: u8) -> i64 {
        if (ship as usize) < SHIPS {
            self.counts[ship as usize]
        } else {
            0
        }
    }

    /// How many of the groups that are kept have a triple of these ships.
    pub(crate) fn having(&self, triple: ShipMask) -> i64 {
        let mut count: i64 = 0;
        for &group in self.groups() {
            if has_two(group, triple) {
                count = count.saturating_add(1);
            }
        }
        count
    }

    /// The groups that are kept.
    pub(crate) fn groups(&self) -> &[ShipMask] {
        self.groups.as_slice()
    }
}
