//! Plans of two ships before one chamber, and the cut of both.

use super::priced_root::NARROW;
use crate::worked::{BASE, deck_of, pair};
use deck_cuts::{Cut, Quick, Refutation};
use lock_model::{Lockage, Lockages, Measures, Moor, Plan, Rank, Ships, Spot, Spots, Way};
use place_refute::make_cut;
use std::alloc::Global;

fn spot(y: u32, rank: Rank) -> Spot {
    Spot {
        x: 10,
        y,
        rank,
        moor: Moor::Quay,
    }
}

// One ship or both up from a minute, each at its own quay.
fn lockage(ships: Ships, start: u32) -> Lockage {
    let mut spots = Spots::new();
    spots.push(spot(0, Rank::Left));
    if ships.len() > 1 {
        spots.push(spot(126, Rank::Right));
    }
    Lockage {
        chamber: 0,
        way: Way::Up,
        ships,
        start,
        spots,
    }
}

/// The first ship from minute 0, and the second from this minute.
pub(crate) fn one_after_the_other(start: u32) -> Plan {
    let mut lockages = Lockages::new();
    lockages.push(lockage(Ships::single(0), 0));
    lockages.push(lockage(Ships::single(1), start));
    Plan { lockages }
}

/// Both ships from minute 0, side by side.
pub(crate) fn both() -> Plan {
    let mut lockages = Lockages::new();
    lockages.push(lockage(pair(0, 1), 0));
    Plan { lockages }
}

/// The cut of both ships in the narrow chamber, with this gap along, by a row of them.
pub(crate) fn row_cut(alloc: Global, gap: u32) -> Option<Cut> {
    let measures = Measures {
        width: NARROW,
        gap,
        ..BASE
    };
    let deck = deck_of(measures, &[(1100, 114), (1100, 114)])?;
    let ships = pair(0, 1);
    if ships.len() != deck.ships.as_slice().len() {
        return None;
    }
    let row = Refutation::Quick(Quick::Row(pair(0, 1)));
    make_cut(alloc, 0, ships, deck, row).ok()
}
