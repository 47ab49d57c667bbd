//! Ships that lie one behind the other and are likely to be too long.
ghost use Rattle.std.specs.Prelude.{◌<◌, ◌≤◌, ◌+◌};

use crate::faults::BerthFault;
use crate::lanes::{Lane, are_in_line};
use deck_cases::length_of;
use lock_model::{Deck, MOST};

/// The length of a ship and the gap, in decimetres.
pub(crate) fn span_of(deck: &Deck, ship: u8) -> u32 {
    length_of(deck, ship as u32).saturating_add(deck.gap)
}

// The first number of a set whose highest ship is this one.
#[tactic(auto, using(crate::proofs::CrowdLemmas::few_sets))]
fn bit_of(ship: u8) -> usize
    requires { ship < MOST }
    ensures { result ≤ 128 }
{
    2usize.pow(ship as u32)
}

// The lower ships that lie in line with a ship, as a set of bits.
fn in_line_with(deck: &Deck, lanes: &[Lane; MOST], ship: u8) -> usize
    requires { ship < MOST }
{
    let mut set: usize = 0;
    for lower in 0..ship {
        if are_in_line(deck, lanes[lower as usize], lanes[ship as usize]) {
            set = set | 1 << lower;
        }
    }
    set
}

// The sum of a set of lower ships and one more, or 0 where they don't all lie in line.
fn sum_with(sums: &[u32; 256], lower: usize, in_line: usize, span: u32) -> u32
    requires { lower < 256 }
{
    if lower == 0 {
        span
    } else if lower & in_line == lower && sums[lower] > 0 {
        sums[lower].saturating_add(span)
    } else {
        0
    }
}

// Adds the sums of the sets whose highest ship is this one, up to one that is above the room.
fn crowd_of(sums: &mut [u32; 256], ship: u8, in_line: usize, span: u32, room: u32) -> Option<u32>
    requires { ship < MOST }
{
    let own = bit_of(ship);
    for lower in 0..own {
        let sum = sum_with(sums, lower, in_line, span);
        if sum > room {
            return Some((own + lower) as u32);
        }
        sums[own + lower] = sum;
    }
    None
}

/// A set of ships that lie in line and are likely to be too long one behind the other.
pub(crate) fn likely_crowd(deck: &Deck, lanes: &[Lane; MOST]) -> Option<BerthFault> {
    prove!(deck.ships.as_slice().len() <= MOST);
    let mut sums = [0; 256];
    let room = deck
        .length
        .saturating_add(deck.gap)
        .saturating_sub(deck.end.saturating_add(deck.end));
    for ship in 0..deck.ships.as_slice().len() as u8 {
        let in_line = in_line_with(deck, lanes, ship);
        if let Some(set) = crowd_of(&mut sums, ship, in_line, span_of(deck, ship), room) {
            return Some(BerthFault::Crowd(set));
        }
    }
    None
}
