//! Whether ships are a jam of a lane.
ghost use Rattle.std.specs.Prelude.{◌≡◌, ◌<◌, ◌≤◌, ◌^◌, ◌↔◌, length, AllPairs, IsTrue};
ghost use Rattle.ship_shapes.specs.Lanes.{AreCrowded, along_of, IsJam};
ghost use Rattle.ship_shapes.specs.Jams.{IsCrowdedAfter, AreKnown};

use crate::lane::Lane;
use lock_model::{MOST, Ships};

// Whether all are ships of the lane.
fn are_known(lane: &Lane, ships: &[u8]) -> bool
    ensures { IsTrue result ↔ AreKnown lane.now ships.now }
{
    let count = lane.count();
    for &ship in ships {
        if ship >= count {
            return false;
        }
    }
    true
}

// Whether ship number i of these has no room beside each later one.
fn is_crowded_after(lane: &Lane, ships: &[u8], i: usize) -> bool
    requires known { AreKnown lane.now ships.now }
    requires i_in { i < length ships.now }
    ensures { IsTrue result ↔ IsCrowdedAfter lane.now ships.now i }
{
    for j in i + 1..ships.len() {
        if !lane.are_crowded(ships[i], ships[j]) {
            return false;
        }
    }
    true
}

// Whether no two of these have room beside each other.
#[tactic(auto, using(crate::proofs::PairLemmas::pairs_told))]
fn are_all_crowded(lane: &Lane, ships: &[u8]) -> bool
    requires { AreKnown lane.now ships.now }
    ensures { IsTrue result ↔ AllPairs (AreCrowded lane.now) ships.now }
{
    for i in 0..ships.len() {
        if !is_crowded_after(lane, ships, i) {
            return false;
        }
    }
    true
}

// What these ships need along the lane.
#[tactic(auto, using(crate::proofs::PairLemmas::along_more))]
fn along_of(lane: &Lane, ships: &[u8]) -> u64
    requires known { AreKnown lane.now ships.now }
    requires few { length ships.now ≤ MOST }
    ensures value { result ≡ along_of lane.now ships.now }
    ensures few { result ≤ 2 ^ 40 }
{
    let mut along = 0;
    for &ship in ships {
        along += lane.along(ship);
    }
    along
}

/// Whether ships are a jam of the lane: at least one, no two of which have room beside each other,
/// and too long one after the other.
#[tactic(auto, using(crate::proofs::PairLemmas::of_jams))]
pub(crate) fn is_jam(lane: &Lane, ships: &Ships) -> bool
    ensures { IsTrue result ↔ IsJam lane.now ships.now }
{
    let numbers = ships.as_slice();
    if numbers.is_empty() || !are_known(lane, numbers) || !are_all_crowded(lane, numbers) {
        return false;
    }
    lane.is_long(along_of(lane, numbers))
}
