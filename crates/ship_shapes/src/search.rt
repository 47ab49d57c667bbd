//! The search for the first jam of a lane.
ghost use Rattle.std.specs.Prelude.{◌≡◌, ◌+◌, ◌<◌, ◌≤◌, ◌^◌, ◌↔◌, [], ◌∷◌, length, All, IsTrue, IfSome, IfNone};
ghost use Rattle.ship_shapes.specs.Lanes.{along_of};
ghost use Rattle.ship_shapes.specs.Jams.{AreChosen, IsCrowdedBy, HasNoJam, IsFirstJam, along_before};

use crate::lane::Lane;
use lock_model::{MOST, Ships};

// Whether a ship has no room beside each of the chosen ones.
fn is_crowded_by(lane: &Lane, ship: u8, chosen: &[u8]) -> bool
    requires ship { ship < length lane.now.needs }
    requires chosen { All (λ i. i < length lane.now.needs) chosen.now }
    ensures { IsTrue result ↔ IsCrowdedBy lane.now ship chosen.now }
{
    for &other in chosen {
        if !lane.are_crowded(ship, other) {
            return false;
        }
    }
    true
}

// A ship before the chosen ones.
#[tactic(auto, using(crate::proofs::SetLemmas::first_rising))]
fn with_first(ship: u8, chosen: &Ships) -> Ships
    requires room { length chosen.now < MOST }
    requires before { All (λ i. ship < i) chosen.now }
    ensures { result ≡ ship ∷ chosen.now }
{
    let mut ships = Ships::single(ship);
    let others = chosen.as_slice();
    for &other in others {
        ships.push(other);
    }
    ships
}

// The chosen ones, if they are a jam.
#[tactic(auto, using(crate::proofs::JamLemmas::chosen_jam, crate::proofs::JamLemmas::chosen_empty, crate::proofs::JamLemmas::chosen_short))]
fn chosen_jam(lane: &Lane, chosen: &Ships, along: u64) -> Option<Ships>
    requires chosen { AreChosen lane.now 0 chosen.now }
    requires along { along ≡ along_of lane.now chosen.now }
    requires few { along ≤ 2 ^ 40 }
    ensures none { IfNone result (HasNoJam lane.now 0 chosen.now) }
    ensures some { IfSome result (IsFirstJam lane.now 0 chosen.now) }
{
    if chosen.len() == 0 {
        return None;
    }
    if lane.is_long(along) {
        Some(chosen.copy())
    } else {
        None
    }
}

// The first jam of ships before `below` and the chosen ones, which need `along`. All ships before
// `below` need `most`: a branch that can't become too long is left at once.
fn first_jam(lane: &Lane, below: u8, chosen: &Ships, along: u64, most: u64) -> Option<Ships>
    requires below { below ≤ length lane.now.needs }
    requires chosen { AreChosen lane.now below chosen.now }
    requires along { along ≡ along_of lane.now chosen.now }
    requires most { most ≡ along_before lane.now below }
    requires few { along + most ≤ 2 ^ 40 }
    ensures none { IfNone result (HasNoJam lane.now below chosen.now) }
    ensures some { IfSome result (IsFirstJam lane.now below chosen.now) }
{
    if below == 0 {
        return chosen_jam(lane, chosen, along);
    }
    if !lane.is_long(along + most) {
        return None;
    }
    let ship = below - 1;
    let own = lane.along(ship);
    if let Some(jam) = first_jam(lane, ship, chosen, along, most - own) {
        return Some(jam);
    }
    if !is_crowded_by(lane, ship, chosen.as_slice()) {
        return None;
    }
    first_jam(
        lane,
        ship,
        &with_first(ship, chosen),
        along + own,
        most - own,
    )
}

// What all ships need along the lane.
fn along_all(lane: &Lane) -> u64
    ensures value { result ≡ along_before lane.now (length lane.now.needs) }
    ensures few { result ≤ 2 ^ 40 }
{
    let mut along = 0;
    for ship in 0..lane.count() {
        along += lane.along(ship);
    }
    along
}

/// The jam of a lane whose set has the least number.
pub(crate) fn find_jam(lane: &Lane) -> Option<Ships>
    ensures none { IfNone result (HasNoJam lane.now (length lane.now.needs) []) }
    ensures some { IfSome result (IsFirstJam lane.now (length lane.now.needs) []) }
{
    first_jam(lane, lane.count(), &Ships::new(), 0, along_all(lane))
}
