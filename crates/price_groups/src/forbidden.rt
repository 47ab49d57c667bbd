//! The ship sets that the cuts forbid a chamber.
ghost use Rattle.std.specs.Prelude.{◌<◌, ◌↔◌, length, All, Contains, IsTrue, OnOk, IfOk};
ghost use Rattle.lock_model.specs.Fleet.{chamber_at};
ghost use Rattle.price_terms.specs.Cuts.{plain_cut, plain_cuts};
ghost use Rattle.price_groups.specs.Sparing.{IsNoRoomierThan, Bears, AreIn, LacksSome, IsSpared, AreForbidden, ForbidMore};

use crate::line_case::LineCase;
use lock_model::{Chamber, Group, Instance, Ships};
use price_terms::{ChamberCut, PriceError, append};
use std::alloc::Global;

/// Whether all these ships are the instance's.
pub(crate) fn are_known(instance: &Instance, ships: &[u8]) -> bool
    ensures { IsTrue result ↔ All (λ s. s < length instance.now.ships) ships.now }
{
    let count = instance.ships.as_slice().len();
    for &ship in ships {
        if ship as usize >= count {
            return false;
        }
    }
    true
}

// Whether a chamber has equal clearance and gaps, and at most the length and width of another.
fn is_no_roomier(chamber: &Chamber, other: &Chamber) -> bool
    ensures { IsTrue result ↔ IsNoRoomierThan chamber.now other.now }
{
    chamber.end == other.end
        && chamber.gap == other.gap
        && chamber.side == other.side
        && chamber.length <= other.length
        && chamber.width <= other.width
}

// Whether the case's chamber is no roomier than that of the cut.
fn is_tight(case: &LineCase, cut: &ChamberCut) -> bool
    requires { cut.now.chamber < length case.now.instance.now.chambers }
    ensures { IsTrue result ↔ IsNoRoomierThan (chamber_at case.now.instance.now case.now.index) (chamber_at case.now.instance.now cut.now.chamber) }
{
    is_no_roomier(
        case.chamber,
        &case.instance.chambers.as_slice()[cut.chamber as usize],
    )
}

// Whether whatever group has the cut's ships is hit in the chamber.
fn bears(case: &LineCase, cut: &ChamberCut) -> bool
    ensures { IsTrue result ↔ Bears case.now.instance.now case.now.index cut.now }
{
    (cut.chamber as usize) < case.instance.chambers.as_slice().len()
        && is_tight(case, cut)
        && are_known(case.instance, cut.ships.as_slice())
}

// Puts the ships of one more cut to the sets, where it bears on the chamber.
fn forbid(sets: &mut Vec<Ships>, case: &LineCase, cut: &ChamberCut) -> Result<(), PriceError>
    ensures { OnOk result (ForbidMore case.now.instance.now case.now.index (plain_cut case.now.instance.now cut.now) sets.old.items sets.new.items) }
{
    if bears(case, cut) {
        return append(sets, cut.ships.copy());
    }
    Ok(())
}

/// The ship sets that the cuts forbid the chamber.
pub fn forbidden_sets(alloc: Global, case: &LineCase) -> Result<Vec<Ships>, PriceError>
    ensures { IfOk result (λ sets. AreForbidden case.now.instance.now case.now.index (plain_cuts case.now.instance.now case.now.cuts.now) sets.items) }
{
    let mut sets = Vec::new(alloc);
    for cut in case.cuts {
        forbid(&mut sets, case, cut)?;
    }
    Ok(sets)
}

/// Whether a ship is among these.
pub(crate) fn is_in(ships: &[u8], ship: u8) -> bool
    ensures { IsTrue result ↔ Contains ships.now ship }
{
    ships.contains(&ship)
}

// Whether all ships of a set are among these.
fn are_in(ships: &[u8], set: &[u8]) -> bool
    ensures { IsTrue result ↔ AreIn ships.now set.now }
{
    for &ship in set {
        if !is_in(ships, ship) {
            return false;
        }
    }
    true
}

/// Whether none of the sets is among these ships.
pub(crate) fn misses_all(sets: &[Ships], ships: &[u8]) -> bool
    ensures { IsTrue result ↔ All (LacksSome ships.now) sets.now }
{
    for set in sets {
        if are_in(ships, set.as_slice()) {
            return false;
        }
    }
    true
}

// Whether none of the sets is in a group.
fn is_spared(sets: &[Ships], group: &Group) -> bool
    ensures { IsTrue result ↔ IsSpared sets.now group.now }
{
    misses_all(sets, group.ships.as_slice())
}

/// Whether none of the sets is in any of these groups.
pub fn are_spared(sets: &[Ships], groups: &[Group]) -> bool
    ensures { IsTrue result ↔ All (IsSpared sets.now) groups.now }
{
    for group in groups {
        if !is_spared(sets, group) {
            return false;
        }
    }
    true
}
