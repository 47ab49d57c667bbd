//! Successors that are left out from a minute on, since others dominate them from then on or they gain
//! nothing.
ghost use Rattle.std.specs.Prelude.{◌+◌, ◌≤◌, All, IsTrue, IfOk, OnOk};
ghost use Rattle.price_groups.specs.Asked.{line_asked};
ghost use Rattle.price_successors.specs.Successors.{IsSuccessor};
ghost use Rattle.price_successors.specs.Dominance.{PaysEnough, DominatesLate, IsDominatedLate, IsCoveredLate, AreLate, HasLate};

use crate::bests::Bests;
use crate::gainless::{is_gainless, worth_by};
use crate::successor::Successor;
use price_groups::LineCase;
use price_terms::{PriceError, append};
use std::alloc::Global;

/// The last arrival of all these successors' ships.
pub fn latest(successors: &[Successor]) -> u32
    ensures { All (λ successor. successor.last ≤ result) successors.now }
{
    let mut latest = 0;
    for successor in successors {
        latest = latest.max(successor.last);
    }
    latest
}

// Whether what a successor pays more than another, beyond what both are charged, is no more than what its
// further ships are worth as soon as it can end.
fn pays_enough(other: &Successor, successor: &Successor, late: u64) -> bool
    requires late { late ≤ 4294967296 }
    requires short { successor.now.duration ≤ 9000000 }
    requires soon { successor.now.last ≤ 1000000 }
    ensures { IsTrue result → PaysEnough late other.now successor.now }
{
    let end = late.max(successor.last as u64) + successor.duration as u64;
    let own = successor.pays as u64 + other.charged as u64;
    let others = other.pays as u64 + successor.charged as u64;
    own + worth_by(other.group.ships.len() as u64, end)
        <= others + worth_by(successor.group.ships.len() as u64, end)
}

// Whether a successor joins the same group as another, has its way and is no worse by its other sums.
fn dominates_late(other: &Successor, successor: &Successor, late: u64) -> bool
    requires late { late ≤ 4294967296 }
    requires short { successor.now.duration ≤ 9000000 }
    requires soon { successor.now.last ≤ 1000000 }
    ensures { IsTrue result → DominatesLate late other.now successor.now }
{
    other.duration <= successor.duration
        && other.joins == successor.joins
        && other.last as u64 <= late.max(successor.last as u64)
        && other.group.ships.len() <= successor.group.ships.len()
        && other.group.way == successor.group.way
        && pays_enough(other, successor, late)
}

// Whether the successor at a place, if there is one, dominates a successor from the minute on.
fn is_dominated_late_at(
    lates: &[Successor],
    place: Option<usize>,
    successor: &Successor,
    late: u64,
) -> bool
    requires late { late ≤ 4294967296 }
    requires short { successor.now.duration ≤ 9000000 }
    requires soon { successor.now.last ≤ 1000000 }
    ensures { IsTrue result → IsDominatedLate late lates.now successor.now }
{
    match place {
        Some(place) if place < lates.len() => dominates_late(&lates[place], successor, late),
        _ => false,
    }
}

// Whether one of the best successors of no more ships dominates a successor from the minute on.
fn is_dominated_late_in(
    lates: &[Successor],
    bests: &Bests,
    successor: &Successor,
    late: u64,
) -> bool
    requires late { late ≤ 4294967296 }
    requires short { successor.now.duration ≤ 9000000 }
    requires soon { successor.now.last ≤ 1000000 }
    ensures { IsTrue result → IsDominatedLate late lates.now successor.now }
{
    for ships in 1..successor.group.ships.len() + 1 {
        if is_dominated_late_at(lates, bests.find(ships), successor, late) {
            return true;
        }
    }
    false
}

// Whether a successor gains nothing or one of the successors dominates it from the minute on.
fn is_covered_late(
    case: &LineCase,
    lates: &[Successor],
    bests: &Bests,
    successor: &Successor,
    late: u64,
) -> bool
    requires late { late ≤ 4294967296 }
    requires is { IsSuccessor (line_asked case.now) successor.now }
    ensures { IsTrue result → IsCoveredLate (line_asked case.now) late lates.now successor.now }
{
    is_gainless(case, successor, late) || is_dominated_late_in(lates, bests, successor, late)
}

// Forgets the best successors where a successor doesn't join the same group as the last one, or has
// another way: the successors of a line come in such stretches, and no other one dominates.
fn begin_stretch(lates: &[Successor], bests: &mut Bests, successor: &Successor) {
    match lates {
        [.., last] if last.joins == successor.joins && last.group.way == successor.group.way => {}
        _ => bests.clear(),
    }
}

// Puts a successor to the others, unless one of them covers it from the minute on.
fn put_late(
    case: &LineCase,
    lates: &mut Vec<Successor>,
    bests: &mut Bests,
    successor: &Successor,
    late: u64,
) -> Result<(), PriceError>
    requires late { late ≤ 4294967296 }
    requires is { IsSuccessor (line_asked case.now) successor.now }
    ensures { OnOk result (HasLate (line_asked case.now) late successor.now lates.old.items lates.new.items) }
{
    if is_covered_late(case, lates, bests, successor, late) {
        return Ok(());
    }
    bests.note(lates, successor);
    append(lates, successor.copy())
}

/// Of some successors those that are enough from a minute on. Fewest are kept where those of short
/// handling come first, and of these those of few ships: so what may dominate stands before.
pub(crate) fn late_successors(
    alloc: Global,
    case: &LineCase,
    successors: &[Successor],
    late: u64,
) -> Result<Vec<Successor>, PriceError>
    requires late { late ≤ 4294967296 }
    requires each { All (IsSuccessor (line_asked case.now)) successors.now }
    ensures { IfOk result (λ lates. AreLate (line_asked case.now) late successors.now lates.items) }
{
    let mut lates = Vec::new(alloc);
    let mut bests = Bests::new();
    for successor in successors {
        begin_stretch(&lates, &mut bests, successor);
        put_late(case, &mut lates, &mut bests, successor, late)?;
    }
    Ok(lates)
}
