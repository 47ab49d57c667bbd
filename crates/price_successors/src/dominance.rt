//! Successors that are left out, since others dominate them: they serve as well.
ghost use Rattle.std.specs.Prelude.{length, All, IsTrue, OnOk};
ghost use Rattle.std.specs.List.Sorted.{IsPermutation};
ghost use Rattle.price_groups.specs.Asked.{line_asked};
ghost use Rattle.price_successors.specs.Successors.{IsSuccessor};
ghost use Rattle.price_successors.specs.Dominance.{Dominates, IsDominated};
ghost use Rattle.price_successors.specs.Enough.{HasOne, HavePut};

use crate::buckets::{Buckets, Merit};
use crate::successor::Successor;
use price_groups::LineCase;
use price_terms::{PriceError, append};

#[inline(always)]
// Whether a successor joins the same group as another, has its way and is no worse by its sums.
fn dominates(other: &Successor, successor: &Successor) -> bool
    ensures { IsTrue result → Dominates other.now successor.now }
{
    other.duration <= successor.duration
        && other.last <= successor.last
        && other.group.ships.len() <= successor.group.ships.len()
        && other.pays as u64 + successor.charged as u64
            >= successor.pays as u64 + other.charged as u64
        && other.group.way == successor.group.way
        && other.joins == successor.joins
}

// Whether one of the successors dominates a successor.
fn is_dominated(case: &LineCase, successors: &[Successor], successor: &Successor) -> bool
    requires each { All (IsSuccessor (line_asked case.now)) successors.now }
    requires is { IsSuccessor (line_asked case.now) successor.now }
    ensures { IsTrue result → IsDominated (line_asked case.now) successors.now successor.now.joins successor.now.group }
{
    for other in successors {
        if dominates(other, successor) {
            return true;
        }
    }
    false
}

// Appends a successor to the others.
fn add(
    case: &LineCase,
    successors: &mut Vec<Successor>,
    successor: Successor,
) -> Result<(), PriceError>
    requires each { All (IsSuccessor (line_asked case.now)) successors.old.items }
    requires is { IsSuccessor (line_asked case.now) successor }
    ensures { OnOk result (HasOne (line_asked case.now) successor successors.old.items successors.new.items) }
{
    append(successors, successor)
}

#[inline(always)]
// Whether the successor at a place, if there is one, dominates a successor.
fn is_dominated_at(
    case: &LineCase,
    successors: &[Successor],
    place: Option<usize>,
    successor: &Successor,
) -> bool
    requires each { All (IsSuccessor (line_asked case.now)) successors.now }
    requires is { IsSuccessor (line_asked case.now) successor.now }
    ensures { IsTrue result → IsDominated (line_asked case.now) successors.now successor.now.joins successor.now.group }
{
    match place {
        Some(place) if place < successors.len() => dominates(&successors[place], successor),
        _ => false,
    }
}

// Whether one of the successors in the buckets of no more ships dominates a successor.
fn is_dominated_in(
    case: &LineCase,
    successors: &[Successor],
    buckets: &Buckets,
    successor: &Successor,
) -> bool
    requires each { All (IsSuccessor (line_asked case.now)) successors.now }
    requires is { IsSuccessor (line_asked case.now) successor.now }
    ensures { IsTrue result → IsDominated (line_asked case.now) successors.now successor.now.joins successor.now.group }
{
    for ships in 1..successor.group.ships.len() + 1 {
        if is_dominated_at(case, successors, buckets.find(ships, successor), successor) {
            return true;
        }
    }
    false
}

// Puts a successor to the others, unless one of them dominates it.
fn put(
    case: &LineCase,
    successors: &mut Vec<Successor>,
    buckets: &mut Buckets,
    successor: Successor,
) -> Result<(), PriceError>
    requires each { All (IsSuccessor (line_asked case.now)) successors.old.items }
    requires is { IsSuccessor (line_asked case.now) successor }
    ensures { OnOk result (HasOne (line_asked case.now) successor successors.old.items successors.new.items) }
{
    if is_dominated_in(case, successors, buckets, &successor) {
        return Ok(());
    }
    if buckets.is_vague(&successor) && is_dominated(case, successors, &successor) {
        return Ok(());
    }
    buckets.note(successors, &successor);
    add(case, successors, successor)
}

/// Puts a successor to the others, unless the one in its bucket dominates it. Of many successors in no
/// order most are left out so, before the others are put in order.
pub(crate) fn put_by_bucket(
    case: &LineCase,
    successors: &mut Vec<Successor>,
    buckets: &mut Buckets,
    successor: Successor,
) -> Result<(), PriceError>
    requires each { All (IsSuccessor (line_asked case.now)) successors.old.items }
    requires is { IsSuccessor (line_asked case.now) successor }
    ensures { OnOk result (HasOne (line_asked case.now) successor successors.old.items successors.new.items) }
{
    let found = buckets.find(successor.group.ships.len(), &successor);
    if is_dominated_at(case, successors, found, &successor) {
        return Ok(());
    }
    buckets.note(successors, &successor);
    add(case, successors, successor)
}

/// Puts successors, those that pay most first, to the others, each unless one of them dominates it.
pub(crate) fn put_each(
    case: &LineCase,
    successors: &mut Vec<Successor>,
    buckets: &mut Buckets,
    more: &[Successor],
) -> Result<(), PriceError>
    requires each { All (IsSuccessor (line_asked case.now)) successors.old.items }
    requires others { All (IsSuccessor (line_asked case.now)) more.now }
    ensures { OnOk result (HavePut (line_asked case.now) more.now (length more.now) successors.old.items successors.new.items) }
{
    buckets.clear(Merit::Soon);
    for successor in more {
        put(case, successors, buckets, successor.copy())?;
    }
    Ok(())
}

/// Puts the successors of the greatest surplus first: one dominates others only where it has no less,
/// so that in this order none is kept that a later one dominates.
pub(crate) fn order(successors: &mut Vec<Successor>) -> Result<(), PriceError>
    ensures { OnOk result (IsPermutation successors.old.items successors.new.items) }
{
    match successors.sort_by_key(|successor| u32::MAX - successor.surplus()) {
        Ok(()) => Ok(()),
        Err(_) => Err(PriceError::NoMemory),
    }
}

/// Puts the successors of short handling first, and of these those of few ships: one dominates
/// others from a minute on only where it takes no longer and is no more ships.
pub(crate) fn short_first(successors: &mut Vec<Successor>) -> Result<(), PriceError>
    ensures { OnOk result (IsPermutation successors.old.items successors.new.items) }
{
    match successors.sort_by_key(|successor| (successor.duration, successor.group.ships.len())) {
        Ok(()) => Ok(()),
        Err(_) => Err(PriceError::NoMemory),
    }
}
