//! The ships that a chamber waits for.
ghost use Rattle.std.specs.Prelude.{◌≡◌, ◌+◌, ◌<◌, length, IfOk, IsTrue, OnOk};
ghost use Rattle.std.specs.List.Sorted.{IsPermutation};
ghost use Rattle.price_groups.specs.Asked.{line_asked};
ghost use Rattle.price_groups.specs.Sparing.{AreForbidden};
ghost use Rattle.price_terms.specs.Cuts.{plain_cuts};
ghost use Rattle.sweep_labels.specs.Coming.{AreByArrival, AreComing};
ghost use Rattle.sweep_arcs.specs.Awaited.{IsAwaited, AreAwaited};

use lock_model::{Group, Ships, Way};
use price_groups::{LineCase, are_spared};
use price_terms::{PriceError, append};
use std::alloc::Global;
use sweep_labels::{Coming, ComingShips};

// Whether a ship has the way, and no cut hits it alone in the chamber.
fn is_awaited(case: &LineCase, sets: &[Ships], way: Way, ship: u8) -> bool
    requires sets { AreForbidden case.now.instance.now case.now.index (plain_cuts case.now.instance.now case.now.cuts.now) sets.now }
    requires known { ship < length case.now.instance.now.ships }
    ensures { IsAwaited (line_asked case.now) way ship → IsTrue result }
{
    let ships = Ships::single(ship);
    case.instance.ships.as_slice()[ship as usize].way == way
        && are_spared(sets, &[Group { way, ships }])
}

// Appends a ship that the chamber may want for the way.
fn put_awaited(
    coming: &mut Vec<Coming>,
    case: &LineCase,
    sets: &[Ships],
    way: Way,
    ship: u8,
) -> Result<(), PriceError>
    requires sets { AreForbidden case.now.instance.now case.now.index (plain_cuts case.now.instance.now case.now.cuts.now) sets.now }
    requires known { ship < length case.now.instance.now.ships }
    requires before { AreAwaited (line_asked case.now) way ship coming.old.items }
    ensures { OnOk result (AreAwaited (line_asked case.now) way (ship + 1) coming.new.items) }
{
    if !is_awaited(case, sets, way, ship) {
        return Ok(());
    }
    let arrival = case.instance.ships.as_slice()[ship as usize].arrival;
    append(coming, Coming { ship, arrival })
}

// The ships that the chamber may want for the way, by number.
fn awaited(
    alloc: Global,
    case: &LineCase,
    sets: &[Ships],
    way: Way,
) -> Result<Vec<Coming>, PriceError>
    requires { AreForbidden case.now.instance.now case.now.index (plain_cuts case.now.instance.now case.now.cuts.now) sets.now }
    ensures { IfOk result (λ coming. AreAwaited (line_asked case.now) way (length case.now.instance.now.ships) coming.items) }
{
    let mut coming = Vec::new(alloc);
    for ship in 0..case.instance.ships.as_slice().len() as u8 {
        put_awaited(&mut coming, case, sets, way, ship)?;
    }
    Ok(coming)
}

// Puts the ships that arrive soonest first.
fn soonest_first(coming: &mut Vec<Coming>) -> Result<(), PriceError>
    ensures same { OnOk result (IsPermutation coming.old.items coming.new.items) }
    ensures rising { OnOk result (AreByArrival coming.new.items) }
{
    match coming.sort_by_key(|one| one.arrival) {
        Ok(()) => Ok(()),
        Err(_) => Err(PriceError::NoMemory),
    }
}

/// The ships that the chamber may want for the way, by rising arrival.
pub(crate) fn coming_ships(
    alloc: Global,
    case: &LineCase,
    sets: &[Ships],
    way: Way,
) -> Result<ComingShips, PriceError>
    requires { AreForbidden case.now.instance.now case.now.index (plain_cuts case.now.instance.now case.now.cuts.now) sets.now }
    ensures { IfOk result (λ coming. AreComing case.now.instance.now (plain_cuts case.now.instance.now case.now.cuts.now) case.now.index way coming.items.items) }
{
    let mut items = awaited(alloc, case, sets, way)?;
    soonest_first(&mut items)?;
    Ok(ComingShips { items })
}
