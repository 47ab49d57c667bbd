//! Ship sets as numbers, so that a group is held against many of them fast.
ghost use Rattle.std.specs.Prelude.{ℕ, ◌≡◌, ◌+◌, ◌<◌, ◌↔◌, true, List, length, All, IsTrue, IfOk, OnOk, bit_and};
ghost use Rattle.lock_model.specs.declared.limits.TheConstants.{SHIPS};
ghost use Rattle.lock_rules.specs.Children.{insert_number};
ghost use Rattle.price_groups.specs.Masks.{IsMask, AreAllowed, AreMarks, IsNoted, IsBetween, AreHaving, IsPutBetween};
ghost use Rattle.price_groups.specs.Masks.{AreAllCompletable, AreCompletableOf, AreCompletableByMissing};

use crate::completable_sets::CompletableSets;
use crate::forbidden::are_known;
use crate::line_case::LineCase;
use lock_model::{Instance, Ships};
use price_terms::{PriceError, append};
use std::alloc::Global;

/// Ships as the bits of a number.
pub type ShipMask = u128;

/// The number whose bits are these ships.
pub(crate) fn mask_of(ships: &[u8]) -> ShipMask
    requires { All (λ s. s < SHIPS) ships.now }
    ensures { IsMask result ships.now }
{
    let mut mask = 0;
    for &ship in ships {
        mask = mask | 1 << ship;
    }
    mask
}

#[inline(always)]
/// The number whose bits are those ships and one more.
pub(crate) fn with_bit(mask: ShipMask, ship: u8) -> ShipMask
    requires { ship < SHIPS }
    ensures { (ships : List ℕ) → IsMask mask ships → IsMask result (insert_number ship ships) }
{
    mask | 1 << ship
}

#[inline(always)]
/// Whether all ships of a number are before one.
pub(crate) fn are_before(mask: ShipMask, ship: u8) -> bool
    requires { ship < SHIPS }
    ensures { (ships : List ℕ) → IsMask mask ships → IsTrue result → All (λ s. s < ship) ships }
{
    mask >> ship == 0
}

// Whether all bits of a set are among those of a number.
fn is_among(set: ShipMask, mask: ShipMask) -> bool
    ensures { IsTrue result ↔ (bit_and set mask ≡ set) }
{
    set & mask == set
}

/// Whether none of the sets is among the ships of a mask.
pub fn misses_all_of(sets: &[ShipMask], mask: ShipMask) -> bool
    ensures { IsTrue result ↔ All (λ set. ¬ (bit_and set mask ≡ set)) sets.now }
{
    for &set in sets {
        if is_among(set, mask) {
            return false;
        }
    }
    true
}

// Appends the mask of a set, where its ships are the instance's.
fn note(masks: &mut Vec<ShipMask>, instance: &Instance, set: &[u8]) -> Result<(), PriceError>
    ensures { OnOk result (IsNoted instance.now set.now masks.old.items masks.new.items) }
{
    if are_known(instance, set) {
        return append(masks, mask_of(set));
    }
    Ok(())
}

/// The masks of the sets whose ships are the instance's.
pub fn marks(
    alloc: Global,
    instance: &Instance,
    sets: &[Ships],
) -> Result<Vec<ShipMask>, PriceError>
    ensures { IfOk result (λ masks. AreMarks instance.now sets.now (length sets.now) masks.items) }
{
    let mut masks = Vec::new(alloc);
    for set in sets {
        note(&mut masks, instance, set.as_slice())?;
    }
    Ok(masks)
}

// Whether a number has all bits of one number, and none but those of another.
fn is_between(own: ShipMask, early: ShipMask, mask: ShipMask) -> bool
    ensures { IsTrue result ↔ IsBetween own early mask }
{
    is_among(own, mask) && is_among(mask, early)
}

// Appends a mask, where it lies between two numbers.
fn put_between(
    masks: &mut Vec<ShipMask>,
    own: ShipMask,
    early: ShipMask,
    mask: ShipMask,
) -> Result<(), PriceError>
    ensures { OnOk result (IsPutBetween own early mask masks.old.items masks.new.items) }
{
    if is_between(own, early, mask) {
        return append(masks, mask);
    }
    Ok(())
}

// Those of the masks that lie between two numbers.
fn having(
    alloc: Global,
    marks: &[ShipMask],
    own: ShipMask,
    early: ShipMask,
) -> Result<Vec<ShipMask>, PriceError>
    ensures { IfOk result (λ masks. AreHaving own early marks.now (length marks.now) masks.items) }
{
    let mut masks = Vec::new(alloc);
    for &mask in marks {
        put_between(&mut masks, own, early, mask)?;
    }
    Ok(masks)
}

// Appends a ship, where the node holds it or it is no later than another one.
fn put_allowed(ships: &mut Vec<u8>, case: &LineCase, last: u8, ship: u8) -> Result<(), PriceError>
    requires few { ship < SHIPS }
    requires before { AreAllowed case.now.instance.now case.now.depth last ship ships.old.items }
    ensures { OnOk result (AreAllowed case.now.instance.now case.now.depth last (ship + 1) ships.new.items) }
{
    if ship <= last || !case.lacks(ship) {
        return append(ships, ship);
    }
    Ok(())
}

// The ships that the node holds, and those up to a ship.
fn allowed(alloc: Global, case: &LineCase, last: u8) -> Result<Vec<u8>, PriceError>
    ensures { IfOk result (λ ships. AreAllowed case.now.instance.now case.now.depth last (length case.now.instance.now.ships) ships.items) }
{
    let mut ships = Vec::new(alloc);
    for ship in 0..case.instance.ships.as_slice().len() as u8 {
        put_allowed(&mut ships, case, last, ship)?;
    }
    Ok(ships)
}

// Those of the masks of sets that a ship may complete.
fn completable_by(
    alloc: Global,
    case: &LineCase,
    marks: &[ShipMask],
    ship: u8,
) -> Result<CompletableSets, PriceError>
    requires { ship < SHIPS }
    ensures { IfOk result (λ completable. AreCompletableOf case.now.instance.now case.now.depth marks.now ship completable.masks.items) }
{
    let own = mask_of(&[ship]);
    let early = mask_of(&allowed(alloc, case, ship)?);
    Ok(CompletableSets {
        masks: having(alloc, marks, own, early)?,
    })
}

// The same, where the node lacks the ship; of one that it holds nothing is asked.
fn completable_by_missing(
    alloc: Global,
    case: &LineCase,
    marks: &[ShipMask],
    ship: u8,
) -> Result<CompletableSets, PriceError>
    requires { ship < SHIPS }
    ensures { IfOk result (λ completable. AreCompletableByMissing case.now.instance.now case.now.depth marks.now ship completable.masks.items) }
{
    if case.lacks(ship) {
        completable_by(alloc, case, marks, ship)
    } else {
        Ok(CompletableSets {
            masks: Vec::new(alloc),
        })
    }
}

/// For each missing ship the masks of the sets that it may complete where ships join one after another:
/// those that have it, but no later one that the node lacks. Where a group that holds no set is joined
/// by the ship, no other one can be in it then.
pub fn completable_by_ship(
    alloc: Global,
    case: &LineCase,
    sets: &[Ships],
) -> Result<Vec<CompletableSets>, PriceError>
    ensures { IfOk result (λ all. AreAllCompletable case.now.instance.now case.now.depth sets.now (length case.now.instance.now.ships) all.items) }
{
    let marks = marks(alloc, case.instance, sets)?;
    let mut completable = Vec::new(alloc);
    for ship in 0..case.instance.ships.as_slice().len() as u8 {
        append(
            &mut completable,
            completable_by_missing(alloc, case, &marks, ship)?,
        )?;
    }
    Ok(completable)
}
