//! Uncut groups, listed by growing them ship by ship.
ghost use Rattle.std.specs.Prelude.{◌≡◌, ◌+◌, ◌<◌, ◌≤◌, ◌↔◌, length, All, IsTrue, IfSome, IfNone, OnOk, IfOk};
ghost use Rattle.lock_model.specs.declared.limits.TheConstants.{SHIPS};
ghost use Rattle.lock_rules.specs.Plan.{times_in};
ghost use Rattle.lock_rules.specs.Children.{with_ship};
ghost use Rattle.master_branch.specs.Steps.{group_in};
ghost use Rattle.price_groups.specs.Asked.{group_asked};
ghost use Rattle.price_groups.specs.Growing.{AreGrown, AreWhollyGrown, MayJoin, IsNew, IsPutJoined, IsJoinedBy, IsJoined, IsBaseIn, IsNewIn, IsAllowedIn};
ghost use Rattle.price_groups.specs.Masks.{IsMask, AreCompletableIn, AreAllCompletableIn};
ghost use Rattle.price_groups.specs.Sparing.{IsSpared};
ghost use Rattle.price_groups.specs.Sums.{AreSumsIn, AreWeighedIn, AreWeighedGroups};

use crate::extension::Extension;
use crate::forbidden::misses_all;
use crate::idling::has_idler;
use crate::line_case::LineCase;
use crate::masks::{ShipMask, are_before, misses_all_of, with_bit};
use crate::sums::Sums;
use crate::weighing::{more_sums, sums_of};
use lock_model::{Group, MOST};
use master_branch::with_ship;
use price_terms::{PriceError, append};
use std::alloc::Global;

/// Groups that have grown, and for each its sums.
#[derive(Drop)]
pub(crate) struct WeighedGroups {
    pub(crate) groups: Vec<Group>,
    pub(crate) sums: Vec<Sums>,
}

// Whether the node lacks the ship and it has the way of the group.
fn may_grow(case: &LineCase, base: &Group, ship: u8) -> bool
    requires { ship < length case.now.instance.now.ships }
    ensures { IsTrue result ↔ IsNew case.now.instance.now case.now.depth base.now ship }
{
    case.instance.ships.as_slice()[ship as usize].way == base.way && case.lacks(ship)
}

// The group with a ship more, which mostly comes behind all others.
fn with_more(group: &Group, mask: ShipMask, ship: u8) -> Group
    requires known { ship < SHIPS }
    requires mask { IsMask mask group.now.ships }
    requires room { length group.now.ships < MOST }
    requires absent { times_in group.now.ships ship ≡ 0 }
    ensures { result ≡ with_ship ship group.now }
{
    if !are_before(mask, ship) {
        return with_ship(group, ship);
    }
    let mut ships = group.ships.copy();
    ships.push(ship);
    Group {
        way: group.way,
        ships,
    }
}

// The group with a ship more, where the chamber may serve them together and no forbidden set is
// among them.
fn joined(
    extension: &Extension,
    completable: &[ShipMask],
    group: &Group,
    mask: ShipMask,
    ship: u8,
) -> Option<Group>
    requires mask { IsMask mask group.now.ships }
    requires completable { AreCompletableIn (group_asked extension.now) ship completable.now }
    requires known { ship < length extension.now.case.now.instance.now.ships }
    requires ships_in { All (λ s. s < length extension.now.case.now.instance.now.ships) group.now.ships }
    requires allowed { All (IsAllowedIn (group_asked extension.now) ship) group.now.ships }
    requires spared { IsSpared extension.now.sets.now group.now }
    requires absent { times_in group.now.ships ship ≡ 0 }
    requires few { length group.now.ships ≤ MOST }
    ensures some { IfSome result (IsJoinedBy (group_asked extension.now) ship group.now) }
    ensures none { IfNone result (¬ MayJoin extension.now.case.now.instance.now extension.now.case.now.index extension.now.sets.now ship group.now) }
{
    if group.ships.len() >= extension.case.chamber.most as usize {
        return None;
    }
    if misses_all_of(completable, with_bit(mask, ship)) {
        Some(with_more(group, mask, ship))
    } else {
        None
    }
}

// Whether one of the ships that joined may gain nothing at the soonest end of those that have these
// sums; `has_idler` tells.
fn may_idle(sums: &Sums) -> bool {
    sums.least as u64 <= 100 * sums.end()
}

// Appends a group that has grown, unless one of its ships gains nothing: nor does it in any group that
// grows from this one.
fn put_joined(
    extension: &Extension,
    groups: &mut Vec<Group>,
    sums: &mut Vec<Sums>,
    group: Group,
    own: Sums,
) -> Result<(), PriceError>
    requires known { All (λ s. s < length extension.now.case.now.instance.now.ships) group.ships }
    requires weighed { AreWeighedIn (group_asked extension.now) groups.old.items sums.old.items }
    requires own { AreSumsIn (group_asked extension.now) group.ships own }
    ensures weighed { OnOk result (AreWeighedIn (group_asked extension.now) groups.new.items sums.new.items) }
    ensures put { OnOk result (IsPutJoined (group_asked extension.now) group groups.old.items groups.new.items) }
{
    if may_idle(&own) && has_idler(extension, &group, own.end()) {
        return Ok(());
    }
    if groups.len() >= extension.most {
        return Err(PriceError::TooMany);
    }
    append(groups, group)?;
    append(sums, own)
}

// Joins a ship to the group at a place, where that may be.
fn join(
    extension: &Extension,
    completable: &[ShipMask],
    groups: &mut Vec<Group>,
    sums: &mut Vec<Sums>,
    place: usize,
    ship: u8,
) -> Result<(), PriceError>
    requires completable { AreCompletableIn (group_asked extension.now) ship completable.now }
    requires known { ship < length extension.now.case.now.instance.now.ships }
    requires ships_in { All (λ s. s < length extension.now.case.now.instance.now.ships) (group_in groups.old.items place).ships }
    requires allowed { All (IsAllowedIn (group_asked extension.now) ship) (group_in groups.old.items place).ships }
    requires spared { IsSpared extension.now.sets.now (group_in groups.old.items place) }
    requires place { place < length groups.old.items }
    requires absent { times_in (group_in groups.old.items place).ships ship ≡ 0 }
    requires few { length (group_in groups.old.items place).ships ≤ MOST }
    requires weighed { AreWeighedIn (group_asked extension.now) groups.old.items sums.old.items }
    ensures weighed { OnOk result (AreWeighedIn (group_asked extension.now) groups.new.items sums.new.items) }
    ensures joined { OnOk result (IsJoined (group_asked extension.now) ship (group_in groups.old.items place) groups.old.items groups.new.items) }
{
    let own = &sums[place];
    match joined(extension, completable, &groups[place], own.mask, ship) {
        None => Ok(()),
        Some(group) => {
            let more = more_sums(extension, own, ship);
            put_joined(extension, groups, sums, group, more)
        }
    }
}

// Joins a ship to each of the groups that have not met it.
fn join_each(
    extension: &Extension,
    completable: &[ShipMask],
    base: &Group,
    groups: &mut Vec<Group>,
    sums: &mut Vec<Sums>,
    ship: u8,
) -> Result<(), PriceError>
    requires completable { AreCompletableIn (group_asked extension.now) ship completable.now }
    requires known { ship < length extension.now.case.now.instance.now.ships }
    requires new { IsNewIn (group_asked extension.now) base.now ship }
    requires grown { AreGrown (group_asked extension.now) base.now ship groups.old.items }
    requires weighed { AreWeighedIn (group_asked extension.now) groups.old.items sums.old.items }
    ensures weighed { OnOk result (AreWeighedIn (group_asked extension.now) groups.new.items sums.new.items) }
    ensures grown { OnOk result (AreGrown (group_asked extension.now) base.now (ship + 1) groups.new.items) }
{
    for place in 0..groups.len() {
        join(extension, completable, groups, sums, place, ship)?;
    }
    Ok(())
}

// Joins a ship to each of the groups, where the node lacks it and it has their way.
fn grow(
    extension: &Extension,
    base: &Group,
    groups: &mut Vec<Group>,
    sums: &mut Vec<Sums>,
    ship: u8,
) -> Result<(), PriceError>
    requires completable { AreAllCompletableIn (group_asked extension.now) extension.now.completable.now }
    requires known { ship < length extension.now.case.now.instance.now.ships }
    requires grown { AreGrown (group_asked extension.now) base.now ship groups.old.items }
    requires weighed { AreWeighedIn (group_asked extension.now) groups.old.items sums.old.items }
    ensures weighed { OnOk result (AreWeighedIn (group_asked extension.now) groups.new.items sums.new.items) }
    ensures grown { OnOk result (AreGrown (group_asked extension.now) base.now (ship + 1) groups.new.items) }
{
    if !may_grow(extension.case, base, ship) {
        return Ok(());
    }
    join_each(
        extension,
        &extension.completable[ship as usize].masks,
        base,
        groups,
        sums,
        ship,
    )
}

// The base alone, where no forbidden set is in it.
fn ungrown(alloc: Global, extension: &Extension, base: &Group) -> Result<Vec<Group>, PriceError>
    requires { IsBaseIn (group_asked extension.now) base.now }
    ensures { IfOk result (λ groups. AreGrown (group_asked extension.now) base.now 0 groups.items) }
{
    let mut groups = Vec::new(alloc);
    if !misses_all(extension.sets, base.ships.as_slice()) {
        return Ok(groups);
    }
    append(&mut groups, base.copy())?;
    Ok(groups)
}

// The sums of groups.
fn sums_of_all(
    alloc: Global,
    extension: &Extension,
    groups: &[Group],
) -> Result<Vec<Sums>, PriceError>
    requires { All (λ g. All (λ s. s < length extension.now.case.now.instance.now.ships) g.ships) groups.now }
    ensures { IfOk result (λ sums. AreWeighedIn (group_asked extension.now) groups.now sums.items) }
{
    let mut sums = Vec::new(alloc);
    for group in groups {
        append(&mut sums, sums_of(extension, &group.ships))?;
    }
    Ok(sums)
}

/// The base joined by missing ships of its way, or by none, in all ways that the chamber may serve
/// and that hold no forbidden set, and the sums of each; the empty group among them where the base is
/// empty.
pub(crate) fn grown(
    alloc: Global,
    extension: &Extension,
    base: &Group,
) -> Result<WeighedGroups, PriceError>
    requires completable { AreAllCompletableIn (group_asked extension.now) extension.now.completable.now }
    requires base { IsBaseIn (group_asked extension.now) base.now }
    ensures grown { IfOk result (λ listed. AreWhollyGrown (group_asked extension.now) base.now listed.groups.items) }
    ensures weighed { IfOk result (AreWeighedGroups (group_asked extension.now)) }
{
    let count = extension.case.instance.ships.as_slice().len() as u8;
    let mut groups = ungrown(alloc, extension, base)?;
    let mut sums = sums_of_all(alloc, extension, &groups)?;
    for ship in 0..count {
        grow(extension, base, &mut groups, &mut sums, ship)?;
    }
    Ok(WeighedGroups { groups, sums })
}
