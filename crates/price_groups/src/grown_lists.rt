//! Lists of groups that have grown, one for each base, which serve until prices rise above the ceilings.
ghost use Rattle.std.specs.Prelude.{◌≡◌, ◌<◌, length, slice_index_or, All, IfSome, IfOk, OnOk};
ghost use Rattle.std.specs.List.Sorted.{IsPermutation};
ghost use Rattle.price_groups.specs.declared.grown_lists.GrownList.{GrownList as Plain};
ghost use Rattle.price_groups.specs.Asked.{group_asked};
ghost use Rattle.price_groups.specs.Growing.{IsBaseIn};
ghost use Rattle.price_groups.specs.GrownLists.{ArePaired, IsGrownList};
ghost use Rattle.price_groups.specs.Masks.{AreAllCompletableIn};

use crate::extension::Extension;
use crate::growing::{WeighedGroups, grown};
use crate::sums::Sums;
use lock_model::Group;
use price_terms::{PriceError, append};
use std::alloc::Global;

/// A group that has grown, and its sums.
#[derive(Drop)]
pub struct GrownGroup {
    pub group: Group,
    pub sums: Sums,
}

impl GrownGroup {
    /// The same group.
    pub fn copy(&self) -> GrownGroup
        ensures { result ≡ self.now }
    {
        GrownGroup {
            group: self.group.copy(),
            sums: self.sums,
        }
    }
}

/// The groups that have grown from a base.
#[derive(Drop)]
pub struct GrownList {
    pub base: Group,
    pub groups: Vec<GrownGroup>,
}

// Groups, each with its sums.
fn paired(alloc: Global, listed: &WeighedGroups) -> Result<Vec<GrownGroup>, PriceError>
    requires { length listed.now.sums.items ≡ length listed.now.groups.items }
    ensures { IfOk result (λ pairs. ArePaired listed.now.groups.items listed.now.sums.items (length listed.now.groups.items) pairs.items) }
{
    let mut pairs = Vec::new(alloc);
    for (place, group) in listed.groups.iter().enumerate() {
        append(
            &mut pairs,
            GrownGroup {
                group: group.copy(),
                sums: listed.sums[place],
            },
        )?;
    }
    Ok(pairs)
}

// Puts the groups whose last ship arrives soonest first, and of these those of few ships and of short
// handling: one serves as well as another mostly where it comes before it.
fn soon_first(groups: &mut Vec<GrownGroup>) -> Result<(), PriceError>
    ensures { OnOk result (IsPermutation groups.old.items groups.new.items) }
{
    match groups.sort_by_key(|one| (one.sums.last, one.group.ships.len(), one.sums.duration)) {
        Ok(()) => Ok(()),
        Err(_) => Err(PriceError::NoMemory),
    }
}

// What grows from a base.
fn grown_list(alloc: Global, extension: &Extension, base: &Group) -> Result<GrownList, PriceError>
    requires completable { AreAllCompletableIn (group_asked extension.now) extension.now.completable.now }
    requires base { IsBaseIn (group_asked extension.now) base.now }
    ensures base { IfOk result (λ list. list.base ≡ base.now) }
    ensures grown { IfOk result (IsGrownList (group_asked extension.now)) }
{
    let listed = grown(alloc, extension, base)?;
    let mut groups = paired(alloc, &listed)?;
    soon_first(&mut groups)?;
    Ok(GrownList {
        base: base.copy(),
        groups,
    })
}

// The place of what has grown from a base, if it is among these.
fn place_of(lists: &[GrownList], base: &Group) -> Option<usize>
    ensures place { IfSome result (λ place. place < length lists.now) }
    ensures is { IfSome result (λ place. (default : Plain) → (slice_index_or lists.now place default).base ≡ base.now) }
{
    for (place, list) in lists.iter().enumerate() {
        if list.base == *base {
            return Some(place);
        }
    }
    None
}

/// The place of what has grown from a base, which is grown and put behind the others where it isn't
/// there.
pub fn list_for(
    alloc: Global,
    lists: &mut Vec<GrownList>,
    extension: &Extension,
    base: &Group,
) -> Result<usize, PriceError>
    requires completable { AreAllCompletableIn (group_asked extension.now) extension.now.completable.now }
    requires base { IsBaseIn (group_asked extension.now) base.now }
    requires lists { All (IsGrownList (group_asked extension.now)) lists.old.items }
    ensures lists { All (IsGrownList (group_asked extension.now)) lists.new.items }
    ensures place { IfOk result (λ place. place < length lists.new.items) }
    ensures base { IfOk result (λ place. (default : Plain) → (slice_index_or lists.new.items place default).base ≡ base.now) }
{
    if let Some(place) = place_of(lists, base) {
        return Ok(place);
    }
    let list = grown_list(alloc, extension, base)?;
    let place = lists.len();
    match lists.push(list) {
        Ok(()) => Ok(place),
        Err(_) => Err(PriceError::NoMemory),
    }
}
