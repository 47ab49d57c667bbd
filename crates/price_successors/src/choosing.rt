//! The groups that may come next in a loose line of a chamber.
ghost use Rattle.std.specs.Prelude.{◌≡◌, ◌+◌, ◌<◌, ◌≤◌, [], ◌++◌, length, All, OnOk, IfOk};
ghost use Rattle.price_groups.specs.Asked.{line_asked, group_asked};
ghost use Rattle.price_groups.specs.Asks.{IsUncutIn};
ghost use Rattle.price_groups.specs.GrownLists.{IsGrownList};
ghost use Rattle.price_groups.specs.Masks.{AreAllCompletableIn};
ghost use Rattle.price_groups.specs.Sums.{AreSumsIn};
ghost use Rattle.price_successors.specs.Successors.{Keeps, IsSuccessor, IsBaseOf};
ghost use Rattle.price_successors.specs.Enough.{HaveMore, PutsGroup, AreEarlyMore, AreSomeEarly, AreEarly};

use crate::buckets::{Buckets, Merit};
use crate::dominance::{order, put_by_bucket, put_each, short_first};
use crate::gainless::is_gainless;
use crate::lateness::late_successors;
use crate::paying::weighed;
use crate::successor::Successor;
use lock_model::{Group, Ships, Way};
use price_groups::{Extension, GrownGroup, GrownList, list_for};
use price_terms::{PriceError, append};
use std::alloc::Global;

// Puts the successor of a grown group to the others, unless it is empty or gains nothing, or one of them
// serves as well.
fn add_group(
    extension: &Extension,
    successors: &mut Vec<Successor>,
    buckets: &mut Buckets,
    grown: &GrownGroup,
    joins: Option<u8>,
) -> Result<(), PriceError>
    requires each { All (IsSuccessor (line_asked extension.now.case.now)) successors.old.items }
    requires known { All (λ s. s < length extension.now.case.now.instance.now.ships) grown.now.group.ships }
    requires sums { AreSumsIn (group_asked extension.now) grown.now.group.ships grown.now.sums }
    requires uncut { 1 ≤ length grown.now.group.ships → IsUncutIn (line_asked extension.now.case.now) grown.now.group }
    requires keeps { Keeps (line_asked extension.now.case.now) joins grown.now.group }
    ensures { OnOk result (PutsGroup (line_asked extension.now.case.now) joins grown.now.group successors.old.items successors.new.items) }
{
    if grown.group.ships.len() == 0 {
        return Ok(());
    }
    let successor = weighed(extension, grown, joins);
    if is_gainless(extension.case, &successor, 0) {
        return Ok(());
    }
    put_by_bucket(extension.case, successors, buckets, successor)
}

// Appends the successors that join a group, or that join none.
fn add_grown(
    extension: &Extension,
    successors: &mut Vec<Successor>,
    buckets: &mut Buckets,
    list: &GrownList,
    joins: Option<u8>,
) -> Result<(), PriceError>
    requires each { All (IsSuccessor (line_asked extension.now.case.now)) successors.old.items }
    requires list { IsGrownList (group_asked extension.now) list.now }
    requires base { IsBaseOf (line_asked extension.now.case.now) joins list.now.base }
    ensures { OnOk result (HaveMore (line_asked extension.now.case.now) joins list.now.base successors.old.items successors.new.items) }
{
    buckets.clear(Merit::Surplus);
    for grown in &list.groups {
        add_group(extension, successors, buckets, grown, joins)?;
    }
    Ok(())
}

// The successors that join a group, or that join none, those that pay most first.
fn ordered(
    alloc: Global,
    extension: &Extension,
    buckets: &mut Buckets,
    list: &GrownList,
    joins: Option<u8>,
) -> Result<Vec<Successor>, PriceError>
    requires list { IsGrownList (group_asked extension.now) list.now }
    requires base { IsBaseOf (line_asked extension.now.case.now) joins list.now.base }
    ensures { IfOk result (λ more. HaveMore (line_asked extension.now.case.now) joins list.now.base [] more.items) }
{
    let mut successors = Vec::new(alloc);
    add_grown(extension, &mut successors, buckets, list, joins)?;
    order(&mut successors)?;
    Ok(successors)
}

// The same, but none that another one dominates; those of short handling first.
fn undominated(
    alloc: Global,
    extension: &Extension,
    buckets: &mut Buckets,
    list: &GrownList,
    joins: Option<u8>,
) -> Result<Vec<Successor>, PriceError>
    requires list { IsGrownList (group_asked extension.now) list.now }
    requires base { IsBaseOf (line_asked extension.now.case.now) joins list.now.base }
    ensures { IfOk result (λ more. HaveMore (line_asked extension.now.case.now) joins list.now.base [] more.items) }
{
    let more = ordered(alloc, extension, buckets, list, joins)?;
    let mut successors = Vec::new(alloc);
    put_each(extension.case, &mut successors, buckets, &more)?;
    short_first(&mut successors)?;
    Ok(successors)
}

// Appends successors.
fn append_all(successors: &mut Vec<Successor>, more: &[Successor]) -> Result<(), PriceError>
    ensures { OnOk result (successors.new.items ≡ successors.old.items ++ more.now) }
{
    for successor in more {
        append(successors, successor.copy())?;
    }
    Ok(())
}

// Appends those of the successors that join a group, or that join none, that are enough.
fn put_grown(
    alloc: Global,
    extension: &Extension,
    successors: &mut Vec<Successor>,
    buckets: &mut Buckets,
    list: &GrownList,
    joins: Option<u8>,
) -> Result<(), PriceError>
    requires list { IsGrownList (group_asked extension.now) list.now }
    requires base { IsBaseOf (line_asked extension.now.case.now) joins list.now.base }
    ensures { OnOk result (AreEarlyMore (line_asked extension.now.case.now) joins list.now.base successors.old.items successors.new.items) }
{
    let more = undominated(alloc, extension, buckets, list, joins)?;
    let enough = late_successors(alloc, extension.case, &more, 0)?;
    append_all(successors, &enough)
}

// No ship, of a way.
fn empty(way: Way) -> Group
    ensures { result ≡ record { way = way; ships = [] } }
{
    Group {
        way,
        ships: Ships::new(),
    }
}

// The successors whose ships are all missing.
fn free_successors(
    alloc: Global,
    extension: &Extension,
    lists: &mut Vec<GrownList>,
    buckets: &mut Buckets,
) -> Result<Vec<Successor>, PriceError>
    requires completable { AreAllCompletableIn (group_asked extension.now) extension.now.completable.now }
    requires lists { All (IsGrownList (group_asked extension.now)) lists.old.items }
    ensures lists { All (IsGrownList (group_asked extension.now)) lists.new.items }
    ensures some { IfOk result (λ successors. AreSomeEarly (line_asked extension.now.case.now) 0 successors.items) }
{
    let mut successors = Vec::new(alloc);
    let up = list_for(alloc, lists, extension, &empty(Way::Up))?;
    put_grown(alloc, extension, &mut successors, buckets, &lists[up], None)?;
    let down = list_for(alloc, lists, extension, &empty(Way::Down))?;
    put_grown(
        alloc,
        extension,
        &mut successors,
        buckets,
        &lists[down],
        None,
    )?;
    Ok(successors)
}

/// Uncut groups that are enough for the chamber's line: for each uncut group that keeps one of the
/// line's groups, or none, one of them serves as well, or it gains nothing.
pub fn successors(
    alloc: Global,
    extension: &Extension,
    lists: &mut Vec<GrownList>,
    buckets: &mut Buckets,
) -> Result<Vec<Successor>, PriceError>
    requires completable { AreAllCompletableIn (group_asked extension.now) extension.now.completable.now }
    requires lists { All (IsGrownList (group_asked extension.now)) lists.old.items }
    ensures lists { All (IsGrownList (group_asked extension.now)) lists.new.items }
    ensures early { IfOk result (λ successors. AreEarly (line_asked extension.now.case.now) successors.items) }
{
    let line = extension.case.line;
    let mut successors = free_successors(alloc, extension, lists, buckets)?;
    for place in 0..line.len() {
        let own = list_for(alloc, lists, extension, &line[place])?;
        let joins = Some(place as u8);
        put_grown(
            alloc,
            extension,
            &mut successors,
            buckets,
            &lists[own],
            joins,
        )?;
    }
    Ok(successors)
}
