//! The walks along a line, kept at each of its groups.
ghost use Rattle.std.specs.Prelude.{◌≡◌, ◌↔◌, ◌+◌, ◌*◌, ◌<◌, ◌≤◌, length, All, IsTrue, IfSome, IfNone, drop};
ghost use Rattle.std.specs.Bool.{OnTrue};
ghost use Rattle.flow_bounds.specs.Most.{group_flow};
ghost use Rattle.flow_bounds.specs.Walk.{serve_all};
ghost use Rattle.flow_bounds.specs.Along.{IsAlong};
ghost use Rattle.flow_bounds.specs.Entering.{IsEntered};

use crate::entering::Entered;
use crate::load::{Load, load_of};
use crate::walk::{Walk, serve, walk_start};
use lock_model::{Group, Instance, SHIPS, SHIPS_AND_ROOT};

/// Room for the walks along a line of up to `SHIPS` groups: number `i` is after the first `i` groups. Number
/// `i` of the loads is that of group `i`, so that a later walk needn't look at its ships again.
#[derive(Drop)]
pub struct LineWalks {
    pub walks: [Walk; SHIPS_AND_ROOT],
    pub loads: [Load; SHIPS],
}

impl LineWalks {
    /// Along no line yet. Takes no memory.
    pub fn new() -> LineWalks {
        LineWalks {
            walks: Default::default(),
            loads: Default::default(),
        }
    }
}

/// Walks along a chamber's line, each group as early as it can be. Takes no memory.
pub fn walk_along(instance: &Instance, chamber: u8, line: &[Group], along: &mut LineWalks)
    requires chamber_in { chamber < length instance.now.chambers }
    requires ships_in { All (λ g. All (λ s. s < length instance.now.ships) g.ships) line.now }
    requires few { length line.now ≤ SHIPS }
    ensures { IsAlong instance.now chamber line.now along.new }
{
    let mut walk = walk_start(instance, chamber);
    along.walks[0] = walk;
    for (i, group) in line.iter().enumerate() {
        let load = load_of(instance, group);
        walk = serve(instance, chamber, walk, &load);
        along.loads[i] = load;
        along.walks[i + 1] = walk;
    }
}

// Whether two walks go on alike: the chamber stands alike, and is done at the same minute.
#[inline]
fn are_in_step(a: Walk, b: Walk) -> bool
    ensures { OnTrue result ((a.stand ≡ b.stand) × (a.done ≡ b.done)) }
{
    a.done == b.done && a.stand == b.stand
}

// The flow times at the end of the line, where a ship has entered it: from where the walk is in step
// with the walks along the line, it gains what they gain.
pub(crate) fn finish(
    instance: &Instance,
    chamber: u8,
    line: &[Group],
    along: &LineWalks,
    entered: Entered,
) -> u64
    requires chamber_in { chamber < length instance.now.chambers }
    requires few { length line.now ≤ SHIPS }
    requires along { IsAlong instance.now chamber line.now along.now }
    requires entered { IsEntered instance.now chamber line.now along.now.walks entered }
    ensures value { result ≡ (serve_all instance.now chamber entered.walk (drop entered.from line.now)).flow }
    ensures small { result ≤ 2 * (SHIPS + 1) * group_flow }
{
    let mut walk = entered.walk;
    for i in entered.from..line.len() {
        if are_in_step(walk, along.walks[i]) {
            return walk.flow + (along.walks[line.len()].flow - along.walks[i].flow);
        }
        walk = serve(instance, chamber, walk, &along.loads[i]);
    }
    walk.flow
}

/// The flow times at the end of the line, where a ship has entered it, if they stay below so many
/// minutes. No group behind adds less than in the walks along the line, so it is often told at once that
/// they don't. Takes no memory.
#[inline]
pub fn flow_below(
    instance: &Instance,
    chamber: u8,
    line: &[Group],
    along: &LineWalks,
    entered: Entered,
    below: u64,
) -> Option<u64>
    requires chamber_in { chamber < length instance.now.chambers }
    requires few { length line.now ≤ SHIPS }
    requires along { IsAlong instance.now chamber line.now along.now }
    requires entered { IsEntered instance.now chamber line.now along.now.walks entered }
    ensures none { IfNone result (below ≤ (serve_all instance.now chamber entered.walk (drop entered.from line.now)).flow) }
    ensures value { IfSome result (λ flow. flow ≡ (serve_all instance.now chamber entered.walk (drop entered.from line.now)).flow) }
    ensures less { IfSome result (λ flow. flow < below) }
{
    let mut walk = entered.walk;
    for i in entered.from..line.len() {
        let least = walk.flow + (along.walks[line.len()].flow - along.walks[i].flow);
        if least >= below {
            return None;
        }
        if are_in_step(walk, along.walks[i]) {
            return Some(least);
        }
        walk = serve(instance, chamber, walk, &along.loads[i]);
    }
    told_below(walk.flow, below)
}

// A number, if it is below another.
#[inline]
fn told_below(number: u64, below: u64) -> Option<u64>
    ensures none { IfNone result (below ≤ number) }
    ensures value { IfSome result (λ told. told ≡ number) }
    ensures less { IfSome result (λ told. told < below) }
{
    if number < below { Some(number) } else { None }
}

// Whether the flow times at the end of the line, where a ship has entered it, are at least `need`.
pub(crate) fn reaches(
    instance: &Instance,
    chamber: u8,
    line: &[Group],
    along: &LineWalks,
    entered: Entered,
    need: u64,
) -> bool
    requires chamber_in { chamber < length instance.now.chambers }
    requires few { length line.now ≤ SHIPS }
    requires along { IsAlong instance.now chamber line.now along.now }
    requires entered { IsEntered instance.now chamber line.now along.now.walks entered }
    ensures { IsTrue result ↔ (need ≤ (serve_all instance.now chamber entered.walk (drop entered.from line.now)).flow) }
{
    flow_below(instance, chamber, line, along, entered, need).is_none()
}
