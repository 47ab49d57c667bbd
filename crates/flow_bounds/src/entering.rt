//! A ship that enters a line of a node.
ghost use Rattle.std.specs.Prelude.{◌≡◌, ◌<◌, ◌≤◌, length};
ghost use Rattle.lock_rules.specs.Bound.{line_flow};
ghost use Rattle.master_branch.specs.Node.{IsNodeOf};
ghost use Rattle.master_branch.specs.Steps.{group_in, joined_line, opened_line, IsStep};
ghost use Rattle.flow_bounds.specs.Walk.{chamber_of, line_of};
ghost use Rattle.flow_bounds.specs.Along.{IsAlong};
ghost use Rattle.flow_bounds.specs.Entering.{IsEntered, IsFlowAfter, entered_flow};

use crate::line_walks::LineWalks;
use crate::load::{load_alone, with_one};
use crate::walk::{Walk, serve};
use lock_model::{Group, Instance, MOST, SHIPS};
use master_branch::{Node, Step};

/// How far the walk along a line is once a ship has entered it: the walk after the ship's group, and
/// the number of the first group behind it.
#[derive(Clone, Copy)]
pub struct Entered {
    pub walk: Walk,
    pub from: usize,
}

/// A ship joins the group at this place of a line: what the line takes is that of the group with the
/// ship. Takes no memory.
#[inline]
pub fn joined(
    instance: &Instance,
    chamber: u8,
    line: &[Group],
    along: &LineWalks,
    ship: u8,
    place: u8,
) -> Entered
    requires ship_in { ship < length instance.now.ships }
    requires chamber_in { chamber < length instance.now.chambers }
    requires few { length line.now ≤ SHIPS }
    requires along { IsAlong instance.now chamber line.now along.now }
    requires place { place < length line.now }
    requires room { length (group_in line.now place).ships < MOST }
    ensures entered { IsEntered instance.now chamber line.now along.now.walks result }
    ensures flow { entered_flow instance.now chamber line.now result ≡ line_flow instance.now chamber (joined_line ship line.now place) }
{
    let _ = line;
    let place = place as usize;
    let load = with_one(instance, &along.loads[place], ship);
    Entered {
        walk: serve(instance, chamber, along.walks[place], &load),
        from: place + 1,
    }
}

/// A ship stands alone in a new group at this place of a line, before the one that stands there, or
/// behind the last one. Takes no memory.
#[inline]
pub fn opened(
    instance: &Instance,
    chamber: u8,
    line: &[Group],
    along: &LineWalks,
    ship: u8,
    place: u8,
) -> Entered
    requires ship_in { ship < length instance.now.ships }
    requires chamber_in { chamber < length instance.now.chambers }
    requires few { length line.now ≤ SHIPS }
    requires along { IsAlong instance.now chamber line.now along.now }
    requires place { place ≤ length line.now }
    ensures entered { IsEntered instance.now chamber line.now along.now.walks result }
    ensures flow { entered_flow instance.now chamber line.now result ≡ line_flow instance.now chamber (opened_line instance.now ship line.now place) }
{
    let _ = line;
    let place = place as usize;
    let load = load_alone(instance, ship);
    Entered {
        walk: serve(instance, chamber, along.walks[place], &load),
        from: place,
    }
}

// The chamber of a step.
pub(crate) fn chamber_of(step: Step) -> u8
    ensures { result ≡ chamber_of step }
{
    match step {
        Step::Join { chamber, .. } => chamber,
        Step::Open { chamber, .. } => chamber,
    }
}

// A ship that a node lacks enters it by a step, by the walks along the line of the step's chamber.
#[inline(always)]
pub(crate) fn enter(
    instance: &Instance,
    node: &Node,
    along: &LineWalks,
    ship: u8,
    step: Step,
) -> Entered
    requires node { IsNodeOf instance.now node.now }
    requires ship_in { ship < length instance.now.ships }
    requires step { IsStep instance.now ship node.now.lines step }
    requires along { IsAlong instance.now (chamber_of step) (line_of node.now.lines step) along.now }
    ensures entered { IsEntered instance.now (chamber_of step) (line_of node.now.lines step) along.now.walks result }
    ensures flow { IsFlowAfter instance.now ship node.now.lines step result }
{
    match step {
        Step::Join { chamber, place } => {
            let line = node.line(chamber);
            joined(instance, chamber, line, along, ship, place)
        }
        Step::Open { chamber, place } => {
            let line = node.line(chamber);
            opened(instance, chamber, line, along, ship, place)
        }
    }
}
