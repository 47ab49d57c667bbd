//! The ground of a lane: what is not open, turning or closed.
ghost use Rattle.std.specs.Prelude.{◌≡◌, ◌<◌, ◌++◌, OnOk};
ghost use Rattle.std.specs.List.{flat_map};
ghost use Rattle.picture_page.specs.Ground.{span_text, closed_ground, ground, turn_form, turn_box, turn_ground, turn_of, closure_box, closure_of, opening};

use crate::axis::Axis;
use crate::form::put_form;
use crate::passage::Passage;
use crate::times::{Clock, put_time};
use lock_model::{Closure, Closures};
use no_memory::NoMemory;
use plain_text::put;

/// Appends from when to when it is.
#[tactic(auto, unfolding(crate::specs::Ground::span_text))]
pub(crate) fn put_span(out: &mut Vec<u8>, clock: Clock, from: u64, to: u64) -> Result<(), NoMemory>
    ensures { OnOk result (out.new.items ≡ out.old.items ++ span_text clock from to) }
{
    put(out, b" from ")?;
    put_time(out, clock, from)?;
    put(out, b" to ")?;
    put_time(out, clock, to)
}

/// Appends the grey ground of a chamber that is not open before a minute.
#[tactic(auto, unfolding(crate::specs::Ground::closed_ground))]
fn put_closed_ground(out: &mut Vec<u8>, axis: &Axis, opens: u64) -> Result<(), NoMemory>
    ensures { OnOk result (out.new.items ≡ out.old.items ++ closed_ground axis.now opens) }
{
    put_form(out, b"<g><title>not open before ", &[])?;
    put_time(out, axis.clock(), opens)?;
    put_form(
        out,
        b"</title><rect class=\"n\" x=\"20\" y=\"10\" width=\"%\" height=\"29\"/></g>",
        &[(axis.x(opens) as u64).saturating_sub(20)],
    )
}

/// Appends the grey ground of a chamber that opens at a minute, where it opens after the axis begins.
pub(crate) fn put_ground(out: &mut Vec<u8>, axis: &Axis, opens: u64) -> Result<(), NoMemory>
    ensures { OnOk result (out.new.items ≡ out.old.items ++ ground axis.now opens) }
{
    if opens <= axis.first() {
        return Ok(());
    }
    put_closed_ground(out, axis, opens)
}

/// The box of an empty turn, with a whole outline where it has begun and else with a broken one.
fn turn_form(begun: bool) -> &'static [u8]
    ensures { result.now ≡ turn_form begun }
{
    if begun {
        b"</title><rect class=\"oq\" x=\"%\" y=\"10\" width=\"%\" height=\"29\"/></g>"
    } else {
        b"</title><rect class=\"o\" x=\"%\" y=\"10\" width=\"%\" height=\"29\"/></g>"
    }
}

/// Appends the box of an empty turn that begins at a minute and takes so many.
#[tactic(auto, unfolding(crate::specs::Ground::turn_box))]
fn put_turn_box(out: &mut Vec<u8>, axis: &Axis, minute: u32, long: u32) -> Result<(), NoMemory>
    ensures { OnOk result (out.new.items ≡ out.old.items ++ turn_box axis.now minute long) }
{
    let from = minute as u64;
    let to = from + long as u64;
    put_form(out, b"<g><title>empty turn", &[])?;
    put_span(out, axis.clock(), from, to)?;
    let left = axis.x(from) as u64;
    let right = axis.x(to) as u64;
    put_form(
        out,
        turn_form(axis.has_begun(minute)),
        &[left, right.saturating_sub(left)],
    )
}

/// Appends an empty turn of so many minutes, where there is one.
#[tactic(auto, unfolding(crate::specs::Ground::turn_ground))]
fn put_turn_ground(
    out: &mut Vec<u8>,
    axis: &Axis,
    long: u32,
    turn: Option<u32>,
) -> Result<(), NoMemory>
    ensures { OnOk result (out.new.items ≡ out.old.items ++ turn_ground axis.now long turn) }
{
    match turn {
        None => Ok(()),
        Some(minute) => put_turn_box(out, axis, minute, long),
    }
}

/// Appends the empty turns before the passages of a chamber.
pub(crate) fn put_turns(
    out: &mut Vec<u8>,
    axis: &Axis,
    long: u32,
    line: &[Passage],
) -> Result<(), NoMemory>
    ensures { OnOk result (out.new.items ≡ out.old.items ++ flat_map (turn_of axis.now long) line.now) }
{
    for passage in line {
        put_turn_ground(out, axis, long, passage.turn)?;
    }
    Ok(())
}

/// Appends the hatched box of a closure.
#[tactic(auto, unfolding(crate::specs::Ground::closure_box))]
fn put_closure_box(out: &mut Vec<u8>, axis: &Axis, from: u64, to: u64) -> Result<(), NoMemory>
    ensures { OnOk result (out.new.items ≡ out.old.items ++ closure_box axis.now from to) }
{
    put_form(out, b"<g><title>closed", &[])?;
    put_span(out, axis.clock(), from, to)?;
    let left = axis.x(from) as u64;
    let width = (axis.x(to) as u64).saturating_sub(left);
    put_form(
        out,
        b"</title><rect class=\"z\" x=\"%\" y=\"6\" width=\"%\" height=\"37\"/><rect class=\"zb\" x=\"%\" y=\"6\" width=\"%\" height=\"37\"/></g>",
        &[left, width, left, width],
    )
}

/// Appends a closure, where it has a minute that isn't left out.
#[tactic(auto, unfolding(crate::specs::Ground::closure_of))]
fn put_closure(out: &mut Vec<u8>, axis: &Axis, closure: &Closure) -> Result<(), NoMemory>
    ensures { OnOk result (out.new.items ≡ out.old.items ++ closure_of axis.now closure.now) }
{
    let from = closure.from as u64;
    let to = closure.to as u64;
    if axis.shows(from, to) {
        put_closure_box(out, axis, from, to)
    } else {
        Ok(())
    }
}

/// Appends the closures of a chamber.
pub(crate) fn put_closures(
    out: &mut Vec<u8>,
    axis: &Axis,
    closures: &Closures,
) -> Result<(), NoMemory>
    ensures { OnOk result (out.new.items ≡ out.old.items ++ flat_map (closure_of axis.now) closures.now) }
{
    for closure in closures.as_slice() {
        put_closure(out, axis, closure)?;
    }
    Ok(())
}

/// Appends the bar at the minute at which a chamber opens, where it is on the axis and not at its
/// beginning.
#[tactic(auto, unfolding(crate::specs::Ground::opening))]
pub(crate) fn put_opening(out: &mut Vec<u8>, axis: &Axis, opens: u64) -> Result<(), NoMemory>
    ensures { OnOk result (out.new.items ≡ out.old.items ++ opening axis.now opens) }
{
    if opens <= axis.first() || axis.last() < opens {
        return Ok(());
    }
    put_form(
        out,
        b"<path class=\"nb\" d=\"M% 6V43\"/>",
        &[axis.x(opens) as u64],
    )
}
