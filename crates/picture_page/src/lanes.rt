//! The lanes: a row for each chamber.
ghost use Rattle.std.specs.Prelude.{◌≡◌, ◌≤◌, ◌<◌, ◌^◌, ◌++◌, length, All, OnOk};
ghost use Rattle.std.specs.List.{flat_map};
ghost use Rattle.lock_model.specs.Fleet.{ship_at};
ghost use Rattle.picture_page.specs.KnownPassages.{HasShips};
ghost use Rattle.picture_page.specs.Lanes.{axis_head, closed_text, lane_name, lane_title, next_name, names, box_width};
ghost use Rattle.picture_page.specs.Lanes.{begun_word, box_title, begun_frame, lockage_box};
ghost use Rattle.picture_page.specs.Lanes.{lane_ground, lane_words, lane_end, lane, lane_at, lanes, chambers_table};

use crate::axis::Axis;
use crate::form::{put_between, put_form, put_number_between};
use crate::ground::{put_closures, put_ground, put_opening, put_span};
use crate::labels::{are_wide, put_labels, put_opens};
use crate::passage::Passage;
use crate::passages::line_of;
use crate::present::put_present_line;
use crate::shapes::{put_frame, put_passage_box};
use crate::times::{Clock, put_time};
use crate::water::put_water;
use crate::words::{put_count, put_measures, put_plural_between};
use instance_text::{stand_word, way_word};
use lock_model::{Chamber, Closures, Instance};
use no_memory::NoMemory;
use plain_text::put;
use std::alloc::Global;

/// Appends the axis in the head of a table, with room for a flag above it where the page shows the
/// minute that it is.
pub(crate) fn put_axis(out: &mut Vec<u8>, axis: &Axis) -> Result<(), NoMemory>
    ensures { OnOk result (out.new.items ≡ out.old.items ++ axis_head axis.now.present) }
{
    match axis.present() {
        None => put(
            out,
            b"<svg viewBox=\"0 0 812 22\" aria-hidden=\"true\"><use href=\"#x\"/><use href=\"#A\"/></svg>",
        ),
        Some(_) => put(
            out,
            b"<svg viewBox=\"0 0 812 34\" aria-hidden=\"true\"><use href=\"#x\" y=\"12\"/><use href=\"#A\" y=\"12\"/><use href=\"#N\"/></svg>",
        ),
    }
}

/// Appends when a chamber is closed.
#[tactic(auto, unfolding(crate::specs::Lanes::closed_text))]
fn put_closed(out: &mut Vec<u8>, clock: Clock, closures: &Closures) -> Result<(), NoMemory>
    ensures { OnOk result (out.new.items ≡ out.old.items ++ flat_map (closed_text clock) closures.now) }
{
    for closure in closures.as_slice() {
        put(out, b", closed")?;
        put_span(out, clock, closure.from as u64, closure.to as u64)?;
    }
    Ok(())
}

/// Appends a chamber's name and measures.
#[tactic(auto, unfolding(crate::specs::Lanes::lane_name))]
fn put_lane_name(out: &mut Vec<u8>, chamber: &Chamber) -> Result<(), NoMemory>
    ensures { OnOk result (out.new.items ≡ out.old.items ++ lane_name chamber.now) }
{
    let name = chamber.name.as_slice();
    put_between(out, b"<tr><th scope=\"row\"><b>", name, b"</b><small>")?;
    put_measures(out, chamber.length, chamber.width, b"</small></th>")
}

/// Appends what the picture of a chamber with so many lockages shows, and the grid.
#[tactic(auto, unfolding(crate::specs::Lanes::lane_title))]
fn put_lane_title(
    out: &mut Vec<u8>,
    clock: Clock,
    count: u64,
    chamber: &Chamber,
) -> Result<(), NoMemory>
    ensures { OnOk result (out.new.items ≡ out.old.items ++ lane_title clock count chamber.now) }
{
    put_between(
        out,
        b"<td class=\"ax\"><svg viewBox=\"0 0 812 44\" role=\"group\"><title>Chamber ",
        chamber.name.as_slice(),
        b": opens ",
    )?;
    put_time(out, clock, chamber.opens as u64)?;
    put_between(
        out,
        b", stands ",
        stand_word(chamber.stands),
        b" at first, ",
    )?;
    put_count(out, count, b"lockage")?;
    put_closed(out, clock, &chamber.closures)?;
    put_form(out, b"</title><use href=\"#G\"/>", &[])
}

/// The name of a ship.
fn name_of(instance: &Instance, ship: u8) -> &[u8]
    requires { ship < length instance.now.ships }
    ensures { result.now ≡ (ship_at instance.now ship).name }
{
    instance.ships.as_slice()[ship as usize].name.as_slice()
}

/// Appends the name of a ship after a comma.
#[tactic(auto, unfolding(crate::specs::Lanes::next_name))]
fn put_next_name(out: &mut Vec<u8>, instance: &Instance, ship: u8) -> Result<(), NoMemory>
    requires { ship < length instance.now.ships }
    ensures { OnOk result (out.new.items ≡ out.old.items ++ next_name instance.now ship) }
{
    put(out, b", ")?;
    put(out, name_of(instance, ship))
}

/// Appends the names of ships, each after a comma.
fn put_next_names(out: &mut Vec<u8>, instance: &Instance, ships: &[u8]) -> Result<(), NoMemory>
    requires { All (λ s. s < length instance.now.ships) ships.now }
    ensures { OnOk result (out.new.items ≡ out.old.items ++ flat_map (next_name instance.now) ships.now) }
{
    for &ship in ships {
        put_next_name(out, instance, ship)?;
    }
    Ok(())
}

/// Appends the names of ships.
fn put_names(out: &mut Vec<u8>, instance: &Instance, ships: &[u8]) -> Result<(), NoMemory>
    requires { All (λ s. s < length instance.now.ships) ships.now }
    ensures { OnOk result (out.new.items ≡ out.old.items ++ names instance.now ships.now) }
{
    match ships {
        [] => Ok(()),
        [first, rest @ ..] => {
            put(out, name_of(instance, *first))?;
            put_next_names(out, instance, rest)
        }
    }
}

/// The width of a box between two pixels, with a pixel free before and behind it.
pub(crate) fn box_width(from: u16, to: u16) -> u64
    ensures value { result ≡ box_width from to }
    ensures small { result ≤ 65536 }
{
    (to as u64).saturating_sub(from as u64 + 2).max(1)
}

/// Appends that a lockage has begun, where it has.
fn put_begun_word(out: &mut Vec<u8>, begun: bool) -> Result<(), NoMemory>
    ensures { OnOk result (out.new.items ≡ out.old.items ++ begun_word begun) }
{
    if begun { put(out, b", begun,") } else { Ok(()) }
}

/// Appends what a lockage is, which has begun or not.
#[tactic(auto, unfolding(crate::specs::Lanes::box_title))]
fn put_box_title(
    out: &mut Vec<u8>,
    instance: &Instance,
    clock: Clock,
    begun: bool,
    passage: &Passage,
) -> Result<(), NoMemory>
    requires { HasShips instance.now passage.now }
    ensures { OnOk result (out.new.items ≡ out.old.items ++ box_title instance.now clock begun passage.now) }
{
    let number = passage.number as u64;
    put_form(out, b"<a href=\"#l%\"><title>lockage % ", &[number, number])?;
    put(out, way_word(passage.way))?;
    put_begun_word(out, begun)?;
    put_span(out, clock, passage.start as u64, passage.end())?;
    put_form(out, b": ", &[])?;
    put_names(out, instance, passage.ships.as_slice())?;
    put_form(out, b"</title>", &[])
}

/// Appends the second outline in a lane of a lockage that has begun.
fn put_begun_frame(out: &mut Vec<u8>, begun: bool, x: u64, width: u64) -> Result<(), NoMemory>
    requires { x < 2 ^ 32 }
    ensures { OnOk result (out.new.items ≡ out.old.items ++ begun_frame begun x width) }
{
    if begun {
        put_frame(out, x, width, 10, 39)
    } else {
        Ok(())
    }
}

/// Appends the box of a lockage.
#[tactic(auto, unfolding(crate::specs::Lanes::lockage_box))]
fn put_box(
    out: &mut Vec<u8>,
    instance: &Instance,
    axis: &Axis,
    passage: &Passage,
) -> Result<(), NoMemory>
    requires { HasShips instance.now passage.now }
    ensures { OnOk result (out.new.items ≡ out.old.items ++ lockage_box instance.now axis.now passage.now) }
{
    let from = axis.x(passage.start as u64);
    let to = axis.x(passage.end());
    let width = box_width(from, to);
    let begun = axis.has_begun(passage.start);
    put_box_title(out, instance, axis.clock(), begun, passage)?;
    put_passage_box(out, passage.way, from as u64 + 1, width, 10, 39)?;
    put_begun_frame(out, begun, from as u64 + 1, width)?;
    put_form(out, b"</a>", &[])
}

/// Appends the boxes of lockages.
fn put_boxes(
    out: &mut Vec<u8>,
    instance: &Instance,
    axis: &Axis,
    line: &[Passage],
) -> Result<(), NoMemory>
    requires { All (HasShips instance.now) line.now }
    ensures { OnOk result (out.new.items ≡ out.old.items ++ flat_map (lockage_box instance.now axis.now) line.now) }
{
    for passage in line {
        put_box(out, instance, axis, passage)?;
    }
    Ok(())
}

/// Appends the picture of a chamber with these passages, up to the breaks.
#[tactic(auto, unfolding(crate::specs::Lanes::lane_ground))]
fn put_lane_ground(
    out: &mut Vec<u8>,
    axis: &Axis,
    chamber: &Chamber,
    line: &[Passage],
) -> Result<(), NoMemory>
    ensures { OnOk result (out.new.items ≡ out.old.items ++ lane_ground axis.now chamber.now line.now) }
{
    put_ground(out, axis, chamber.opens as u64)?;
    put_water(out, axis, chamber, line)?;
    put_closures(out, axis, &chamber.closures)?;
    put_opening(out, axis, chamber.opens as u64)
}

/// Appends the labels of a lane, and the count of lockages.
#[tactic(auto, unfolding(crate::specs::Lanes::lane_words))]
fn put_lane_words(
    out: &mut Vec<u8>,
    axis: &Axis,
    wide: bool,
    chamber: &Chamber,
    line: &[Passage],
) -> Result<(), NoMemory>
    ensures { OnOk result (out.new.items ≡ out.old.items ++ lane_words axis.now wide chamber.now line.now) }
{
    put_labels(out, axis, wide, 0, line)?;
    put_opens(out, axis, chamber.opens as u64)?;
    put_number_between(
        out,
        b"</svg></td><td class=\"r\">",
        line.len() as u64,
        b"</td></tr>\n",
    )
}

/// Appends the breaks of a lane, the line at the minute that it is, and what stands on them.
#[tactic(auto, unfolding(crate::specs::Lanes::lane_end))]
fn put_lane_end(
    out: &mut Vec<u8>,
    axis: &Axis,
    wide: bool,
    chamber: &Chamber,
    line: &[Passage],
) -> Result<(), NoMemory>
    ensures { OnOk result (out.new.items ≡ out.old.items ++ lane_end axis.now wide chamber.now line.now) }
{
    put_form(out, b"<use href=\"#T\"/>", &[])?;
    put_present_line(out, axis, 44)?;
    put_lane_words(out, axis, wide, chamber, line)
}

/// Appends the lane of a chamber with these passages.
#[tactic(auto, unfolding(crate::specs::Lanes::lane))]
fn put_lane(
    out: &mut Vec<u8>,
    instance: &Instance,
    axis: &Axis,
    wide: bool,
    chamber: &Chamber,
    line: &[Passage],
) -> Result<(), NoMemory>
    requires { All (HasShips instance.now) line.now }
    ensures { OnOk result (out.new.items ≡ out.old.items ++ lane instance.now axis.now wide chamber.now line.now) }
{
    put_lane_name(out, chamber)?;
    put_lane_title(out, axis.clock(), line.len() as u64, chamber)?;
    put_lane_ground(out, axis, chamber, line)?;
    put_boxes(out, instance, axis, line)?;
    put_lane_end(out, axis, wide, chamber, line)
}

/// Appends the lane of the chamber with a number.
fn put_lane_at(
    alloc: Global,
    out: &mut Vec<u8>,
    instance: &Instance,
    axis: &Axis,
    passages: &[Passage],
    number: u8,
) -> Result<(), NoMemory>
    requires within { number < length instance.now.chambers }
    requires known { All (HasShips instance.now) passages.now }
    ensures { OnOk result (out.new.items ≡ out.old.items ++ lane_at instance.now axis.now passages.now number) }
{
    let wide = are_wide(axis, passages);
    let chamber = &instance.chambers.as_slice()[number as usize];
    let line = line_of(alloc, number, passages)?;
    put_lane(out, instance, axis, wide, chamber, line.as_slice())
}

/// Appends the lanes.
#[tactic(auto, unfolding(crate::specs::Lanes::lanes), using(plan_print::proofs::TextLemmas::flat_map_range_more))]
fn put_lanes(
    alloc: Global,
    out: &mut Vec<u8>,
    instance: &Instance,
    axis: &Axis,
    passages: &[Passage],
) -> Result<(), NoMemory>
    requires { All (HasShips instance.now) passages.now }
    ensures { OnOk result (out.new.items ≡ out.old.items ++ lanes instance.now axis.now passages.now) }
{
    let count = instance.chambers.as_slice().len() as u8;
    for number in 0..count {
        put_lane_at(alloc, out, instance, axis, passages, number)?;
    }
    Ok(())
}

/// Appends the table of the chambers, with these passages in them. What the passages name is in the
/// instance. The only refusal is want of memory.
#[tactic(auto, unfolding(crate::specs::Lanes::chambers_table))]
pub(crate) fn put_chambers(
    alloc: Global,
    out: &mut Vec<u8>,
    instance: &Instance,
    axis: &Axis,
    passages: &[Passage],
) -> Result<(), NoMemory>
    requires { All (HasShips instance.now) passages.now }
    ensures { OnOk result (out.new.items ≡ out.old.items ++ chambers_table instance.now axis.now passages.now) }
{
    put_plural_between(
        out,
        b"<table class=\"t\" aria-label=\"chambers by time\">\n<thead><tr><th scope=\"col\">chamber",
        instance.chambers.as_slice().len() as u64,
        b"</th><td class=\"ax\">",
    )?;
    put_axis(out, axis)?;
    put_form(
        out,
        b"</td><th scope=\"col\" class=\"r\">lockages</th></tr></thead>\n<tbody class=\"c\">\n",
        &[],
    )?;
    put_lanes(alloc, out, instance, axis, passages)?;
    put_form(out, b"</tbody>\n</table>\n", &[])
}
