//! The shapes that the rows share: arrows, grids, breaks and the axis.
ghost use Rattle.std.specs.Prelude.{◌≡◌, ◌≤◌, ◌++◌, OnOk};
ghost use Rattle.std.specs.List.{flat_map};
ghost use Rattle.picture_page.specs.Shared.{axis_shape, shared};
ghost use Rattle.picture_page.specs.Shared.{grid_line, grid, grids, break_shape, break_at, row_breaks, torn, tick_label, tick_text};

use crate::axis::Axis;
use crate::form::put_form;
use crate::present::put_present_flag;
use crate::ticks::Tick;
use crate::times::{Clock, put_time};
use no_memory::NoMemory;
use plain_text::put;

/// The arrows up and down, the mark of cargo and the hatching.
const SIGNS: &[u8] = b"\
<svg width=\"0\" height=\"0\" style=\"position:absolute\" aria-hidden=\"true\"><defs>\n\
<path id=\"u\" d=\"M4 0L9 5H6V11H3V5H0Z\"/><path id=\"d\" d=\"M4 11L9 6H6V0H3V6H0Z\"/>\n\
<path id=\"k\" class=\"kd\" d=\"M7 0L14 7L7 14L0 7Z\"/>\n\
<pattern id=\"z\" width=\"6\" height=\"6\" patternUnits=\"userSpaceOnUse\" patternTransform=\"rotate(45)\"><path d=\"M0 0H6V6H0Z\" fill=\"#fff\"/><path d=\"M1 0V6\" stroke=\"#5b6a77\" stroke-width=\"2\"/></pattern>\n\
";

/// Appends the grid line of a tick in a row so high.
#[tactic(auto, unfolding(crate::specs::Shared::grid_line))]
fn put_grid_line(out: &mut Vec<u8>, height: u64, tick: &Tick) -> Result<(), NoMemory>
    ensures { OnOk result (out.new.items ≡ out.old.items ++ grid_line height tick.now) }
{
    put_form(out, b"<path d=\"M% 0V%\"/>", &[tick.x as u64, height])
}

/// Appends the grid lines of a row so high.
fn put_grid_lines(out: &mut Vec<u8>, height: u64, ticks: &[Tick]) -> Result<(), NoMemory>
    ensures { OnOk result (out.new.items ≡ out.old.items ++ flat_map (grid_line height) ticks.now) }
{
    for tick in ticks {
        put_grid_line(out, height, tick)?;
    }
    Ok(())
}

/// Appends a grid of rows so high, which begins with a text.
fn put_grid(out: &mut Vec<u8>, head: &[u8], height: u64, ticks: &[Tick]) -> Result<(), NoMemory>
    ensures { OnOk result (out.new.items ≡ out.old.items ++ grid head.now height ticks.now) }
{
    put_form(out, head, &[])?;
    put_grid_lines(out, height, ticks)?;
    put_form(out, b"</g>\n", &[])
}

/// Appends the grids of the rows.
#[tactic(auto, unfolding(crate::specs::Shared::grids))]
fn put_grids(out: &mut Vec<u8>, ticks: &[Tick]) -> Result<(), NoMemory>
    ensures { OnOk result (out.new.items ≡ out.old.items ++ grids ticks.now) }
{
    put_grid(out, b"<g id=\"g\" class=\"g\">", 16, ticks)?;
    put_grid(out, b"<g id=\"G\" class=\"g\">", 44, ticks)
}

/// Appends a break between two heights.
#[tactic(auto, unfolding(crate::specs::Shared::break_shape))]
fn put_break_shape(
    out: &mut Vec<u8>,
    middle: u64,
    half: u64,
    top: u64,
    bottom: u64,
) -> Result<(), NoMemory>
    requires middle_small { middle ≤ 200000 }
    requires half_small { half ≤ 5 }
    ensures { OnOk result (out.new.items ≡ out.old.items ++ break_shape middle half top bottom) }
{
    let high_left = (middle + 2).saturating_sub(half);
    let high_right = middle + half + 2;
    let low_left = middle.saturating_sub(half + 2);
    let low_right = (middle + half).saturating_sub(2);
    let numbers = [
        high_left, top, high_right, low_right, bottom, low_left, high_left, top, low_left, bottom,
        high_right, top, low_right, bottom,
    ];
    put_form(
        out,
        b"<path class=\"tb\" d=\"M% %H%L% %H%Z\"/><path class=\"tl\" d=\"M% %L% %M% %L% %\"/>",
        &numbers,
    )
}

/// Appends the break that begins at a pixel, between two heights.
fn put_break_at(
    out: &mut Vec<u8>,
    axis: &Axis,
    top: u64,
    bottom: u64,
    at: u16,
) -> Result<(), NoMemory>
    ensures { OnOk result (out.new.items ≡ out.old.items ++ break_at axis.now top bottom at) }
{
    put_break_shape(
        out,
        at as u64 + axis.half_gap(),
        axis.half_torn(),
        top,
        bottom,
    )
}

/// Appends the breaks of a row between two heights.
fn put_break_shapes(out: &mut Vec<u8>, axis: &Axis, top: u64, bottom: u64) -> Result<(), NoMemory>
    ensures { OnOk result (out.new.items ≡ out.old.items ++ flat_map (break_at axis.now top bottom) axis.now.breaks) }
{
    for &at in axis.breaks() {
        put_break_at(out, axis, top, bottom, at)?;
    }
    Ok(())
}

/// Appends the breaks of rows, which begin with a text.
fn put_row_breaks(
    out: &mut Vec<u8>,
    axis: &Axis,
    head: &[u8],
    top: u64,
    bottom: u64,
) -> Result<(), NoMemory>
    ensures { OnOk result (out.new.items ≡ out.old.items ++ row_breaks axis.now head.now top bottom) }
{
    put_form(out, head, &[])?;
    put_break_shapes(out, axis, top, bottom)?;
    put_form(out, b"</g>\n", &[])
}

/// Appends the breaks of the rows.
#[tactic(auto, unfolding(crate::specs::Shared::torn))]
fn put_torn(out: &mut Vec<u8>, axis: &Axis) -> Result<(), NoMemory>
    ensures { OnOk result (out.new.items ≡ out.old.items ++ torn axis.now) }
{
    put_row_breaks(out, axis, b"<g id=\"t\">", 0, 16)?;
    put_row_breaks(out, axis, b"<g id=\"T\">", 0, 44)?;
    put_row_breaks(out, axis, b"<g id=\"A\">", 15, 22)
}

/// Appends the label of a minute, where it has one.
fn put_tick_label(
    out: &mut Vec<u8>,
    clock: Clock,
    minute: u64,
    label: Option<u16>,
) -> Result<(), NoMemory>
    ensures { OnOk result (out.new.items ≡ out.old.items ++ tick_label clock minute label) }
{
    match label {
        None => Ok(()),
        Some(middle) => {
            put_form(out, b"<text x=\"%\" y=\"14\">", &[middle as u64])?;
            put_time(out, clock, minute)?;
            put(out, b"</text>")
        }
    }
}

/// Appends a tick of the axis.
#[tactic(auto, unfolding(crate::specs::Shared::tick_text))]
fn put_tick_text(out: &mut Vec<u8>, clock: Clock, tick: &Tick) -> Result<(), NoMemory>
    ensures { OnOk result (out.new.items ≡ out.old.items ++ tick_text clock tick.now) }
{
    put_form(
        out,
        b"<path class=\"tl\" d=\"M% 17V22\"/>",
        &[tick.x as u64],
    )?;
    put_tick_label(out, clock, tick.minute, tick.label)
}

/// Appends the ticks of the axis.
fn put_tick_texts(out: &mut Vec<u8>, clock: Clock, ticks: &[Tick]) -> Result<(), NoMemory>
    ensures { OnOk result (out.new.items ≡ out.old.items ++ flat_map (tick_text clock) ticks.now) }
{
    for tick in ticks {
        put_tick_text(out, clock, tick)?;
    }
    Ok(())
}

/// Appends the axis with these ticks, and the end of the shapes.
fn put_axis_shape(out: &mut Vec<u8>, clock: Clock, ticks: &[Tick]) -> Result<(), NoMemory>
    ensures { OnOk result (out.new.items ≡ out.old.items ++ axis_shape clock ticks.now) }
{
    put_form(out, b"<g id=\"x\" class=\"x\">", &[])?;
    put_tick_texts(out, clock, ticks)?;
    put_form(out, b"</g>\n</defs></svg>\n", &[])
}

/// Appends the shapes that the rows share, for an axis with these ticks.
#[tactic(auto, unfolding(crate::specs::Shared::shared))]
pub(crate) fn put_shared(out: &mut Vec<u8>, axis: &Axis, ticks: &[Tick]) -> Result<(), NoMemory>
    ensures { OnOk result (out.new.items ≡ out.old.items ++ shared axis.now ticks.now) }
{
    put_form(out, SIGNS, &[])?;
    put_grids(out, ticks)?;
    put_torn(out, axis)?;
    put_present_flag(out, axis)?;
    put_axis_shape(out, axis.clock(), ticks)
}
