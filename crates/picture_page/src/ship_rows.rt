//! The rows of the ships.
ghost use Rattle.std.specs.Prelude.{◌≡◌, ◌<◌, ◌++◌, length, All, OnOk};
ghost use Rattle.picture_page.specs.KnownPassages.{HasChamber};
ghost use Rattle.picture_page.specs.ShipRows.{row_name, row_wait, row_span, row_passage, wait_line, row_number, row_marks, row_picture, row};
ghost use Rattle.picture_page.specs.ShipRows.{row_among, rows, ships_table};

use crate::axis::Axis;
use crate::form::{put_form, put_number_between};
use crate::lanes::{box_width, put_axis};
use crate::passage::Passage;
use crate::present::put_present_line;
use crate::shapes::{put_arrow, put_cargo, put_passage_box};
use crate::stretch::{Stretch, stretch_of};
use crate::times::{Clock, put_time_after};
use crate::words::put_plural_between;
use lock_model::{Instance, Ship};
use master_branch::arrival_order;
use no_memory::NoMemory;
use plain_text::put;

/// Appends a ship's way, name and cargo.
#[tactic(auto, unfolding(crate::specs::ShipRows::row_name))]
fn put_row_name(out: &mut Vec<u8>, ship: &Ship) -> Result<(), NoMemory>
    ensures { OnOk result (out.new.items ≡ out.old.items ++ row_name ship.now) }
{
    put_form(out, b"<tr><th scope=\"row\">", &[])?;
    put_arrow(out, ship.way)?;
    put(out, ship.name.as_slice())?;
    put_cargo(out, ship.cargo)
}

/// Appends when a ship arrives, and how long it waits up to a minute.
#[tactic(auto, unfolding(crate::specs::ShipRows::row_wait))]
fn put_row_wait(out: &mut Vec<u8>, clock: Clock, ship: &Ship, start: u32) -> Result<(), NoMemory>
    ensures { OnOk result (out.new.items ≡ out.old.items ++ row_wait clock ship.now start) }
{
    put_time_after(out, b"</th><td class=\"v\">", clock, ship.arrival as u64)?;
    let wait = start.saturating_sub(ship.arrival);
    put_form(out, b"</td><td class=\"v\">%", &[wait as u64])
}

/// Appends from when to when a passage is.
#[tactic(auto, unfolding(crate::specs::ShipRows::row_span))]
fn put_row_span(out: &mut Vec<u8>, clock: Clock, passage: &Passage) -> Result<(), NoMemory>
    ensures { OnOk result (out.new.items ≡ out.old.items ++ row_span clock passage.now) }
{
    let between = b"</td><td class=\"v\">";
    put_time_after(out, between, clock, passage.start as u64)?;
    put_time_after(out, between, clock, passage.end())
}

/// Appends which passage a ship takes, in a chamber of this name, with a link to its deck, and the grid.
#[tactic(auto, unfolding(crate::specs::ShipRows::row_passage))]
fn put_row_passage(
    out: &mut Vec<u8>,
    clock: Clock,
    name: &[u8],
    passage: &Passage,
) -> Result<(), NoMemory>
    ensures { OnOk result (out.new.items ≡ out.old.items ++ row_passage clock name.now passage.now) }
{
    let number = passage.number as u64;
    put_row_span(out, clock, passage)?;
    put_form(out, b"</td><td><a href=\"#l%\">% ", &[number, number])?;
    put(out, name)?;
    put_form(
        out,
        b"</a></td><td class=\"ax\"><svg viewBox=\"0 0 812 16\" aria-hidden=\"true\"><use href=\"#g\"/>",
        &[],
    )
}

/// Appends the line of a wait between two pixels, where it has some.
#[tactic(auto, unfolding(crate::specs::ShipRows::wait_line))]
fn put_wait_line(out: &mut Vec<u8>, from: u16, to: u16) -> Result<(), NoMemory>
    ensures { OnOk result (out.new.items ≡ out.old.items ++ wait_line from to) }
{
    if to <= from {
        return Ok(());
    }
    put_form(
        out,
        b"<path class=\"p\" d=\"M% 8H%\"/>",
        &[from as u64, to as u64],
    )
}

/// Appends the number of a passage in its box where that has room, else behind it.
#[tactic(auto, unfolding(crate::specs::ShipRows::row_number))]
fn put_row_number(
    out: &mut Vec<u8>,
    passage: &Passage,
    stretch: &Stretch,
    end: u16,
) -> Result<(), NoMemory>
    ensures { OnOk result (out.new.items ≡ out.old.items ++ row_number passage.now.number stretch.now end) }
{
    if stretch.from as u64 + 7 * passage.digits() + 14 <= stretch.to as u64 {
        put_form(
            out,
            b"<text class=\"n3\" x=\"%\" y=\"12\">%</text>",
            &[stretch.middle(), passage.number as u64],
        )
    } else {
        put_form(
            out,
            b"<text class=\"n4\" x=\"%\" y=\"12\">%</text>",
            &[end as u64 + 4, passage.number as u64],
        )
    }
}

/// Appends the breaks of a row, the line at the minute that it is, and an arrival at a pixel.
fn put_row_marks(out: &mut Vec<u8>, axis: &Axis, here: u16) -> Result<(), NoMemory>
    ensures { OnOk result (out.new.items ≡ out.old.items ++ row_marks axis.now here) }
{
    put_form(out, b"<use href=\"#t\"/>", &[])?;
    put_present_line(out, axis, 16)?;
    put_form(
        out,
        b"<circle class=\"m\" cx=\"%\" cy=\"8\" r=\"4\"/>",
        &[here as u64],
    )
}

/// Appends the picture of an arrival, the wait after it, and a passage.
#[tactic(auto, unfolding(crate::specs::ShipRows::row_picture))]
fn put_row_picture(
    out: &mut Vec<u8>,
    axis: &Axis,
    arrival: u32,
    passage: &Passage,
) -> Result<(), NoMemory>
    ensures { OnOk result (out.new.items ≡ out.old.items ++ row_picture axis.now arrival passage.now) }
{
    let here = axis.x(arrival as u64);
    let from = axis.x(passage.start as u64);
    let to = axis.x(passage.end());
    put_wait_line(out, here, from)?;
    put_passage_box(
        out,
        passage.way,
        from as u64 + 1,
        box_width(from, to),
        2,
        14,
    )?;
    put_row_marks(out, axis, here)?;
    put_row_number(out, passage, &stretch_of(axis, passage), to)
}

/// Appends the row of a ship with its passage.
#[tactic(auto, unfolding(crate::specs::ShipRows::row))]
fn put_row(
    out: &mut Vec<u8>,
    instance: &Instance,
    axis: &Axis,
    ship: &Ship,
    passage: &Passage,
) -> Result<(), NoMemory>
    requires { passage.now.chamber < length instance.now.chambers }
    ensures { OnOk result (out.new.items ≡ out.old.items ++ row instance.now axis.now ship.now passage.now) }
{
    let chamber = &instance.chambers.as_slice()[passage.chamber as usize];
    put_row_name(out, ship)?;
    put_row_wait(out, axis.clock(), ship, passage.start)?;
    put_row_passage(out, axis.clock(), chamber.name.as_slice(), passage)?;
    put_row_picture(out, axis, ship.arrival, passage)?;
    let flow = passage.end().saturating_sub(ship.arrival as u64);
    put_number_between(out, b"</svg></td><td class=\"r\">", flow, b"</td></tr>\n")
}

/// Appends the row of a ship with the first of these passages that serves it.
fn put_row_among(
    out: &mut Vec<u8>,
    instance: &Instance,
    axis: &Axis,
    ship: u8,
    passages: &[Passage],
) -> Result<(), NoMemory>
    requires ship_in { ship < length instance.now.ships }
    requires chambers_in { All (HasChamber instance.now) passages.now }
    ensures { OnOk result (out.new.items ≡ out.old.items ++ row_among instance.now axis.now ship passages.now) }
{
    match passages {
        [] => Ok(()),
        [passage, rest @ ..] => {
            if passage.serves(ship) {
                let ship = &instance.ships.as_slice()[ship as usize];
                put_row(out, instance, axis, ship, passage)
            } else {
                put_row_among(out, instance, axis, ship, rest)
            }
        }
    }
}

/// Appends the rows of all ships in arrival order.
#[tactic(auto, unfolding(crate::specs::ShipRows::rows))]
fn put_rows(
    out: &mut Vec<u8>,
    instance: &Instance,
    axis: &Axis,
    passages: &[Passage],
) -> Result<(), NoMemory>
    requires { All (HasChamber instance.now) passages.now }
    ensures { OnOk result (out.new.items ≡ out.old.items ++ rows instance.now axis.now passages.now) }
{
    let order = arrival_order(instance);
    for &ship in order.as_slice() {
        put_row_among(out, instance, axis, ship, passages)?;
    }
    Ok(())
}

/// Appends the table of the ships, with these passages and this cost. What the passages name is in
/// the instance. The only refusal is want of memory.
#[tactic(auto, unfolding(crate::specs::ShipRows::ships_table))]
pub(crate) fn put_ships(
    out: &mut Vec<u8>,
    instance: &Instance,
    axis: &Axis,
    passages: &[Passage],
    cost: u64,
) -> Result<(), NoMemory>
    requires { All (HasChamber instance.now) passages.now }
    ensures { OnOk result (out.new.items ≡ out.old.items ++ ships_table instance.now axis.now passages.now cost) }
{
    put_plural_between(
        out,
        b"<table class=\"t\" aria-label=\"ships by time\">\n<thead><tr><th scope=\"col\">ship",
        instance.ships.as_slice().len() as u64,
        b"</th><th scope=\"col\" class=\"v\">arrives</th><th scope=\"col\" class=\"v\">waits</th><th scope=\"col\" class=\"v\">starts</th><th scope=\"col\" class=\"v\">ends</th><th scope=\"col\">lockage</th><td class=\"ax\">",
    )?;
    put_axis(out, axis)?;
    put_form(
        out,
        b"</td><th scope=\"col\" class=\"r\">flow time</th></tr></thead>\n<tbody class=\"s\">\n",
        &[],
    )?;
    put_rows(out, instance, axis, passages)?;
    put_number_between(
        out,
        b"<tr class=\"f\"><th scope=\"row\">total</th><td colspan=\"6\"></td><td class=\"r\">",
        cost,
        b"</td></tr>\n</tbody>\n</table>\n",
    )
}
