//! The legend.
ghost use Rattle.std.specs.Prelude.{◌≡◌, ◌++◌, OnOk};
ghost use Rattle.picture_page.specs.Legend.{begun_entries, present_entries, shown_entry, has_closure, has_closures, opens_later, break_entry, has_cargo};
ghost use Rattle.picture_page.specs.Legend.{chamber_entries, ship_entries, legend};

use crate::axis::Axis;
use crate::form::put_form;
use crate::times::{Clock, put_time_after};
use lock_model::{Chamber, Closure, Instance, Ship};
use no_memory::NoMemory;

/// The beginning of the legend: lockages up and down, and empty turns.
const LEGEND: &[u8] = b"\
<ul class=\"legend\" aria-label=\"legend\">\n\
<li><svg width=\"34\" height=\"18\" aria-hidden=\"true\"><rect class=\"b0\" x=\"1\" y=\"2\" width=\"32\" height=\"14\"/><path class=\"w0\" d=\"M1 16H33L33 2Z\"/><rect class=\"e0\" x=\"1\" y=\"2\" width=\"32\" height=\"14\"/><use href=\"#u\" x=\"12\" y=\"3\"/></svg>lockage up (water rises)</li>\n\
<li><svg width=\"34\" height=\"18\" aria-hidden=\"true\"><rect class=\"b1\" x=\"1\" y=\"2\" width=\"32\" height=\"14\"/><path class=\"w1\" d=\"M1 16H33L1 2Z\"/><rect class=\"e1\" x=\"1\" y=\"2\" width=\"32\" height=\"14\"/><use href=\"#d\" x=\"12\" y=\"4\"/></svg>lockage down (water falls)</li>\n\
<li><svg width=\"34\" height=\"18\" aria-hidden=\"true\"><rect class=\"o\" x=\"6\" y=\"2\" width=\"22\" height=\"14\"/><path class=\"l\" d=\"M0 2H6L28 16H34\"/></svg>empty turn</li>\n\
";

/// The entry of lockages that have begun, up to the minute before which they have.
const BEGUN: &[u8] = b"\
<li><svg width=\"34\" height=\"18\" aria-hidden=\"true\"><rect class=\"b0\" x=\"1\" y=\"2\" width=\"32\" height=\"14\"/><path class=\"w0\" d=\"M1 16H33L33 2Z\"/><rect class=\"e0\" x=\"1\" y=\"2\" width=\"32\" height=\"14\"/><rect class=\"f0\" x=\"4\" y=\"5\" width=\"26\" height=\"8\"/></svg>begun before ";

/// What follows that minute: the end of its entry, and the entry of the minute that it is.
const PRESENT: &[u8] = b"\
</li>\n\
<li><svg width=\"16\" height=\"18\" aria-hidden=\"true\"><path class=\"y\" d=\"M8 0V18\"/></svg>now</li>\n\
";

/// The entry of closures.
const CLOSED: &[u8] = b"\
<li><svg width=\"30\" height=\"18\" aria-hidden=\"true\"><rect class=\"z\" x=\"1\" y=\"1\" width=\"28\" height=\"16\"/><rect class=\"zb\" x=\"1\" y=\"1\" width=\"28\" height=\"16\"/></svg>chamber closed</li>\n\
";

/// The entry of chambers that aren't open yet.
const UNOPENED: &[u8] = b"\
<li><svg width=\"30\" height=\"18\" aria-hidden=\"true\"><rect class=\"n\" x=\"0\" y=\"2\" width=\"26\" height=\"14\"/><path class=\"nb\" d=\"M27 0V18\"/></svg>not open yet</li>\n\
";

/// The entry of ships.
const SHIP: &[u8] = b"\
<li><svg width=\"46\" height=\"18\" aria-hidden=\"true\"><path class=\"p\" d=\"M6 9H26\"/><rect class=\"b0\" x=\"27\" y=\"3\" width=\"18\" height=\"12\"/><path class=\"w0\" d=\"M27 15H45L45 3Z\"/><rect class=\"e0\" x=\"27\" y=\"3\" width=\"18\" height=\"12\"/><circle class=\"m\" cx=\"6\" cy=\"9\" r=\"4\"/></svg>ship: arrival, waiting, passage</li>\n\
";

/// The entry of breaks.
const BREAK: &[u8] = b"\
<li><svg width=\"16\" height=\"18\" aria-hidden=\"true\"><path class=\"tl\" d=\"M5 0L1 18M14 0L10 18\"/></svg>time left out</li>\n\
";

/// The entry of ties.
const MOORED: &[u8] = b"\
<li><svg width=\"36\" height=\"18\" aria-hidden=\"true\"><rect class=\"qy\" x=\"0\" y=\"1\" width=\"22\" height=\"8\"/><path class=\"hu\" style=\"stroke-width:1\" d=\"M0 10H22V17H0Z\"/><rect class=\"bo\" x=\"7\" y=\"3\" width=\"8\" height=\"3\"/><path class=\"p\" d=\"M11 5V11\"/><path class=\"p\" d=\"M31 5V13\"/><circle class=\"bo\" cx=\"31\" cy=\"5\" r=\"2\"/><circle class=\"bo\" cx=\"31\" cy=\"13\" r=\"2\"/></svg>moored to the quay, to another ship</li>\n\
";

/// The entry of cargo.
const CARGO: &[u8] = b"\
<li><svg width=\"15\" height=\"18\" aria-hidden=\"true\"><use href=\"#k\" y=\"1\"/><text x=\"7\" y=\"12\" class=\"n3\">1</text></svg>cargo class</li>\n\
";

/// Appends the entries of lockages that have begun before a minute, and of that minute.
#[tactic(auto, unfolding(crate::specs::Legend::begun_entries))]
fn put_begun_entries(out: &mut Vec<u8>, clock: Clock, minute: u64) -> Result<(), NoMemory>
    ensures { OnOk result (out.new.items ≡ out.old.items ++ begun_entries clock minute) }
{
    put_time_after(out, BEGUN, clock, minute)?;
    put_form(out, PRESENT, &[])
}

/// Appends the entries of what has begun and of the minute that it is, where the page shows it.
fn put_present_entries(out: &mut Vec<u8>, axis: &Axis) -> Result<(), NoMemory>
    ensures { OnOk result (out.new.items ≡ out.old.items ++ present_entries axis.now.clock axis.now.present) }
{
    match axis.present() {
        None => Ok(()),
        Some(minute) => put_begun_entries(out, axis.clock(), minute as u64),
    }
}

/// Appends an entry, where the page shows what it explains.
fn put_shown_entry(out: &mut Vec<u8>, shown: bool, entry: &[u8]) -> Result<(), NoMemory>
    ensures { OnOk result (out.new.items ≡ out.old.items ++ shown_entry shown entry.now) }
{
    if shown {
        put_form(out, entry, &[])
    } else {
        Ok(())
    }
}

/// Whether one of these closures has a minute that isn't left out.
fn has_closure(axis: &Axis, closures: &[Closure]) -> bool
    ensures { result ≡ has_closure axis.now closures.now }
{
    match closures {
        [] => false,
        [closure, rest @ ..] => {
            axis.shows(closure.from as u64, closure.to as u64) || has_closure(axis, rest)
        }
    }
}

/// Whether a closure of one of these chambers has.
fn has_closures(axis: &Axis, chambers: &[Chamber]) -> bool
    ensures { result ≡ has_closures axis.now chambers.now }
{
    match chambers {
        [] => false,
        [chamber, rest @ ..] => {
            has_closure(axis, chamber.closures.as_slice()) || has_closures(axis, rest)
        }
    }
}

/// Whether a chamber opens after a minute.
fn opens_later(first: u64, chambers: &[Chamber]) -> bool
    ensures { result ≡ opens_later first chambers.now }
{
    match chambers {
        [] => false,
        [chamber, rest @ ..] => first < chamber.opens as u64 || opens_later(first, rest),
    }
}

/// Appends the entry of breaks, where there is one.
fn put_break_entry(out: &mut Vec<u8>, breaks: &[u16]) -> Result<(), NoMemory>
    ensures { OnOk result (out.new.items ≡ out.old.items ++ break_entry breaks.now) }
{
    match breaks {
        [] => Ok(()),
        [_, ..] => put_form(out, BREAK, &[]),
    }
}

/// Whether a ship has a cargo class.
fn has_cargo(ships: &[Ship]) -> bool
    ensures { result ≡ has_cargo ships.now }
{
    match ships {
        [] => false,
        [ship, rest @ ..] => 0 < ship.cargo || has_cargo(rest),
    }
}

/// Appends the entries of what lanes show.
#[tactic(auto, unfolding(crate::specs::Legend::chamber_entries))]
fn put_chamber_entries(out: &mut Vec<u8>, axis: &Axis, chambers: &[Chamber]) -> Result<(), NoMemory>
    ensures { OnOk result (out.new.items ≡ out.old.items ++ chamber_entries axis.now chambers.now) }
{
    put_form(out, LEGEND, &[])?;
    put_present_entries(out, axis)?;
    put_shown_entry(out, has_closures(axis, chambers), CLOSED)?;
    put_shown_entry(out, opens_later(axis.first(), chambers), UNOPENED)
}

/// Appends the entries of what ships' rows and decks show.
#[tactic(auto, unfolding(crate::specs::Legend::ship_entries))]
fn put_ship_entries(out: &mut Vec<u8>, axis: &Axis, ships: &[Ship]) -> Result<(), NoMemory>
    ensures { OnOk result (out.new.items ≡ out.old.items ++ ship_entries axis.now ships.now) }
{
    put_form(out, SHIP, &[])?;
    put_break_entry(out, axis.breaks())?;
    put_form(out, MOORED, &[])?;
    put_shown_entry(out, has_cargo(ships), CARGO)
}

/// Appends the legend, with entries for what the page shows. The only refusal is want of memory.
#[tactic(auto, unfolding(crate::specs::Legend::legend))]
pub(crate) fn put_legend(
    out: &mut Vec<u8>,
    instance: &Instance,
    axis: &Axis,
) -> Result<(), NoMemory>
    ensures { OnOk result (out.new.items ≡ out.old.items ++ legend instance.now axis.now) }
{
    put_chamber_entries(out, axis, instance.chambers.as_slice())?;
    put_ship_entries(out, axis, instance.ships.as_slice())?;
    put_form(out, b"</ul>\n", &[])
}
