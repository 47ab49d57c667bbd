//! The chamber of a card: water, quays, gates, end clearances, and the words below.
ghost use Rattle.std.specs.Prelude.{◌≡◌, ◌≤◌, ◌<◌, ◌++◌, OnOk};
ghost use Rattle.picture_page.specs.Waters.{drawn, gate, basin, ends, waters, chamber_size, size_below, feet};

use crate::form::put_form;
use crate::scales::{DeckScale, units_of};
use crate::words::put_measures;
use lock_model::Chamber;
use no_memory::NoMemory;

/// A length or a width of a chamber as it is drawn.
pub(crate) fn drawn(scale: &DeckScale, decimetres: u32) -> u32
    ensures value { result ≡ drawn scale.now decimetres }
    ensures small { result ≤ 100000 }
{
    units_of(scale, decimetres as u64).max(8)
}

/// Appends a gate.
#[tactic(auto, unfolding(crate::specs::Waters::gate))]
fn put_gate(out: &mut Vec<u8>, x: u32, leaf: u32, width: u32) -> Result<(), NoMemory>
    ensures { OnOk result (out.new.items ≡ out.old.items ++ gate x leaf width) }
{
    let (x, leaf, width) = (x as u64, leaf as u64, width as u64);
    put_form(
        out,
        b"<path class=\"gt\" d=\"M% 32L% %L% %\"/>",
        &[x, x + leaf, 32 + width / 2, x, 32 + width],
    )
}

/// Appends water so long and so wide, with its quays and gates.
#[tactic(auto, unfolding(crate::specs::Waters::basin))]
fn put_basin(out: &mut Vec<u8>, length: u32, width: u32) -> Result<(), NoMemory>
    requires { length ≤ 100000 }
    ensures { OnOk result (out.new.items ≡ out.old.items ++ basin length width) }
{
    let whole = length as u64 + 192;
    put_form(
        out,
        b"<rect class=\"wt\" x=\"96\" y=\"32\" width=\"%\" height=\"%\"/><rect class=\"qy\" x=\"0\" y=\"0\" width=\"%\" height=\"32\"/><rect class=\"qy\" x=\"0\" y=\"%\" width=\"%\" height=\"32\"/>",
        &[length as u64, width as u64, whole, 32 + width as u64, whole],
    )?;
    let leaf = (width / 4).min(56);
    put_gate(out, 88 - leaf, leaf, width)?;
    put_gate(out, length + 104, leaf, width)
}

/// Appends the lines that ships keep clear of in a chamber drawn so wide, where it asks it.
#[tactic(auto, unfolding(crate::specs::Waters::ends))]
fn put_ends(
    out: &mut Vec<u8>,
    scale: &DeckScale,
    chamber: &Chamber,
    width: u32,
) -> Result<(), NoMemory>
    ensures { OnOk result (out.new.items ≡ out.old.items ++ ends scale.now chamber.now width) }
{
    if chamber.end == 0 {
        return Ok(());
    }
    let near = units_of(scale, chamber.end as u64) as u64;
    let far = units_of(scale, chamber.length.saturating_sub(chamber.end) as u64) as u64;
    let bottom = 32 + width as u64;
    put_form(
        out,
        b"<path class=\"ed\" d=\"M% 32V%M% 32V%\"/>",
        &[96 + near, bottom, 96 + far, bottom],
    )
}

/// Appends the water, the quays, the gates and the end clearances.
#[tactic(auto, unfolding(crate::specs::Waters::waters))]
pub(crate) fn put_waters(
    out: &mut Vec<u8>,
    scale: &DeckScale,
    chamber: &Chamber,
) -> Result<(), NoMemory>
    ensures { OnOk result (out.new.items ≡ out.old.items ++ waters scale.now chamber.now) }
{
    let width = drawn(scale, chamber.width);
    put_basin(out, drawn(scale, chamber.length), width)?;
    put_ends(out, scale, chamber, width)
}

/// Appends the chamber's size.
#[tactic(auto, unfolding(crate::specs::Waters::chamber_size))]
fn put_chamber_size(
    out: &mut Vec<u8>,
    chamber: &Chamber,
    middle: u64,
    base: u64,
) -> Result<(), NoMemory>
    ensures { OnOk result (out.new.items ≡ out.old.items ++ chamber_size chamber.now middle base) }
{
    put_form(
        out,
        b"<text class=\"ft gy mi\" x=\"%\" y=\"%\">",
        &[middle, base],
    )?;
    put_measures(out, chamber.length, chamber.width, b"</text>")
}

/// Appends the chamber's size in the middle, where it is drawn long enough.
fn put_size_below(
    out: &mut Vec<u8>,
    chamber: &Chamber,
    length: u32,
    base: u64,
) -> Result<(), NoMemory>
    ensures { OnOk result (out.new.items ≡ out.old.items ++ size_below chamber.now length base) }
{
    if length < 700 {
        return Ok(());
    }
    put_chamber_size(out, chamber, 96 + length as u64 / 2, base)
}

/// Appends the quays' names and the words below a deck so long, at a height.
#[tactic(auto, unfolding(crate::specs::Waters::feet))]
pub(crate) fn put_feet(
    out: &mut Vec<u8>,
    chamber: &Chamber,
    length: u32,
    base: u64,
) -> Result<(), NoMemory>
    ensures { OnOk result (out.new.items ≡ out.old.items ++ feet chamber.now length base) }
{
    put_form(
        out,
        b"<text class=\"ft gy qn\" x=\"96\" y=\"-14\">left quay</text><text class=\"ft gy qn\" x=\"132\" y=\"%\">right quay</text>",
        &[base],
    )?;
    put_form(
        out,
        b"<text class=\"ft gy\" x=\"0\" y=\"%\">low</text><text class=\"ft gy en\" x=\"%\" y=\"%\">high</text>",
        &[base, length as u64 + 192, base],
    )?;
    put_size_below(out, chamber, length, base)
}
