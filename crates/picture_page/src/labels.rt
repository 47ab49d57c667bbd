//! The labels of a lane: the numbers and the arrows of its lockages, and when it opens.
ghost use Rattle.std.specs.Prelude.{◌≡◌, ◌≤◌, ◌<◌, ◌^◌, ◌++◌, OnOk};
ghost use Rattle.picture_page.specs.Labels.{is_wide, are_wide, stance_of, side_by_side, stacked, narrow_arrow, fits_above, number_above};
ghost use Rattle.picture_page.specs.Labels.{label_text, last_after, labels, has_opens, opens_text, opens_label};

use crate::axis::Axis;
use crate::form::put_form;
use crate::passage::Passage;
use crate::shapes::put_arrow_at;
use crate::stretch::{Stretch, stretch_of};
use crate::times::{put_time, time_width};
use lock_model::Way;
use no_memory::NoMemory;
use plain_text::put;

/// How the label of a passage stands.
#[derive(Clone, Copy)]
pub(crate) enum Stance {
    /// Its number and its arrow side by side.
    Beside,
    /// Its number above its arrow.
    Stacked,
    /// In a narrow box.
    Narrow,
}

/// Whether the number and the arrow of a passage have room side by side.
fn is_wide(axis: &Axis, passage: &Passage) -> bool
    ensures { result ≡ is_wide axis.now passage.now }
{
    9 * passage.digits() + 20 <= stretch_of(axis, passage).width()
}

/// Whether those of all passages have.
pub(crate) fn are_wide(axis: &Axis, passages: &[Passage]) -> bool
    ensures { result ≡ are_wide axis.now passages.now }
{
    match passages {
        [] => true,
        [passage, rest @ ..] => is_wide(axis, passage) && are_wide(axis, rest),
    }
}

/// How a label stands in its stretch.
fn stance_of(wide: bool, stretch: &Stretch) -> Stance
    ensures { result ≡ stance_of wide stretch.now }
{
    if wide {
        Stance::Beside
    } else if 18 <= stretch.width() {
        Stance::Stacked
    } else {
        Stance::Narrow
    }
}

/// Appends a number and its arrow side by side, from a pixel on.
#[tactic(auto, unfolding(crate::specs::Labels::side_by_side))]
fn put_beside(out: &mut Vec<u8>, x: u64, digits: u64, way: Way, number: u16) -> Result<(), NoMemory>
    requires x_small { x < 2 ^ 40 }
    requires few { digits ≤ 2 }
    ensures { OnOk result (out.new.items ≡ out.old.items ++ side_by_side x digits way number) }
{
    put_form(
        out,
        b"<text class=\"n1\" x=\"%\" y=\"29\">%</text>",
        &[x, number as u64],
    )?;
    put_arrow_at(out, way, x + 9 * digits + 4, 19)
}

/// Appends a number above its arrow.
#[tactic(auto, unfolding(crate::specs::Labels::stacked))]
fn put_stacked(out: &mut Vec<u8>, middle: u64, way: Way, number: u16) -> Result<(), NoMemory>
    ensures { OnOk result (out.new.items ≡ out.old.items ++ stacked middle way number) }
{
    put_form(
        out,
        b"<text class=\"n2\" x=\"%\" y=\"23\">%</text>",
        &[middle, number as u64],
    )?;
    put_arrow_at(out, way, middle.saturating_sub(4), 26)
}

/// Appends the arrow in a narrow box, where it has room.
fn put_narrow_arrow(out: &mut Vec<u8>, way: Way, stretch: &Stretch) -> Result<(), NoMemory>
    ensures { OnOk result (out.new.items ≡ out.old.items ++ narrow_arrow way stretch.now) }
{
    if 13 <= stretch.width() {
        put_arrow_at(out, way, stretch.middle().saturating_sub(4), 19)
    } else {
        Ok(())
    }
}

/// Whether a number fits above its box, where another one ends there at pixel `last`.
fn fits_above(last: u64, digits: u64, middle: u64) -> bool
    requires last_small { last < 2 ^ 40 }
    requires few { digits ≤ 2 }
    ensures { result ≡ fits_above last digits middle }
{
    last + 2 + 3 * digits <= middle
}

/// Appends a number above its box, where it has room.
#[tactic(auto, unfolding(crate::specs::Labels::number_above))]
fn put_number_above(
    out: &mut Vec<u8>,
    last: u64,
    middle: u64,
    passage: &Passage,
) -> Result<(), NoMemory>
    requires { last < 2 ^ 40 }
    ensures { OnOk result (out.new.items ≡ out.old.items ++ number_above last middle passage.now.number) }
{
    if fits_above(last, passage.digits(), middle) {
        put_form(
            out,
            b"<text class=\"n3\" x=\"%\" y=\"8\">%</text>",
            &[middle, passage.number as u64],
        )
    } else {
        Ok(())
    }
}

/// Appends the label of a passage.
fn put_label(
    out: &mut Vec<u8>,
    stance: Stance,
    last: u64,
    passage: &Passage,
    stretch: &Stretch,
) -> Result<(), NoMemory>
    requires { last < 2 ^ 40 }
    ensures { OnOk result (out.new.items ≡ out.old.items ++ label_text stance last passage.now stretch.now) }
{
    match stance {
        Stance::Beside => {
            let digits = passage.digits();
            let x = stretch.from as u64 + stretch.width().saturating_sub(9 * digits + 13) / 2;
            put_beside(out, x, digits, passage.way, passage.number)
        }
        Stance::Stacked => put_stacked(out, stretch.middle(), passage.way, passage.number),
        Stance::Narrow => {
            put_narrow_arrow(out, passage.way, stretch)?;
            put_number_above(out, last, stretch.middle(), passage)
        }
    }
}

/// Where the last number above a box ends after it.
fn last_after(stance: Stance, last: u64, digits: u64, middle: u64) -> u64
    requires last_small { last < 2 ^ 40 }
    requires few { digits ≤ 2 }
    requires middle_small { middle < 2 ^ 32 }
    ensures value { result ≡ last_after stance last digits middle }
    ensures small { result < 2 ^ 40 }
{
    match stance {
        Stance::Beside | Stance::Stacked => last,
        Stance::Narrow => {
            if fits_above(last, digits, middle) {
                middle + 3 * digits
            } else {
                last
            }
        }
    }
}

/// Appends the labels of the passages of a lane.
pub(crate) fn put_labels(
    out: &mut Vec<u8>,
    axis: &Axis,
    wide: bool,
    last: u64,
    line: &[Passage],
) -> Result<(), NoMemory>
    requires { last < 2 ^ 40 }
    ensures { OnOk result (out.new.items ≡ out.old.items ++ labels axis.now wide last line.now) }
{
    match line {
        [] => Ok(()),
        [passage, rest @ ..] => {
            let stretch = stretch_of(axis, passage);
            let stance = stance_of(wide, &stretch);
            put_label(out, stance, last, passage, &stretch)?;
            let last = last_after(stance, last, passage.digits(), stretch.middle());
            put_labels(out, axis, wide, last, rest)
        }
    }
}

/// Whether the grey ground has room for when the chamber opens.
fn has_opens(axis: &Axis, opens: u64) -> bool
    ensures { result ≡ has_opens axis.now opens }
{
    axis.first() < opens
        && 6 * time_width(axis.clock(), opens) + 64 <= axis.clear_end(20, axis.x(opens))
}

/// Appends when a chamber opens.
#[tactic(auto, unfolding(crate::specs::Labels::opens_text))]
fn put_opens_text(out: &mut Vec<u8>, axis: &Axis, opens: u64) -> Result<(), NoMemory>
    ensures { OnOk result (out.new.items ≡ out.old.items ++ opens_text axis.now opens) }
{
    put(out, b"<text class=\"q\" x=\"25\" y=\"28\">opens ")?;
    put_time(out, axis.clock(), opens)?;
    put(out, b"</text>")
}

/// Appends when a chamber opens, where the grey ground has room for it.
pub(crate) fn put_opens(out: &mut Vec<u8>, axis: &Axis, opens: u64) -> Result<(), NoMemory>
    ensures { OnOk result (out.new.items ≡ out.old.items ++ opens_label axis.now opens) }
{
    if has_opens(axis, opens) {
        put_opens_text(out, axis, opens)
    } else {
        Ok(())
    }
}
