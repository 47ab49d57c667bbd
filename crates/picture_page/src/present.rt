//! The line at the minute that it is, and its flag above the axis.
ghost use Rattle.std.specs.Prelude.{◌≡◌, ◌≤◌, ◌++◌, OnOk};
ghost use Rattle.picture_page.specs.Present.{present_x, present_line, half_flag, flag_middle, flag, present_flag};

use crate::axis::Axis;
use crate::form::put_form;
use crate::ticks::PLOT;
use crate::times::{Clock, put_time, time_width};
use no_memory::NoMemory;
use plain_text::put;

/// Appends the line at the minute that it is in a row so high, where the page shows it.
pub(crate) fn put_present_line(out: &mut Vec<u8>, axis: &Axis, height: u64) -> Result<(), NoMemory>
    ensures { OnOk result (out.new.items ≡ out.old.items ++ present_line (present_x axis.now) height) }
{
    match axis.present_x() {
        None => Ok(()),
        Some(x) => put_form(
            out,
            b"<path class=\"y\" d=\"M% 0V%\"/>",
            &[x as u64, height],
        ),
    }
}

/// Half the width of the words of a flag.
fn half_flag(clock: Clock, minute: u64) -> u64
    ensures { result ≡ half_flag clock minute }
{
    3 * (4 + time_width(clock, minute))
}

/// The middle of such words at a pixel: they stand within the picture.
fn flag_middle(half: u64, x: u16) -> u64
    ensures { result ≡ flag_middle half x }
{
    (x as u64).min((PLOT as u64).saturating_sub(half)).max(half)
}

/// Appends a flag above the axis, with its line above and below the labels there.
#[tactic(auto, unfolding(crate::specs::Present::flag))]
fn put_flag(out: &mut Vec<u8>, clock: Clock, minute: u64, x: u16) -> Result<(), NoMemory>
    ensures { OnOk result (out.new.items ≡ out.old.items ++ flag clock minute x) }
{
    put_form(
        out,
        b"<g id=\"N\"><path class=\"y\" d=\"M% 11V16M% 29V34\"/><text class=\"n3\" x=\"%\" y=\"9\">now ",
        &[x as u64, x as u64, flag_middle(half_flag(clock, minute), x)],
    )?;
    put_time(out, clock, minute)?;
    put(out, b"</text></g>\n")
}

/// Appends the flag at the minute that it is, where the page shows it.
pub(crate) fn put_present_flag(out: &mut Vec<u8>, axis: &Axis) -> Result<(), NoMemory>
    ensures { OnOk result (out.new.items ≡ out.old.items ++ present_flag axis.now axis.now.present) }
{
    match axis.present() {
        None => Ok(()),
        Some(minute) => put_flag(out, axis.clock(), minute as u64, axis.x(minute as u64)),
    }
}
