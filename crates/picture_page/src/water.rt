//! The water between the lockages of a lane.
ghost use Rattle.std.specs.Prelude.{◌≡◌, ◌<◌, ◌++◌, OnOk};
ghost use Rattle.std.specs.List.{flat_map};
ghost use Rattle.lock_rules.specs.Lawful.{stand_before};
ghost use Rattle.picture_page.specs.Ground.{water_at, slope, wave, open_water, water};

use crate::axis::Axis;
use crate::form::put_form;
use crate::ground::put_turns;
use crate::passage::Passage;
use chamber_times::stand_after;
use lock_model::{Chamber, Stand, Way};
use no_memory::NoMemory;

/// How high the water of a side is drawn.
fn water_at(stand: Stand) -> u64
    ensures { result ≡ water_at stand }
{
    match stand {
        Stand::Low => 39,
        Stand::High => 10,
    }
}

/// The side where a lockage of this way begins.
fn stand_before(way: Way) -> Stand
    ensures { result ≡ stand_before way }
{
    match way {
        Way::Up => Stand::Low,
        Way::Down => Stand::High,
    }
}

/// Appends the water line up to an empty turn and through it, where there is one before a lockage of
/// this way.
#[tactic(auto, unfolding(crate::specs::Ground::slope))]
fn put_slope(
    out: &mut Vec<u8>,
    axis: &Axis,
    long: u32,
    way: Way,
    turn: Option<u32>,
) -> Result<(), NoMemory>
    ensures { OnOk result (out.new.items ≡ out.old.items ++ slope axis.now long way turn) }
{
    match turn {
        None => Ok(()),
        Some(minute) => put_form(
            out,
            b"H%L% %",
            &[
                axis.x(minute as u64) as u64,
                axis.x(minute as u64 + long as u64) as u64,
                water_at(stand_before(way)),
            ],
        ),
    }
}

/// Appends the water line up to a lockage, and where it goes on after it.
#[tactic(auto, unfolding(crate::specs::Ground::wave))]
fn put_wave(out: &mut Vec<u8>, axis: &Axis, long: u32, passage: &Passage) -> Result<(), NoMemory>
    ensures { OnOk result (out.new.items ≡ out.old.items ++ wave axis.now long passage.now) }
{
    put_slope(out, axis, long, passage.way, passage.turn)?;
    put_form(
        out,
        b"H%M% %",
        &[
            axis.x(passage.start as u64) as u64,
            axis.x(passage.end()) as u64,
            water_at(stand_after(passage.way)),
        ],
    )
}

/// Appends the water line along the passages of a chamber.
fn put_waves(out: &mut Vec<u8>, axis: &Axis, long: u32, line: &[Passage]) -> Result<(), NoMemory>
    ensures { OnOk result (out.new.items ≡ out.old.items ++ flat_map (wave axis.now long) line.now) }
{
    for passage in line {
        put_wave(out, axis, long, passage)?;
    }
    Ok(())
}

/// Appends the empty turns of a chamber with these passages, and its water line.
#[tactic(auto, unfolding(crate::specs::Ground::open_water))]
fn put_open_water(
    out: &mut Vec<u8>,
    axis: &Axis,
    chamber: &Chamber,
    line: &[Passage],
) -> Result<(), NoMemory>
    ensures { OnOk result (out.new.items ≡ out.old.items ++ open_water axis.now chamber.now line.now) }
{
    put_turns(out, axis, chamber.turn, line)?;
    put_form(
        out,
        b"<path class=\"l\" d=\"M% %",
        &[
            axis.x(chamber.opens as u64) as u64,
            water_at(chamber.stands),
        ],
    )?;
    put_waves(out, axis, chamber.turn, line)?;
    put_form(out, b"H%\"/>", &[axis.x(axis.last()) as u64])
}

/// Appends the empty turns and the water line of a chamber that opens before the axis ends.
pub(crate) fn put_water(
    out: &mut Vec<u8>,
    axis: &Axis,
    chamber: &Chamber,
    line: &[Passage],
) -> Result<(), NoMemory>
    ensures { OnOk result (out.new.items ≡ out.old.items ++ water axis.now chamber.now line.now) }
{
    if axis.last() < chamber.opens as u64 {
        return Ok(());
    }
    put_open_water(out, axis, chamber, line)
}
