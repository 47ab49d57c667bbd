//! What is kept of loose lines.
ghost use Rattle.std.specs.Prelude.{◌≡◌, ◌<◌, length, IfOk};
ghost use Rattle.near_plan.specs.Rows.{IsDraft};

use crate::draft::Draft;
use crate::fitting::{Fitting, fits};
use crate::sets::without;
use lock_model::{Group, Instance, MOST, SHIPS, Ships};
use no_memory::NoMemory;
use price_terms::LooseLines;

// The ships of a group that the draft lacks.
fn lacking(instance: &Instance, draft: &Draft, ships: &Ships) -> Ships {
    let mut kept = ships.copy();
    for &ship in ships.as_slice() {
        if draft.find(instance, ship).is_some() {
            kept = without(&kept, ship);
        }
    }
    kept
}

// The last of these ships that fit a chamber together, as many as can be.
fn fitting_ships<F: Fitting>(
    instance: &Instance,
    chamber: u8,
    ships: Ships,
    fitting: &mut F,
) -> Result<Ships, NoMemory>
    requires same { F.instance fitting.old ≡ instance.now }
    ensures same { F.instance fitting.new ≡ instance.now }
{
    let mut kept = ships;
    for _ in 0..MOST {
        if fits(instance, chamber, &kept, fitting)?.is_some() {
            return Ok(kept);
        }
        kept = match kept.as_slice() {
            [first, ..] => without(&kept, *first),
            [] => return Ok(kept),
        };
    }
    Ok(kept)
}

// Puts what is kept of a group behind the groups of its chamber.
fn keep_group<F: Fitting>(
    instance: &Instance,
    draft: &mut Draft,
    chamber: u8,
    group: &Group,
    fitting: &mut F,
) -> Result<(), NoMemory>
    requires chamber { chamber < length instance.now.chambers }
    requires draft { IsDraft instance.now draft.old }
    requires same { F.instance fitting.old ≡ instance.now }
    ensures draft { IsDraft instance.now draft.new }
    ensures same { F.instance fitting.new ≡ instance.now }
{
    let kept = lacking(instance, draft, &group.ships);
    let ships = fitting_ships(instance, chamber, kept, fitting)?;
    let mut line = draft.row(chamber).line().copy();
    if ships.len() > 0 && line.as_slice().len() < SHIPS {
        line.push(Group {
            way: group.way,
            ships,
        });
        draft.set_line(instance, chamber, line);
    }
    Ok(())
}

// Puts what is kept of a line into the draft.
fn keep_line<F: Fitting>(
    instance: &Instance,
    draft: &mut Draft,
    chamber: u8,
    groups: &[Group],
    fitting: &mut F,
) -> Result<(), NoMemory>
    requires chamber { chamber < length instance.now.chambers }
    requires draft { IsDraft instance.now draft.old }
    requires same { F.instance fitting.old ≡ instance.now }
    ensures draft { IsDraft instance.now draft.new }
    ensures same { F.instance fitting.new ≡ instance.now }
{
    for group in groups {
        keep_group(instance, draft, chamber, group, fitting)?;
    }
    Ok(())
}

/// Puts the groups of loose lines into the draft, each ship in the first of its groups, and without those
/// that don't fit together.
#[inline(never)]
pub(crate) fn keep_lines<F: Fitting>(
    instance: &Instance,
    draft: &mut Draft,
    lines: &LooseLines,
    fitting: &mut F,
) -> Result<(), NoMemory>
    requires draft { IsDraft instance.now draft.old }
    requires same { F.instance fitting.old ≡ instance.now }
    ensures draft { IsDraft instance.now draft.new }
    ensures same { F.instance fitting.new ≡ instance.now }
{
    for (chamber, line) in lines.lines.as_slice().iter().enumerate() {
        if chamber < instance.chambers.as_slice().len() {
            let groups = line.groups.as_slice();
            keep_line(instance, draft, chamber as u8, groups, fitting)?;
        }
    }
    Ok(())
}
