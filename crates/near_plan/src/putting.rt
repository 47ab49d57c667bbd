//! Where a ship costs least.
ghost use Rattle.std.specs.Prelude.{◌≡◌, ◌<◌, length};
ghost use Rattle.near_plan.specs.Rows.{IsDraft};

use crate::draft::Draft;
use crate::entering::{flow_with, is_too_late};
use crate::fitting::{Fitting, fits};
use crate::lines::{Place, group_with, line_with};
use lock_model::Instance;
use no_memory::NoMemory;

/// A chamber and a place in its line for a ship, and the flow times of the draft with it, in minutes.
#[derive(Clone, Copy)]
pub(crate) struct Trial {
    chamber: u8,
    place: Place,
    flow: u64,
}

// Appends a trial of a place, where the ship can be put there and its row stays below so many minutes.
fn try_place(
    instance: &Instance,
    draft: &Draft,
    ship: u8,
    mut trial: Trial,
    below: u64,
    trials: &mut Vec<Trial>,
) -> Result<(), NoMemory>
    requires draft { IsDraft instance.now draft.now }
    requires chamber_in { trial.chamber < length instance.now.chambers }
    requires ship_in { ship < length instance.now.ships }
{
    let Trial {
        chamber,
        place,
        flow: others,
    } = trial;
    let row = draft.row(chamber);
    if let Some(flow) = flow_with(instance, chamber, row, ship, place, below) {
        trial.flow = others.saturating_add(flow);
        if trials.push(trial).is_err() {
            return Err(NoMemory);
        }
    }
    Ok(())
}

// Tries all places of a chamber's line, but those behind one where the ship comes too late.
#[inline(never)]
fn try_line(
    instance: &Instance,
    draft: &Draft,
    ship: u8,
    chamber: u8,
    below: u64,
    trials: &mut Vec<Trial>,
) -> Result<(), NoMemory>
    requires draft { IsDraft instance.now draft.now }
    requires chamber_in { chamber < length instance.now.chambers }
    requires ship_in { ship < length instance.now.ships }
{
    let row = draft.row(chamber);
    let others = draft.flow().saturating_sub(row.flow());
    let below = below.saturating_sub(others);
    for i in 0..row.line().as_slice().len() + 1 {
        if is_too_late(instance, chamber, row, ship, i, below) {
            break;
        }
        for place in [Place::Into(i), Place::Before(i)] {
            let trial = Trial {
                chamber,
                place,
                flow: others,
            };
            try_place(instance, draft, ship, trial, below, trials)?;
        }
    }
    Ok(())
}

// Puts the ship as a trial has it, where it fits; whether that is so.
fn put_so<F: Fitting>(
    instance: &Instance,
    draft: &mut Draft,
    ship: u8,
    trial: &Trial,
    fitting: &mut F,
) -> Result<bool, NoMemory>
    requires ship_in { ship < length instance.now.ships }
    requires draft { IsDraft instance.now draft.old }
    requires same { F.instance fitting.old ≡ instance.now }
    ensures draft { IsDraft instance.now draft.new }
    ensures same { F.instance fitting.new ≡ instance.now }
{
    if trial.chamber as usize >= instance.chambers.as_slice().len() {
        return Ok(false);
    }
    let line = draft.row(trial.chamber).line();
    let Some(group) = group_with(instance, line, ship, trial.place) else {
        return Ok(false);
    };
    if fits(instance, trial.chamber, &group.ships, fitting)?.is_none() {
        return Ok(false);
    }
    let Some(longer) = line_with(line, trial.place, group) else {
        return Ok(false);
    };
    Ok(draft.set_line(instance, trial.chamber, longer).is_some())
}

/// Puts a ship where it costs least and fits, if the flow times of the draft stay below so many
/// minutes; whether it was put.
pub(crate) fn put<F: Fitting>(
    instance: &Instance,
    draft: &mut Draft,
    ship: u8,
    below: u64,
    trials: &mut Vec<Trial>,
    fitting: &mut F,
) -> Result<bool, NoMemory>
    requires ship_in { ship < length instance.now.ships }
    requires draft { IsDraft instance.now draft.old }
    requires same { F.instance fitting.old ≡ instance.now }
    ensures draft { IsDraft instance.now draft.new }
    ensures same { F.instance fitting.new ≡ instance.now }
{
    trials.clear();
    for chamber in 0..instance.chambers.as_slice().len() as u8 {
        try_line(instance, draft, ship, chamber, below, trials)?;
    }
    if trials.sort_by_key(|trial| trial.flow).is_err() {
        return Err(NoMemory);
    }
    for trial in trials.as_slice() {
        if put_so(instance, draft, ship, trial, fitting)? {
            return Ok(true);
        }
    }
    Ok(false)
}
