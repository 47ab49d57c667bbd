//! When something happens.
ghost use Rattle.std.specs.Prelude.{◌≡◌, ◌<◌, [], ◌∷◌, ◌++◌, length, All, OnOk, IfOk};
ghost use Rattle.std.specs.List.{flat_map};
ghost use Rattle.picture_page.specs.Passages.{turn_events, passage_events, present_events, events_of};
ghost use Rattle.picture_page.specs.KnownPassages.{HasChamber};

use crate::passage::Passage;
use lock_model::{Instance, Ship};
use std::alloc::{AllocError, Global};

/// Appends the arrivals of ships.
fn put_arrivals(events: &mut Vec<u64>, ships: &[Ship]) -> Result<(), AllocError>
    ensures { OnOk result (events.new.items ≡ events.old.items ++ flat_map (λ s. s.arrival ∷ []) ships.now) }
{
    for ship in ships {
        events.push(ship.arrival as u64)?;
    }
    Ok(())
}

/// Appends the beginning and the end of an empty turn, where there is one.
fn put_turn_events(events: &mut Vec<u64>, long: u32, turn: Option<u32>) -> Result<(), AllocError>
    ensures { OnOk result (events.new.items ≡ events.old.items ++ turn_events long turn) }
{
    match turn {
        None => Ok(()),
        Some(minute) => { events.extend_from_slice(&[minute as u64, minute as u64 + long as u64]) }
    }
}

/// Appends the events of a passage.
fn put_passage_events(
    events: &mut Vec<u64>,
    instance: &Instance,
    passage: &Passage,
) -> Result<(), AllocError>
    requires { passage.now.chamber < length instance.now.chambers }
    ensures { OnOk result (events.new.items ≡ events.old.items ++ passage_events instance.now passage.now) }
{
    events.extend_from_slice(&[passage.start as u64, passage.end()])?;
    let chamber = &instance.chambers.as_slice()[passage.chamber as usize];
    put_turn_events(events, chamber.turn, passage.turn)
}

/// Appends the events of passages.
fn put_all_events(
    events: &mut Vec<u64>,
    instance: &Instance,
    passages: &[Passage],
) -> Result<(), AllocError>
    requires { All (HasChamber instance.now) passages.now }
    ensures { OnOk result (events.new.items ≡ events.old.items ++ flat_map (passage_events instance.now) passages.now) }
{
    for passage in passages {
        put_passage_events(events, instance, passage)?;
    }
    Ok(())
}

/// Appends the minute that it is, where the page shows it.
fn put_present(events: &mut Vec<u64>, present: Option<u32>) -> Result<(), AllocError>
    ensures { OnOk result (events.new.items ≡ events.old.items ++ present_events present) }
{
    match present {
        None => Ok(()),
        Some(minute) => events.extend_from_slice(&[minute as u64]),
    }
}

/// All minutes that aren't left out: arrivals of ships, beginnings and ends of lockages and of empty
/// turns, and the minute that it is. The only refusal is want of memory.
#[tactic(auto, unfolding(crate::specs::Passages::events_of))]
pub(crate) fn events_of(
    alloc: Global,
    present: Option<u32>,
    instance: &Instance,
    passages: &[Passage],
) -> Result<Vec<u64>, AllocError>
    requires { All (HasChamber instance.now) passages.now }
    ensures { IfOk result (λ events. events.items ≡ events_of present instance.now passages.now) }
{
    let mut events = Vec::new(alloc);
    put_arrivals(&mut events, instance.ships.as_slice())?;
    put_all_events(&mut events, instance, passages)?;
    put_present(&mut events, present)?;
    Ok(events)
}
