//! The lines of a day.
ghost use Rattle.std.specs.Prelude.{◌≡◌, ◌++◌, All, IfOk, OnOk};
ghost use Rattle.std.specs.List.{flat_map};
ghost use Rattle.plan_commands.specs.Playing.{IsKnownAct, IsKnownBeat, act_words, beat_line, day_lines};

use day_play::{Act, Beat, Day};
use instance_text::way_word;
use lock_model::{Instance, Plan};
use no_memory::NoMemory;
use plain_text::{put, put_number};
use std::alloc::Global;

// Appends an act.
fn put_act(
    out: &mut Vec<u8>,
    instance: &Instance,
    plan: &Plan,
    place: u8,
    act: Act,
) -> Result<(), NoMemory>
    requires { IsKnownAct instance.now plan.now place act }
    ensures { OnOk result (out.new.items ≡ out.old.items ++ act_words instance.now plan.now place act) }
{
    match act {
        Act::Turn => put(out, b"turn"),
        Act::Moor(ship) => {
            put(out, b"moor ")?;
            let ship = &instance.ships.as_slice()[ship as usize];
            put(out, ship.name.as_slice())
        }
        Act::Go => {
            put(out, b"go ")?;
            let lockage = &plan.lockages.as_slice()[place as usize];
            put(out, way_word(lockage.way))
        }
        Act::Done => put(out, b"done"),
    }
}

// Appends the line of a beat.
#[tactic(auto, unfolding(crate::specs::Playing::beat_line))]
fn put_beat(
    out: &mut Vec<u8>,
    instance: &Instance,
    plan: &Plan,
    beat: &Beat,
) -> Result<(), NoMemory>
    requires { IsKnownBeat instance.now plan.now beat.now }
    ensures { OnOk result (out.new.items ≡ out.old.items ++ beat_line instance.now plan.now beat.now) }
{
    let chamber = &instance.chambers.as_slice()[beat.chamber as usize];
    put_number(out, beat.minute)?;
    put(out, b" ")?;
    put(out, chamber.name.as_slice())?;
    put(out, b" ")?;
    put_act(out, instance, plan, beat.lockage, beat.act)?;
    put(out, b"\n")
}

// Appends the lines of some beats.
fn put_beats(
    out: &mut Vec<u8>,
    instance: &Instance,
    plan: &Plan,
    beats: &[Beat],
) -> Result<(), NoMemory>
    requires { All (IsKnownBeat instance.now plan.now) beats.now }
    ensures { OnOk result (out.new.items ≡ out.old.items ++ flat_map (beat_line instance.now plan.now) beats.now) }
{
    for beat in beats {
        put_beat(out, instance, plan, beat)?;
    }
    Ok(())
}

/// A line for each beat of a day, by minute, chamber and order in the chamber, and the line `end`.
#[tactic(auto, unfolding(crate::specs::Playing::day_lines))]
pub(crate) fn day_text(
    alloc: Global,
    instance: &Instance,
    plan: &Plan,
    day: &Day,
) -> Result<Vec<u8>, NoMemory>
    requires { All (IsKnownBeat instance.now plan.now) day.now }
    ensures { IfOk result (λ text. text.items ≡ day_lines instance.now plan.now day.now) }
{
    let mut text = Vec::new(alloc);
    put_beats(&mut text, instance, plan, day.as_slice())?;
    put(&mut text, b"end\n")?;
    Ok(text)
}
