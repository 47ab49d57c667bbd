//! The lockages of a day.
ghost use Rattle.std.specs.Prelude.{◌≡◌, ◌+◌, ◌<◌, ◌≤◌, ◌++◌, length, All, OnOk, IfOk};
ghost use Rattle.lock_rules.specs.Lines.{lockage_at};
ghost use Rattle.lock_rules.specs.Plan.{IsLegal, IsLegalLockage};
ghost use Rattle.picture_page.specs.Passages.{is_turn, is_go, turn_before, passage_in, passages_from, passages_of, line_of, IsKnownGo};
ghost use Rattle.picture_page.specs.KnownPassages.{AreKnown};

use crate::passage::Passage;
use chamber_times::duration;
use day_play::{Act, BEATS, Beat};
use lock_model::{Instance, Lockage, Plan};
use std::alloc::{AllocError, Global};

/// Whether an empty turn begins.
fn is_turn(act: Act) -> bool
    ensures { result ≡ is_turn act }
{
    match act {
        Act::Turn => true,
        Act::Moor(_) | Act::Go | Act::Done => false,
    }
}

/// Whether a lockage begins.
fn is_go(act: Act) -> bool
    ensures { result ≡ is_go act }
{
    match act {
        Act::Go => true,
        Act::Turn | Act::Moor(_) | Act::Done => false,
    }
}

/// The minute of the first empty turn for the lockage at a place of the plan that begins no later
/// than a minute.
fn turn_before(place: u8, start: u32, beats: &[Beat]) -> Option<u32>
    ensures { result ≡ turn_before place start beats.now }
{
    match beats {
        [] => None,
        [beat, rest @ ..] => {
            if is_turn(beat.act) && beat.lockage == place && beat.minute <= start as u64 {
                Some(beat.minute as u32)
            } else {
                turn_before(place, start, rest)
            }
        }
    }
}

/// The lockage at a place of the plan with its number, and what the day says of it.
fn passage_in(
    instance: &Instance,
    day: &[Beat],
    number: u16,
    place: u8,
    lockage: &Lockage,
) -> Passage
    requires { IsLegalLockage instance.now lockage.now }
    ensures { result ≡ passage_in instance.now day.now number place lockage.now }
{
    Passage {
        number,
        place,
        chamber: lockage.chamber,
        way: lockage.way,
        ships: lockage.ships.copy(),
        turn: turn_before(place, lockage.start, day),
        start: lockage.start,
        long: duration(instance, lockage.chamber, &lockage.ships) as u32,
    }
}

/// The lockage at a place of a legal plan with its number, and what the day says of it.
fn passage_at(instance: &Instance, plan: &Plan, day: &[Beat], number: u16, place: u8) -> Passage
    requires legal { IsLegal instance.now plan.now }
    requires within { place < length plan.now.lockages }
    ensures { result ≡ passage_in instance.now day.now number place (lockage_at plan.now place) }
{
    let lockage = &plan.lockages.as_slice()[place as usize];
    passage_in(instance, day, number, place, lockage)
}

/// Appends the lockages that begin in these beats, numbered from a number on.
fn put_passages(
    passages: &mut Vec<Passage>,
    instance: &Instance,
    plan: &Plan,
    day: &[Beat],
    number: u16,
    beats: &[Beat],
) -> Result<(), AllocError>
    requires legal { IsLegal instance.now plan.now }
    requires known { All (IsKnownGo plan.now) beats.now }
    requires few { number + length beats.now ≤ BEATS + 1 }
    ensures { OnOk result (passages.new.items ≡ passages.old.items ++ passages_from instance.now plan.now day.now number beats.now) }
{
    match beats {
        [] => Ok(()),
        [beat, rest @ ..] => {
            if is_go(beat.act) {
                passages.push(passage_at(instance, plan, day, number, beat.lockage))?;
                put_passages(passages, instance, plan, day, number + 1, rest)
            } else {
                put_passages(passages, instance, plan, day, number, rest)
            }
        }
    }
}

/// The lockages of the day of a legal plan in the order of their beginning, numbered from 1 on. What
/// they name is in the instance and in the plan. The only refusal is want of memory.
#[tactic(auto, unfolding(crate::specs::Passages::passages_of))]
pub(crate) fn passages_of(
    alloc: Global,
    instance: &Instance,
    plan: &Plan,
    day: &[Beat],
) -> Result<Vec<Passage>, AllocError>
    requires legal { IsLegal instance.now plan.now }
    requires known { All (IsKnownGo plan.now) day.now }
    requires few { length day.now ≤ BEATS }
    ensures value { IfOk result (λ passages. passages.items ≡ passages_of instance.now plan.now day.now) }
    ensures known { IfOk result (λ passages. AreKnown instance.now plan.now passages.items) }
{
    let mut passages = Vec::new(alloc);
    put_passages(&mut passages, instance, plan, day, 1, day)?;
    Ok(passages)
}

/// Appends the passages of a chamber.
fn put_chamber_line(
    line: &mut Vec<Passage>,
    chamber: u8,
    passages: &[Passage],
) -> Result<(), AllocError>
    ensures { OnOk result (line.new.items ≡ line.old.items ++ line_of chamber passages.now) }
{
    match passages {
        [] => Ok(()),
        [passage, rest @ ..] => {
            if passage.chamber == chamber {
                line.push(passage.copy())?;
                put_chamber_line(line, chamber, rest)
            } else {
                put_chamber_line(line, chamber, rest)
            }
        }
    }
}

/// The passages of a chamber. The only refusal is want of memory.
pub(crate) fn line_of(
    alloc: Global,
    chamber: u8,
    passages: &[Passage],
) -> Result<Vec<Passage>, AllocError>
    ensures { IfOk result (λ line. line.items ≡ line_of chamber passages.now) }
{
    let mut line = Vec::new(alloc);
    put_chamber_line(&mut line, chamber, passages)?;
    Ok(line)
}
