//! The lines that lead to a label.

use lock_model::{Group, Instance, MOST, SHIPS, Ships, Way};
use price_terms::{PriceError, append};
use std::alloc::Global;
use sweep_labels::{KeptLabel, ShipSet};

/// For each chamber its groups in the order of service, and the flow time of all in minutes.
#[derive(Drop)]
pub struct UncutPlan {
    pub lines: Vec<Vec<Group>>,
    pub cost: u64,
}

// The label of a number.
fn kept_at(labels: &[KeptLabel], number: usize) -> Result<KeptLabel, PriceError> {
    if number < labels.len() {
        Ok(labels[number])
    } else {
        Err(PriceError::TooMany)
    }
}

// The ships that one set has and another lacks.
fn ships_of(instance: &Instance, now: &ShipSet, before: &ShipSet) -> Ships {
    let mut ships = Ships::new();
    for ship in 0..instance.ships.as_slice().len() as u8 {
        if now.has(ship) && !before.has(ship) && ships.len() < MOST {
            ships.push(ship);
        }
    }
    ships
}

// The way of ships.
fn way_of(instance: &Instance, ships: &Ships) -> Way {
    match ships.as_slice().first() {
        Some(first) => match instance.ships.as_slice().get(*first as usize) {
            Some(ship) => ship.way,
            None => Way::Up,
        },
        None => Way::Up,
    }
}

// So many lines without groups.
fn empty_lines(alloc: Global, count: usize) -> Result<Vec<Vec<Group>>, PriceError> {
    let mut lines = Vec::new(alloc);
    for _ in 0..count {
        append(&mut lines, Vec::new(alloc))?;
    }
    Ok(lines)
}

// Puts a group before those of its chamber.
fn put_first(lines: &mut Vec<Vec<Group>>, chamber: usize, group: Group) -> Result<(), PriceError> {
    if chamber >= lines.len() {
        return Err(PriceError::TooMany);
    }
    let line = &mut lines[chamber];
    match line.insert(0, group) {
        Ok(()) => Ok(()),
        Err(_) => Err(PriceError::NoMemory),
    }
}

/// The ships that a label serves and the one before it doesn't, and their way: the group by which it went on.
pub fn group_of(instance: &Instance, kept: &KeptLabel, before: &KeptLabel) -> Group {
    let ships = ships_of(instance, &kept.label.served, &before.label.served);
    let way = way_of(instance, &ships);
    Group { way, ships }
}

// Puts the group by which a label went on; the number of the label before it.
fn put_step(
    instance: &Instance,
    labels: &[KeptLabel],
    lines: &mut Vec<Vec<Group>>,
    number: usize,
) -> Result<usize, PriceError> {
    let kept = kept_at(labels, number)?;
    let Some(parent) = kept.parent else {
        return Ok(number);
    };
    let before = kept_at(labels, parent as usize)?;
    put_first(
        lines,
        kept.chamber as usize,
        group_of(instance, &kept, &before),
    )?;
    Ok(parent as usize)
}

/// The lines that lead to the label of a number. Nothing is claimed of them: they are judged.
pub(crate) fn lines_to(
    alloc: Global,
    instance: &Instance,
    labels: &[KeptLabel],
    number: u32,
) -> Result<Vec<Vec<Group>>, PriceError> {
    let mut lines = empty_lines(alloc, instance.chambers.as_slice().len())?;
    let mut at = number as usize;
    for _ in 0..SHIPS {
        at = put_step(instance, labels, &mut lines, at)?;
    }
    Ok(lines)
}
