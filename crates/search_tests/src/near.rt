//! Plans near made-up lines.
use crate::worked::two_ships;
use lock_model::{Group, Instance, Ships, Spot, Spots, Way};
use near_plan::{Fitting, Moves, near_plan};
use no_memory::NoMemory;
use price_terms::{LooseLine, LooseLines};
use std::alloc::Global;
use std::test::Fail;

// Says that one ship fits alone, at the left quay, and no two together.
#[derive(Drop)]
struct OneByOne<'a> {
    instance: &'a Instance,
}

impl Fitting for OneByOne<'_> {
    ghost instance = { λ fitting. fitting.instance.now };

    fn spots(&mut self, chamber: u8, ships: &Ships) -> Result<Option<Spots>, NoMemory> {
        if ships.len() > 1 {
            return Ok(None);
        }
        let end = self.instance.chambers.as_slice()[chamber as usize].end;
        let mut spots = Spots::new();
        spots.push(Spot {
            x: end,
            ..Spot::default()
        });
        Ok(Some(spots))
    }
}

// The group of one ship, 0 or 1, or of both, 2.
fn group(which: u8) -> Group {
    let mut ships = Ships::single(which % 2);
    if which == 2 {
        ships.push(1);
    }
    Group {
        way: Way::Up,
        ships,
    }
}

// Loose lines of one chamber with these groups.
fn lines_of(alloc: Global, groups: &[u8]) -> Result<LooseLines, Fail> {
    let mut line = Vec::new(alloc);
    for &which in groups {
        line.push(group(which))?;
    }
    let mut lines = Vec::new(alloc);
    lines.push(LooseLine {
        groups: line,
        worth: 0,
    })?;
    Ok(LooseLines { lines, sum: 0 })
}

// How many lockages the plan near such lines has that costs less than this, if there is one. In a chamber for
// one of them the two ships end at 35 and at 85, 120 together.
fn lockages(alloc: Global, groups: &[u8], below: u64, moves: Moves) -> Result<Option<usize>, Fail> {
    let instance = two_ships(232).ok_or("no instance")?;
    let lines = lines_of(alloc, groups)?;
    let mut fitting = OneByOne {
        instance: &instance,
    };
    match near_plan(alloc, &instance, &lines, below, moves, &mut fitting)? {
        Some(plan) => Ok(Some(plan.lockages.as_slice().len())),
        None => Ok(None),
    }
}

const NEAR: &[(&'static [u8], u64, Option<usize>)] = &[
    (&[], 121, Some(2)),
    (&[0, 1], 121, Some(2)),
    (&[0, 0, 0], 121, Some(2)),
    (&[2], 121, Some(2)),
    (&[1, 2, 0], 121, Some(2)),
    (&[0, 1], 120, None),
];

#[test]
fn each_ship_is_kept_once_or_put_in(rt: HostRuntime) -> Result<(), Fail> {
    for &(groups, below, count) in NEAR {
        for moves in [Moves::Ships, Moves::Stretches] {
            assert!(rt; lockages(rt.alloc(), groups, below, moves)? == count);
        }
    }
    Ok(())
}
