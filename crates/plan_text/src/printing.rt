//! Printing plan texts.
ghost use Rattle.std.specs.Prelude.{◌≡◌, ◌++◌, ◌∷◌, ◌<◌, ◌≤◌, [], length, All, IfOk, OnOk, decimal};
ghost use Rattle.std.specs.List.{flat_map};
ghost use Rattle.line_text.specs.Printed.{line};
ghost use Rattle.plan_print.specs.Words.{rank_word};
ghost use Rattle.plan_text.specs.Printing.{host_word, head_words, berth_words, berths_of, lockage_lines, plan_text};
ghost use Rattle.plan_text.specs.Reading.{IsPlanText, HasPlanText};
ghost use Rattle.plan_text.specs.Writable.{IsWritableMoor, IsWritableSpot, IsWritable};

use instance_text::way_word;
use lock_model::{Instance, Lockage, Moor, Plan, Spot};
use no_memory::NoMemory;
use plain_text::put;
use plan_print::{put_named, put_word, rank_word};
use std::alloc::Global;

/// The word for what a ship of these ships is moored to.
fn host_word<'a>(instance: &'a Instance, ships: &[u8], moor: Moor) -> &'a [u8]
    requires host { IsWritableMoor (length ships.now) moor }
    requires known { All (λ s. s < length instance.now.ships) ships.now }
    ensures { result.now ≡ host_word instance.now ships.now moor }
{
    match moor {
        Moor::Quay => b"*",
        Moor::Ship(place) => {
            let ship = ships[place as usize];
            instance.ships.as_slice()[ship as usize].name.as_slice()
        }
    }
}

/// Appends the line of a lockage.
fn put_head(out: &mut Vec<u8>, instance: &Instance, lockage: &Lockage) -> Result<(), NoMemory>
    requires { IsWritable instance.now lockage.now }
    ensures { OnOk result (out.new.items ≡ out.old.items ++ line (head_words instance.now lockage.now)) }
{
    let chamber = &instance.chambers.as_slice()[lockage.chamber as usize];
    put(out, b"lockage")?;
    put_word(out, chamber.name.as_slice())?;
    put_word(out, way_word(lockage.way))?;
    put_named(out, b" ", u64::from(lockage.start))?;
    put(out, b"\n")
}

/// Appends the x, the y and the rank of a spot.
fn put_place(out: &mut Vec<u8>, spot: &Spot) -> Result<(), NoMemory>
    ensures { OnOk result (out.new.items ≡ out.old.items ++ (32 ∷ decimal spot.now.x ++ 32 ∷ decimal spot.now.y ++ 32 ∷ rank_word spot.now.rank)) }
{
    put_named(out, b" ", u64::from(spot.x))?;
    put_named(out, b" ", u64::from(spot.y))?;
    put_word(out, rank_word(spot.rank))
}

/// Appends the line of a berth.
fn put_berth(
    out: &mut Vec<u8>,
    instance: &Instance,
    ships: &[u8],
    ship: u8,
    spot: &Spot,
) -> Result<(), NoMemory>
    requires ship { ship < length instance.now.ships }
    requires known { All (λ s. s < length instance.now.ships) ships.now }
    requires spot { IsWritableSpot (length ships.now) spot.now }
    ensures { OnOk result (out.new.items ≡ out.old.items ++ line (berth_words instance.now ships.now ship spot.now)) }
{
    put(out, b"berth")?;
    put_word(
        out,
        instance.ships.as_slice()[ship as usize].name.as_slice(),
    )?;
    put_place(out, spot)?;
    put_word(out, host_word(instance, ships, spot.moor))?;
    put(out, b"\n")
}

/// Appends the lines of the berths of a lockage.
fn put_berths(
    out: &mut Vec<u8>,
    instance: &Instance,
    ships: &[u8],
    spots: &[Spot],
) -> Result<(), NoMemory>
    requires count { length spots.now ≡ length ships.now }
    requires known { All (λ s. s < length instance.now.ships) ships.now }
    requires spots { All (IsWritableSpot (length ships.now)) spots.now }
    ensures { OnOk result (out.new.items ≡ out.old.items ++ flat_map line (berths_of instance.now ships.now ships.now spots.now)) }
{
    for (place, spot) in spots.iter().enumerate() {
        put_berth(out, instance, ships, ships[place], spot)?;
    }
    Ok(())
}

/// Appends the lines of a lockage.
fn put_lockage(out: &mut Vec<u8>, instance: &Instance, lockage: &Lockage) -> Result<(), NoMemory>
    requires { IsWritable instance.now lockage.now }
    ensures { OnOk result (out.new.items ≡ out.old.items ++ flat_map line (lockage_lines instance.now lockage.now)) }
{
    put_head(out, instance, lockage)?;
    put_berths(
        out,
        instance,
        lockage.ships.as_slice(),
        lockage.spots.as_slice(),
    )
}

/// Appends the lines of lockages.
fn put_lockages(
    out: &mut Vec<u8>,
    instance: &Instance,
    lockages: &[Lockage],
) -> Result<(), NoMemory>
    requires { All (IsWritable instance.now) lockages.now }
    ensures { OnOk result (out.new.items ≡ out.old.items ++ flat_map line (flat_map (lockage_lines instance.now) lockages.now)) }
{
    for lockage in lockages {
        put_lockage(out, instance, lockage)?;
    }
    Ok(())
}

/// A plan text of a plan that has one: the lockages in their order, and the berths of each by
/// rising number of the ship. It reads back as the same plan. Its only refusal is want of memory.
pub fn print_plan(alloc: Global, instance: &Instance, plan: &Plan) -> Result<Vec<u8>, NoMemory>
    requires { HasPlanText instance.now plan.now }
    ensures text { IfOk result (λ text. text.items ≡ plan_text instance.now plan.now) }
    ensures reads_back { IfOk result (λ text. IsPlanText instance.now text.items plan.now) }
{
    let mut out = Vec::new(alloc);
    put(&mut out, b"plan\n")?;
    put_lockages(&mut out, instance, plan.lockages.as_slice())?;
    put(&mut out, b"end\n")?;
    Ok(out)
}
