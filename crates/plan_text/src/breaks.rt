//! The first break of a plan.
ghost use Rattle.std.specs.Prelude.{◌≡◌, ◌++◌, IfOk, OnOk, codes};
ghost use Rattle.lock_model.specs.Fleet.{ship_at};
ghost use Rattle.lock_rules.specs.Lines.{lockage_at};
ghost use Rattle.mooring_rules.specs.declared.breaks.BrokenPlan.TheVariants.{Deck, Clash};
ghost use Rattle.plan_text.specs.BreakTexts.{name_in, one_named, two_named, placement_words, lockage_head, lockage_text, ship_text, time_text, break_text, late_text};

use chamber_times::BrokenTime;
use lock_model::{Instance, Plan};
use mooring_rules::{Broken, BrokenPlan};
use no_memory::NoMemory;
use plain_text::put;
use plan_print::{put_named, put_word};
use std::alloc::Global;

// The ships of the lockage at a place, none where the plan has no such lockage.
fn ships_of(plan: &Plan, place: u8) -> &[u8]
    ensures { result.now ≡ (lockage_at plan.now place).ships }
{
    match plan.lockages.as_slice().get(place as usize) {
        Some(lockage) => lockage.ships.as_slice(),
        None => b"",
    }
}

// The name of a ship, empty where the instance has no such ship.
fn name_of(instance: &Instance, ship: u8) -> &[u8]
    ensures { result.now ≡ (ship_at instance.now ship).name }
{
    match instance.ships.as_slice().get(ship as usize) {
        Some(found) => found.name.as_slice(),
        None => b"",
    }
}

// Appends the name of the ship at a place of a deck, after a space.
fn put_name(out: &mut Vec<u8>, instance: &Instance, ships: &[u8], place: u8) -> Result<(), NoMemory>
    ensures { OnOk result (out.new.items ≡ out.old.items ++ (codes " " ++ name_in instance.now ships.now place)) }
{
    match ships.get(place as usize) {
        Some(&ship) => put_word(out, name_of(instance, ship)),
        None => put(out, b" "),
    }
}

// Appends what is broken, and one ship of it.
#[tactic(auto, unfolding(crate::specs::BreakTexts::one_named))]
fn put_one(
    out: &mut Vec<u8>,
    instance: &Instance,
    ships: &[u8],
    word: &[u8],
    place: u8,
) -> Result<(), NoMemory>
    ensures { OnOk result (out.new.items ≡ out.old.items ++ one_named instance.now ships.now word.now place) }
{
    put(out, word)?;
    put_name(out, instance, ships, place)
}

// Appends what is broken, and two ships of it.
#[tactic(auto, unfolding(crate::specs::BreakTexts::two_named))]
fn put_two(
    out: &mut Vec<u8>,
    instance: &Instance,
    ships: &[u8],
    word: &[u8],
    place: u8,
    other: u8,
) -> Result<(), NoMemory>
    ensures { OnOk result (out.new.items ≡ out.old.items ++ two_named instance.now ships.now word.now place other) }
{
    put(out, word)?;
    put_name(out, instance, ships, place)?;
    put_name(out, instance, ships, other)
}

// Appends what the placement of a deck breaks.
fn put_placement(
    out: &mut Vec<u8>,
    instance: &Instance,
    ships: &[u8],
    broken: Broken,
) -> Result<(), NoMemory>
    ensures { OnOk result (out.new.items ≡ out.old.items ++ placement_words instance.now ships.now broken) }
{
    match broken {
        Broken::Outside(i) => put_one(out, instance, ships, b"Outside", i),
        Broken::Touching(i, j) => put_two(out, instance, ships, b"Touching", i, j),
        Broken::Adrift(i) => put_one(out, instance, ships, b"Adrift", i),
        Broken::BadHost(i, k) => put_two(out, instance, ships, b"BadHost", i, k),
    }
}

// Appends the lockage at a place, numbered from 1.
#[tactic(auto, unfolding(crate::specs::BreakTexts::lockage_head))]
fn put_head(out: &mut Vec<u8>, place: u8) -> Result<(), NoMemory>
    ensures { OnOk result (out.new.items ≡ out.old.items ++ lockage_head place) }
{
    put_named(out, b"illegal lockage ", place as u64 + 1)?;
    put(out, b" ")
}

// Appends a lockage and what it breaks.
#[tactic(auto, unfolding(crate::specs::BreakTexts::lockage_text))]
fn put_lockage(out: &mut Vec<u8>, place: u8, words: &[u8]) -> Result<(), NoMemory>
    ensures { OnOk result (out.new.items ≡ out.old.items ++ lockage_text place words.now) }
{
    put_head(out, place)?;
    put(out, words)?;
    put(out, b"\n")
}

// Appends a lockage and what its placement breaks.
#[tactic(auto, unfolding(crate::specs::BreakTexts::lockage_text))]
fn put_deck(
    out: &mut Vec<u8>,
    instance: &Instance,
    plan: &Plan,
    place: u8,
    broken: Broken,
) -> Result<(), NoMemory>
    ensures { OnOk result (out.new.items ≡ out.old.items ++ break_text instance.now plan.now (Deck place broken)) }
{
    put_head(out, place)?;
    put_placement(out, instance, ships_of(plan, place), broken)?;
    put(out, b"\n")
}

// Appends a lockage and two of its ships that clash, by their places in its deck.
#[tactic(auto, unfolding(crate::specs::BreakTexts::lockage_text))]
fn put_clash(
    out: &mut Vec<u8>,
    instance: &Instance,
    plan: &Plan,
    place: u8,
    pair: (u8, u8),
) -> Result<(), NoMemory>
    ensures { OnOk result (out.new.items ≡ out.old.items ++ break_text instance.now plan.now (Clash place pair.0 pair.1)) }
{
    put_head(out, place)?;
    put_two(
        out,
        instance,
        ships_of(plan, place),
        b"Clash",
        pair.0,
        pair.1,
    )?;
    put(out, b"\n")
}

// Appends a lockage and what its start breaks.
fn put_time(out: &mut Vec<u8>, broken: BrokenTime) -> Result<(), NoMemory>
    ensures { OnOk result (out.new.items ≡ out.old.items ++ time_text broken) }
{
    match broken {
        BrokenTime::Early(place) => put_lockage(out, place, b"Early"),
        BrokenTime::Soon(place) => put_lockage(out, place, b"Soon"),
        BrokenTime::Shut(place) => put_lockage(out, place, b"Shut"),
    }
}

// Appends a ship that isn't served once.
#[tactic(auto, unfolding(crate::specs::BreakTexts::ship_text))]
fn put_ship(out: &mut Vec<u8>, instance: &Instance, ship: u8, word: &[u8]) -> Result<(), NoMemory>
    ensures { OnOk result (out.new.items ≡ out.old.items ++ ship_text instance.now ship word.now) }
{
    put(out, b"illegal ship ")?;
    put(out, name_of(instance, ship))?;
    put(out, b" ")?;
    put(out, word)?;
    put(out, b"\n")
}

// Appends a break.
fn put_break(
    out: &mut Vec<u8>,
    instance: &Instance,
    plan: &Plan,
    broken: BrokenPlan,
) -> Result<(), NoMemory>
    ensures { OnOk result (out.new.items ≡ out.old.items ++ break_text instance.now plan.now broken) }
{
    match broken {
        BrokenPlan::Shape(place) => put_lockage(out, place, b"Shape"),
        BrokenPlan::Double(ship) => put_ship(out, instance, ship, b"Double"),
        BrokenPlan::Missing(ship) => put_ship(out, instance, ship, b"Missing"),
        BrokenPlan::Deck(place, broken) => put_deck(out, instance, plan, place, broken),
        BrokenPlan::Clash(place, i, j) => put_clash(out, instance, plan, place, (i, j)),
        BrokenPlan::Time(_, broken) => put_time(out, broken),
    }
}

/// The break of a plan: the lockage, numbered from 1, what it breaks and the ships that the break
/// carries; or the ship that lies in no lockage or in two. The break's numbers are those of the
/// instance and the plan; where they name no ship, no name is written. The only refusal is want of
/// memory.
pub fn break_text(
    alloc: Global,
    instance: &Instance,
    plan: &Plan,
    broken: BrokenPlan,
) -> Result<Vec<u8>, NoMemory>
    ensures { IfOk result (λ text. text.items ≡ break_text instance.now plan.now broken) }
{
    let mut out = Vec::new(alloc);
    put_break(&mut out, instance, plan, broken)?;
    Ok(out)
}

/// That the lockage at a place of the plan ends too late to be kept. It is numbered from 1. The only
/// refusal is want of memory.
pub fn late_text(alloc: Global, place: u8) -> Result<Vec<u8>, NoMemory>
    ensures { IfOk result (λ text. text.items ≡ late_text place) }
{
    let mut out = Vec::new(alloc);
    put_lockage(&mut out, place, b"Late")?;
    Ok(out)
}
