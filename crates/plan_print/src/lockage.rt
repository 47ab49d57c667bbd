//! The lines of a lockage and of its ships.
ghost use Rattle.std.specs.Prelude.{◌≡◌, ◌+◌, ◌<◌, ◌≤◌, ◌^◌, ℕ, [], ◌∷◌, ◌++◌, All, OnOk};
ghost use Rattle.lock_model.specs.Fleet.{ship_at};
ghost use Rattle.lock_model.specs.declared.placement.Moor.TheVariants.{Ship as AtShip};
ghost use Rattle.lock_rules.specs.Lines.{end_of};
ghost use Rattle.lock_rules.specs.Plan.{IsLegalLockage};
ghost use Rattle.plan_print.specs.Words.{moor_words, spot_words};
ghost use Rattle.plan_print.specs.Report.{lockage_line, ship_line, ship_lines, lockage_text};

use crate::drawing::put_drawing;
use crate::text::{letter, put_named, put_word, rank_word};
use chamber_times::lockage_end;
use day_play::moor_order;
use instance_text::way_word;
use lock_model::{Instance, Lockage, MOST, Moor, Ship, Spot, deck_of};
use no_memory::NoMemory;
use plain_text::put;

/// Appends what a ship is moored to.
fn put_moor(out: &mut Vec<u8>, moor: Moor) -> Result<(), NoMemory>
    requires { (k : ℕ) → moor ≡ AtShip k → k < MOST }
    ensures { OnOk result (out.new.items ≡ out.old.items ++ moor_words moor) }
{
    match moor {
        Moor::Quay => put(out, b"quay"),
        Moor::Ship(host) => {
            put(out, b"at ")?;
            put(out, &[letter(host)])
        }
    }
}

/// Appends where a ship lies, and what it is moored to.
fn put_spot(out: &mut Vec<u8>, spot: &Spot) -> Result<(), NoMemory>
    requires { (k : ℕ) → spot.now.moor ≡ AtShip k → k < MOST }
    ensures { OnOk result (out.new.items ≡ out.old.items ++ spot_words spot.now) }
{
    put_named(out, b" x ", spot.x as u64)?;
    put_named(out, b" y ", spot.y as u64)?;
    put_word(out, rank_word(spot.rank))?;
    put(out, b" ")?;
    put_moor(out, spot.moor)
}

/// Appends the line of the ship at a place of a lockage that ends at this minute.
#[tactic(auto, unfolding(crate::specs::Report::ship_line))]
fn put_ship_line(
    out: &mut Vec<u8>,
    place: u8,
    ship: &Ship,
    spot: &Spot,
    end: u64,
) -> Result<(), NoMemory>
    requires place { place < MOST }
    requires host { (k : ℕ) → spot.now.moor ≡ AtShip k → k < MOST }
    requires arrived { ship.now.arrival ≤ end }
    ensures { OnOk result (out.new.items ≡ out.old.items ++ ship_line place ship.now spot.now end) }
{
    put(out, &[b' ', b' ', letter(place)])?;
    put_word(out, ship.name.as_slice())?;
    put_spot(out, spot)?;
    put_named(out, b" flow ", end - ship.arrival as u64)?;
    put(out, b"\n")
}

/// Appends the lines of the ships of a lockage that ends at this minute, in the order in which they come in.
#[tactic(auto, unfolding(crate::specs::Report::ship_lines))]
fn put_ship_lines(
    out: &mut Vec<u8>,
    instance: &Instance,
    lockage: &Lockage,
    end: u64,
) -> Result<(), NoMemory>
    requires legal { IsLegalLockage instance.now lockage.now }
    requires arrived { All (λ s. (ship_at instance.now s).arrival ≤ lockage.now.start) lockage.now.ships }
    requires end { end ≡ end_of instance.now lockage.now }
    ensures { OnOk result (out.new.items ≡ out.old.items ++ ship_lines instance.now lockage.now) }
{
    let ships = instance.ships.as_slice();
    let numbers = lockage.ships.as_slice();
    let spots = lockage.spots.as_slice();
    let order = moor_order(instance, lockage);
    for &place in order.as_slice() {
        let number = numbers[place as usize];
        let spot = &spots[place as usize];
        put_ship_line(out, place, &ships[number as usize], spot, end)?;
    }
    Ok(())
}

/// Appends the line of a lockage with its number in the report and the minute of its end.
#[tactic(auto, unfolding(crate::specs::Report::lockage_line))]
fn put_lockage_line(
    out: &mut Vec<u8>,
    instance: &Instance,
    number: u64,
    lockage: &Lockage,
    end: u64,
) -> Result<(), NoMemory>
    requires legal { IsLegalLockage instance.now lockage.now }
    requires end { end ≡ end_of instance.now lockage.now }
    ensures { OnOk result (out.new.items ≡ out.old.items ++ lockage_line instance.now number lockage.now) }
{
    put_named(out, b"lockage ", number)?;
    put(out, b" chamber ")?;
    put(
        out,
        instance.chambers.as_slice()[lockage.chamber as usize]
            .name
            .as_slice(),
    )?;
    put_word(out, way_word(lockage.way))?;
    put_named(out, b" start ", lockage.start as u64)?;
    put_named(out, b" end ", end)?;
    put(out, b"\n")
}

/// Appends a lockage with its number in the report, its ships and its drawing.
#[tactic(auto, unfolding(crate::specs::Report::lockage_text))]
pub(crate) fn put_lockage(
    out: &mut Vec<u8>,
    instance: &Instance,
    number: u64,
    lockage: &Lockage,
) -> Result<(), NoMemory>
    requires legal { IsLegalLockage instance.now lockage.now }
    requires arrived { All (λ s. (ship_at instance.now s).arrival ≤ lockage.now.start) lockage.now.ships }
    ensures { OnOk result (out.new.items ≡ out.old.items ++ lockage_text instance.now (number, lockage.now)) }
{
    let end = lockage_end(instance, lockage);
    put_lockage_line(out, instance, number, lockage, end)?;
    put_ship_lines(out, instance, lockage, end)?;
    let deck = deck_of(instance, lockage.chamber, &lockage.ships);
    put_drawing(out, &deck, &lockage.spots)
}
