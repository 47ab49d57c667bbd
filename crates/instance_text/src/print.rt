//! Printing canonical texts.
ghost use Rattle.std.specs.Prelude.{◌≡◌, ◌==◌, ◌++◌, ◌∷◌, ◌&&◌, [], List, length, map, IfOk, OnOk};
ghost use Rattle.std.specs.List.{flat_map, list_all};
ghost use Rattle.line_text.specs.Printed.{line};
ghost use Rattle.instance_text.specs.Canonical.{way_word, stand_word, chamber_words, closing_words, closings, ship_words, cargo_field, is_plain, canonical_format, header_words, canonical};
ghost use Rattle.instance_text.specs.Reading.{Means};
ghost use Rattle.lock_model.specs.declared.chamber.Chamber.{Chamber as AnyChamber};
ghost use Rattle.lock_model.specs.declared.ship.Ship.{Ship as AnyShip};

use crate::append::{put_field, put_fields};
use crate::format::Format;
use lock_model::{Chamber, Closure, Instance, Ship, Stand, Way};
use no_memory::NoMemory;
use plain_text::put;
use std::alloc::Global;

/// The word for a way: `up` or `down`.
pub fn way_word(way: Way) -> &'static [u8]
    ensures { result.now ≡ way_word way }
{
    match way {
        Way::Up => b"up",
        Way::Down => b"down",
    }
}

/// The word for the side where a chamber stands: `low` or `high`.
pub fn stand_word(stand: Stand) -> &'static [u8]
    ensures { result.now ≡ stand_word stand }
{
    match stand {
        Stand::Low => b"low",
        Stand::High => b"high",
    }
}

/// Appends the line of a chamber.
fn put_chamber(out: &mut Vec<u8>, chamber: &Chamber) -> Result<(), NoMemory>
    ensures { OnOk result (out.new.items ≡ out.old.items ++ line (chamber_words chamber.now)) }
{
    put(out, b"chamber ")?;
    put(out, chamber.name.as_slice())?;
    put_fields(
        out,
        &[
            chamber.length,
            chamber.width,
            chamber.end,
            chamber.gap,
            chamber.side,
        ],
    )?;
    put_fields(out, &[u32::from(chamber.most), chamber.pass, chamber.turn])?;
    put(out, b" ")?;
    put(out, stand_word(chamber.stands))?;
    put_field(out, chamber.opens)?;
    put(out, b"\n")
}

/// Appends the line of a closure of the chamber of this name.
fn put_closing(out: &mut Vec<u8>, name: &[u8], closure: Closure) -> Result<(), NoMemory>
    ensures { OnOk result (out.new.items ≡ out.old.items ++ line (closing_words name.now closure)) }
{
    put(out, b"close ")?;
    put(out, name)?;
    put_fields(out, &[closure.from, closure.to])?;
    put(out, b"\n")
}

/// Appends a cargo class other than 0.
fn put_cargo(out: &mut Vec<u8>, cargo: u8) -> Result<(), NoMemory>
    ensures { OnOk result (out.new.items ≡ out.old.items ++ cargo_field cargo) }
{
    if cargo == 0 {
        return Ok(());
    }
    put_field(out, u32::from(cargo))
}

/// Appends the line of a ship.
fn put_ship(out: &mut Vec<u8>, ship: &Ship) -> Result<(), NoMemory>
    ensures { OnOk result (out.new.items ≡ out.old.items ++ line (ship_words ship.now)) }
{
    put(out, b"ship ")?;
    put(out, ship.name.as_slice())?;
    put(out, b" ")?;
    put(out, way_word(ship.way))?;
    put_fields(out, &[ship.length, ship.width, ship.arrival, ship.handling])?;
    put_cargo(out, ship.cargo)?;
    put(out, b"\n")
}

/// Appends the lines of chambers.
fn put_chambers(out: &mut Vec<u8>, chambers: &[Chamber]) -> Result<(), NoMemory>
    ensures { OnOk result (out.new.items ≡ out.old.items ++ flat_map line (map chamber_words chambers.now)) }
{
    for chamber in chambers {
        put_chamber(out, chamber)?;
    }
    Ok(())
}

/// Appends the lines of the closures of a chamber.
fn put_chamber_closings(out: &mut Vec<u8>, chamber: &Chamber) -> Result<(), NoMemory>
    ensures { OnOk result (out.new.items ≡ out.old.items ++ flat_map line (closings chamber.now)) }
{
    let name = chamber.name.as_slice();
    for closure in chamber.closures.as_slice() {
        put_closing(out, name, *closure)?;
    }
    Ok(())
}

/// Appends the lines of the closures of chambers.
fn put_closings(out: &mut Vec<u8>, chambers: &[Chamber]) -> Result<(), NoMemory>
    ensures { OnOk result (out.new.items ≡ out.old.items ++ flat_map line (flat_map closings chambers.now)) }
{
    for chamber in chambers {
        put_chamber_closings(out, chamber)?;
    }
    Ok(())
}

/// Appends the lines of ships.
fn put_ships(out: &mut Vec<u8>, ships: &[Ship]) -> Result<(), NoMemory>
    ensures { OnOk result (out.new.items ≡ out.old.items ++ flat_map line (map ship_words ships.now)) }
{
    for ship in ships {
        put_ship(out, ship)?;
    }
    Ok(())
}

/// Whether no chamber has a closure.
fn is_open(chambers: &[Chamber]) -> bool
    ensures { result ≡ list_all (λ (c : AnyChamber). length c.closures == 0) chambers.now }
{
    chambers
        .iter()
        .all(|chamber| chamber.closures.as_slice().is_empty())
}

/// Whether all cargo is harmless.
fn is_harmless(ships: &[Ship]) -> bool
    ensures { result ≡ list_all (λ (s : AnyShip). s.cargo == 0) ships.now }
{
    ships.iter().all(|ship| ship.cargo == 0)
}

/// Whether no chamber of an instance has a closure, and all its cargo is harmless.
fn is_plain(instance: &Instance) -> bool
    ensures { result ≡ is_plain instance.now }
{
    is_open(instance.chambers.as_slice()) && is_harmless(instance.ships.as_slice())
}

/// The format of the canonical text of an instance, which is the first that says all of it.
fn canonical_format(instance: &Instance) -> Format
    ensures { result ≡ canonical_format instance.now }
{
    if instance.is_large() {
        Format::Third
    } else if is_plain(instance) {
        Format::First
    } else {
        Format::Second
    }
}

/// Appends the header.
fn put_header(out: &mut Vec<u8>, format: Format) -> Result<(), NoMemory>
    ensures { OnOk result (out.new.items ≡ out.old.items ++ line (header_words format)) }
{
    match format {
        Format::First => put(out, b"glock 1\n"),
        Format::Second => put(out, b"glock 2\n"),
        Format::Third => put(out, b"glock 3\n"),
    }
}

/// The canonical text of an instance, which reads back as the same instance. Its only refusal is
/// want of memory.
pub fn print_instance(alloc: Global, instance: &Instance) -> Result<Vec<u8>, NoMemory>
    ensures text { IfOk result (λ text. text.items ≡ canonical instance.now) }
    ensures reads_back { IfOk result (λ text. Means text.items instance.now) }
{
    let chambers = instance.chambers.as_slice();
    let mut out = Vec::new(alloc);
    put_header(&mut out, canonical_format(instance))?;
    put_chambers(&mut out, chambers)?;
    put_closings(&mut out, chambers)?;
    put_ships(&mut out, instance.ships.as_slice())?;
    put(&mut out, b"end\n")?;
    Ok(out)
}
