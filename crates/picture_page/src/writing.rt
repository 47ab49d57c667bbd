//! What is written in the hulls of a deck.
ghost use Rattle.std.specs.Prelude.{◌≡◌, ◌≤◌, ◌<◌, ◌^◌, ◌++◌, length, All, OnOk};
ghost use Rattle.picture_page.specs.Writing.{room_in, is_marked, mark, room_after, em_of, font_of, base_of, letter_text, letter_alone};
ghost use Rattle.picture_page.specs.Writing.{has_size, ship_size, size_after, letter_name, is_small, is_narrow, words, writing_in};
ghost use Rattle.picture_page.specs.Writing.{writing_at, writing};

use crate::berths::ship_of;
use crate::form::put_form;
use crate::hulls::{Hull, hull_of};
use crate::scales::DeckScale;
use crate::words::metres_width;
use lock_model::{Instance, Lockage, MOST, Ship, Way};
use no_memory::NoMemory;
use plain_text::put;

/// The room in a hull for what is written, in units along the chamber. The end may come first.
#[derive(Clone, Copy)]
pub(crate) struct Room {
    pub(crate) from: u64,
    pub(crate) to: u64,
}

/// The room in a hull that goes this way.
fn room_in(way: Way, hull: &Hull) -> Room
    ensures value { result ≡ room_in way hull.now }
    ensures from_small { result.from < 2 ^ 34 }
    ensures to_small { result.to < 2 ^ 34 }
{
    let from = hull.near as u64 + 36;
    let to = (hull.far as u64).saturating_sub(24);
    match way {
        Way::Up => Room {
            from,
            to: to.saturating_sub(hull.bow()),
        },
        Way::Down => Room {
            from: from + hull.bow(),
            to,
        },
    }
}

/// Whether a mark of cargo has room.
fn is_marked(cargo: u8, hull: &Hull, room: &Room) -> bool
    requires { room.now.from < 2 ^ 34 }
    ensures { result ≡ is_marked cargo hull.now room.now }
{
    0 < cargo && 68 <= hull.width() && room.from + 88 <= room.to
}

/// Appends the mark of cargo, where it has room.
#[tactic(auto, unfolding(crate::specs::Writing::mark))]
fn put_mark(out: &mut Vec<u8>, cargo: u8, hull: &Hull, room: &Room) -> Result<(), NoMemory>
    requires { room.now.from < 2 ^ 34 }
    ensures { OnOk result (out.new.items ≡ out.old.items ++ mark cargo hull.now room.now) }
{
    if is_marked(cargo, hull, room) {
        let middle = hull.middle();
        put_form(
            out,
            b"<use href=\"#k\" transform=\"translate(% %) scale(4)\"/><text class=\"sm mi\" x=\"%\" y=\"%\">%</text>",
            &[
                room.from,
                middle.saturating_sub(28),
                room.from + 28,
                middle + 13,
                cargo as u64,
            ],
        )
    } else {
        Ok(())
    }
}

/// The room after the mark of cargo.
fn room_after(cargo: u8, hull: &Hull, room: Room) -> Room
    requires { room.from < 2 ^ 34 }
    ensures value { result ≡ room_after cargo hull.now room }
    ensures from_small { result.from < 2 ^ 35 }
    ensures to_small { result.to ≡ room.to }
{
    if is_marked(cargo, hull, &room) {
        Room {
            from: room.from + 72,
            to: room.to,
        }
    } else {
        room
    }
}

/// The width of a character in a hull.
fn em_of(hull: &Hull) -> u64
    ensures value { result ≡ em_of hull.now }
    ensures small { result ≤ 27 }
{
    if 60 <= hull.width() { 27 } else { 22 }
}

/// The class of the font in a hull, where it is the smaller one.
fn font_of(hull: &Hull) -> &'static [u8]
    ensures { result.now ≡ font_of hull.now }
{
    if 60 <= hull.width() { b"" } else { b" sm" }
}

/// The line on which words stand.
fn base_of(hull: &Hull) -> u64
    ensures { result ≡ base_of hull.now }
{
    hull.middle() + em_of(hull) / 2 + 2
}

/// Appends the letter of a place.
#[tactic(auto, unfolding(crate::specs::Writing::letter_text))]
fn put_letter(out: &mut Vec<u8>, hull: &Hull, x: u64, place: u8) -> Result<(), NoMemory>
    requires { place < MOST }
    ensures { OnOk result (out.new.items ≡ out.old.items ++ letter_text hull.now x place) }
{
    put(out, font_of(hull))?;
    put_form(
        out,
        b"\" x=\"%\" y=\"%\"><tspan class=\"bd\">",
        &[x, base_of(hull)],
    )?;
    put(out, &[b'A' + place])
}

/// Appends the letter of a place alone, in the middle of the room.
#[tactic(auto, unfolding(crate::specs::Writing::letter_alone))]
fn put_letter_alone(out: &mut Vec<u8>, hull: &Hull, room: &Room, place: u8) -> Result<(), NoMemory>
    requires place_small { place < MOST }
    requires from_small { room.now.from < 2 ^ 35 }
    requires to_small { room.now.to < 2 ^ 35 }
    ensures { OnOk result (out.new.items ≡ out.old.items ++ letter_alone hull.now room.now place) }
{
    put_form(out, b"<text class=\"mo mi", &[])?;
    put_letter(out, hull, (room.from + room.to) / 2, place)?;
    put_form(out, b"</tspan></text>", &[])
}

/// Whether the size of a ship has room after its letter and its name.
fn has_size(ship: &Ship, hull: &Hull, room: &Room) -> bool
    requires { room.now.from < 2 ^ 35 }
    ensures { result ≡ has_size ship.now hull.now room.now }
{
    let count = 5
        + ship.name.as_slice().len() as u64
        + metres_width(ship.length)
        + metres_width(ship.width);
    room.from + em_of(hull) * count <= room.to
}

/// Appends the size of a ship after its name, where it has room.
#[tactic(auto, unfolding(crate::specs::Writing::ship_size))]
fn put_size_after(out: &mut Vec<u8>, ship: &Ship, hull: &Hull, room: &Room) -> Result<(), NoMemory>
    requires { room.now.from < 2 ^ 35 }
    ensures { OnOk result (out.new.items ≡ out.old.items ++ size_after ship.now hull.now room.now) }
{
    if !has_size(ship, hull, room) {
        return Ok(());
    }
    let (long, wide) = (ship.length as u64, ship.width as u64);
    put_form(
        out,
        b"  %.%&#215;%.%",
        &[long / 10, long % 10, wide / 10, wide % 10],
    )
}

/// Appends the letter of a place and the ship's name, and its size where it has room.
#[tactic(auto, unfolding(crate::specs::Writing::letter_name))]
fn put_letter_name(
    out: &mut Vec<u8>,
    ship: &Ship,
    hull: &Hull,
    room: &Room,
    place: u8,
) -> Result<(), NoMemory>
    requires place_small { place < MOST }
    requires from_small { room.now.from < 2 ^ 35 }
    ensures { OnOk result (out.new.items ≡ out.old.items ++ letter_name ship.now hull.now room.now place) }
{
    put_form(out, b"<text class=\"mo", &[])?;
    put_letter(out, hull, room.from, place)?;
    put_form(out, b"</tspan><tspan class=\"nm\"> ", &[])?;
    put(out, ship.name.as_slice())?;
    put_size_after(out, ship, hull, room)?;
    put_form(out, b"</tspan></text>", &[])
}

/// Whether nothing has room.
fn is_small(hull: &Hull) -> bool
    ensures { result ≡ is_small hull.now }
{
    hull.width() < 34 || hull.length() < em_of(hull) + 24
}

/// Whether just the letter has room.
fn is_narrow(ship: &Ship, hull: &Hull, room: &Room) -> bool
    requires { room.now.from < 2 ^ 35 }
    ensures { result ≡ is_narrow ship.now hull.now room.now }
{
    let count = 2 + ship.name.as_slice().len() as u64;
    hull.width() < 44 || room.to < room.from + em_of(hull) * count
}

/// Appends what has room of the letter of a place, the ship's name and its size.
fn put_words(
    out: &mut Vec<u8>,
    ship: &Ship,
    hull: &Hull,
    room: &Room,
    place: u8,
) -> Result<(), NoMemory>
    requires place_small { place < MOST }
    requires from_small { room.now.from < 2 ^ 35 }
    requires to_small { room.now.to < 2 ^ 35 }
    ensures { OnOk result (out.new.items ≡ out.old.items ++ words ship.now hull.now room.now place) }
{
    if is_small(hull) {
        return Ok(());
    }
    if is_narrow(ship, hull, room) {
        put_letter_alone(out, hull, room, place)
    } else {
        put_letter_name(out, ship, hull, room, place)
    }
}

/// Appends what is written in the hull of a ship that goes this way.
#[tactic(auto, unfolding(crate::specs::Writing::writing_in))]
fn put_writing_in(
    out: &mut Vec<u8>,
    way: Way,
    ship: &Ship,
    hull: &Hull,
    place: u8,
) -> Result<(), NoMemory>
    requires { place < MOST }
    ensures { OnOk result (out.new.items ≡ out.old.items ++ writing_in way ship.now hull.now place) }
{
    let room = room_in(way, hull);
    put_mark(out, ship.cargo, hull, &room)?;
    let room = room_after(ship.cargo, hull, room);
    put_words(out, ship, hull, &room, place)
}

/// Appends what is written in the hull of the ship at a place.
#[tactic(auto, unfolding(crate::specs::Writing::writing_at))]
fn put_writing_at(
    out: &mut Vec<u8>,
    scale: &DeckScale,
    instance: &Instance,
    lockage: &Lockage,
    place: u8,
) -> Result<(), NoMemory>
    requires known { All (λ s. s < length instance.now.ships) lockage.now.ships }
    requires place_small { place < MOST }
    ensures { OnOk result (out.new.items ≡ out.old.items ++ writing_at scale.now instance.now lockage.now place) }
{
    let ship = ship_of(instance, lockage, place);
    let hull = hull_of(scale, instance, lockage, place);
    put_writing_in(out, lockage.way, ship, &hull, place)
}

/// Appends what is written in the hulls of a lockage.
#[tactic(auto, unfolding(crate::specs::Writing::writing), using(plan_print::proofs::TextLemmas::flat_map_range_more))]
pub(crate) fn put_writing(
    out: &mut Vec<u8>,
    scale: &DeckScale,
    instance: &Instance,
    lockage: &Lockage,
) -> Result<(), NoMemory>
    requires { All (λ s. s < length instance.now.ships) lockage.now.ships }
    ensures { OnOk result (out.new.items ≡ out.old.items ++ writing scale.now instance.now lockage.now) }
{
    let count = lockage.ships.len() as u8;
    for place in 0..count {
        put_writing_at(out, scale, instance, lockage, place)?;
    }
    Ok(())
}
