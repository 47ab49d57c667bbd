//! The cards.
ghost use Rattle.std.specs.Prelude.{◌≡◌, ◌+◌, ◌≤◌, ◌<◌, ◌++◌, length, All, OnOk};
ghost use Rattle.day_play.specs.Lawful.{IsWholeLockage};
ghost use Rattle.picture_page.specs.KnownPassages.{IsKnown};
ghost use Rattle.picture_page.specs.Scales.{deck_scale};
ghost use Rattle.picture_page.specs.Cards.{head_words, card_head, parting, title_ship, title_ships, height_of, card_title};
ghost use Rattle.picture_page.specs.Cards.{deck_picture, list_ship, list_row, rows_from, list_rows, card, card_of, cards};

use crate::berths::{put_berth, ship_of, spot_of};
use crate::form::{put_between, put_form};
use crate::outlines::put_hulls;
use crate::passage::Passage;
use crate::scales::{DeckScale, deck_scale};
use crate::shapes::{put_arrow, put_cargo};
use crate::ties::put_ties;
use crate::times::{Clock, put_time_after};
use crate::waters::{drawn, put_feet, put_waters};
use crate::words::put_measures;
use crate::writing::put_writing;
use day_play::moor_order;
use instance_text::way_word;
use lock_model::{Chamber, Instance, Lockage, MOST, Plan, Ship};
use no_memory::NoMemory;
use plain_text::put;

/// Appends the number, the way and the chamber's name of a passage.
#[tactic(auto, unfolding(crate::specs::Cards::head_words))]
fn put_head_words(out: &mut Vec<u8>, name: &[u8], passage: &Passage) -> Result<(), NoMemory>
    ensures { OnOk result (out.new.items ≡ out.old.items ++ head_words name.now passage.now) }
{
    put_form(
        out,
        b"<article class=\"card\" id=\"l%\"><h3><b>% ",
        &[passage.number as u64, passage.number as u64],
    )?;
    put_arrow(out, passage.way)?;
    put_between(out, b"</b><span>", way_word(passage.way), b" in <strong>")?;
    put(out, name)
}

/// Appends the head of the card of a passage.
#[tactic(auto, unfolding(crate::specs::Cards::card_head))]
fn put_head(out: &mut Vec<u8>, clock: Clock, name: &[u8], passage: &Passage) -> Result<(), NoMemory>
    ensures { OnOk result (out.new.items ≡ out.old.items ++ card_head clock name.now passage.now) }
{
    put_head_words(out, name, passage)?;
    put_time_after(out, b"</strong></span><span>", clock, passage.start as u64)?;
    put_time_after(out, b" &#8211; ", clock, passage.end())?;
    put_form(out, b"</span></h3>\n", &[])
}

/// Appends what stands before the ship at a place of a list.
fn put_parting(out: &mut Vec<u8>, place: u8) -> Result<(), NoMemory>
    ensures { OnOk result (out.new.items ≡ out.old.items ++ parting place) }
{
    if place == 0 {
        return Ok(());
    }
    put(out, b"; ")
}

/// Appends the ship at a place and its berth.
#[tactic(auto, unfolding(crate::specs::Cards::title_ship))]
fn put_title_ship(
    out: &mut Vec<u8>,
    instance: &Instance,
    lockage: &Lockage,
    place: u8,
) -> Result<(), NoMemory>
    requires { All (λ s. s < length instance.now.ships) lockage.now.ships }
    ensures { OnOk result (out.new.items ≡ out.old.items ++ title_ship instance.now lockage.now place) }
{
    put_parting(out, place)?;
    put(out, ship_of(instance, lockage, place).name.as_slice())?;
    put(out, b" ")?;
    put_berth(out, instance, lockage, place)
}

/// Appends the ships of a lockage and their berths.
#[tactic(auto, unfolding(crate::specs::Cards::title_ships), using(plan_print::proofs::TextLemmas::flat_map_range_more))]
fn put_title_ships(
    out: &mut Vec<u8>,
    instance: &Instance,
    lockage: &Lockage,
) -> Result<(), NoMemory>
    requires { All (λ s. s < length instance.now.ships) lockage.now.ships }
    ensures { OnOk result (out.new.items ≡ out.old.items ++ title_ships instance.now lockage.now) }
{
    let count = lockage.ships.len() as u8;
    for place in 0..count {
        put_title_ship(out, instance, lockage, place)?;
    }
    Ok(())
}

/// The height of a deck's picture, where the chamber is drawn so wide.
fn height_of(width: u32) -> u64
    ensures value { result ≡ height_of width }
    ensures room { 14 ≤ result }
{
    width as u64 + 136
}

/// Appends the beginning of a deck's picture, and what it shows.
#[tactic(auto, unfolding(crate::specs::Cards::card_title))]
fn put_title(
    out: &mut Vec<u8>,
    instance: &Instance,
    lockage: &Lockage,
    number: u16,
    width: u32,
    name: &[u8],
) -> Result<(), NoMemory>
    requires { All (λ s. s < length instance.now.ships) lockage.now.ships }
    ensures { OnOk result (out.new.items ≡ out.old.items ++ card_title instance.now lockage.now number width name.now) }
{
    put_form(
        out,
        b"<svg class=\"d\" viewBox=\"0 0 1968 %\" role=\"img\"><title>Lockage %",
        &[height_of(width), number as u64],
    )?;
    put_between(out, b", chamber ", name, b" from above: ")?;
    put_title_ships(out, instance, lockage)?;
    put_form(out, b"</title>", &[])
}

/// Appends a deck's picture after its title.
#[tactic(auto, unfolding(crate::specs::Cards::deck_picture))]
fn put_deck_picture(
    out: &mut Vec<u8>,
    scale: &DeckScale,
    instance: &Instance,
    lockage: &Lockage,
    chamber: &Chamber,
) -> Result<(), NoMemory>
    requires { All (λ s. s < length instance.now.ships) lockage.now.ships }
    ensures { OnOk result (out.new.items ≡ out.old.items ++ deck_picture scale.now instance.now lockage.now chamber.now) }
{
    put_waters(out, scale, chamber)?;
    put_hulls(out, scale, instance, lockage)?;
    put_ties(out, scale, instance, lockage)?;
    put_writing(out, scale, instance, lockage)?;
    let width = drawn(scale, chamber.width);
    let height = height_of(width);
    put_feet(out, chamber, drawn(scale, chamber.length), height - 14)
}

/// Appends which to come in, the letter, the name and the size of the ship at a place.
#[tactic(auto, unfolding(crate::specs::Cards::list_ship))]
fn put_list_ship(out: &mut Vec<u8>, entry: u8, ship: &Ship, place: u8) -> Result<(), NoMemory>
    requires { place < MOST }
    ensures { OnOk result (out.new.items ≡ out.old.items ++ list_ship entry ship.now place) }
{
    put_form(out, b"<tr><td>%", &[entry as u64])?;
    put_between(out, b"</td><td>", &[b'A' + place], b"</td><td>")?;
    put(out, ship.name.as_slice())?;
    put_cargo(out, ship.cargo)?;
    put_form(out, b"</td><td class=\"v\">", &[])?;
    put_measures(out, ship.length, ship.width, b"</td><td>")
}

/// Appends the row of the ship at a place of a lockage, the so many-th to come in.
#[tactic(auto, unfolding(crate::specs::Cards::list_row))]
fn put_list_row(
    out: &mut Vec<u8>,
    instance: &Instance,
    lockage: &Lockage,
    entry: u8,
    place: u8,
) -> Result<(), NoMemory>
    requires known { All (λ s. s < length instance.now.ships) lockage.now.ships }
    requires within { place < length lockage.now.ships }
    ensures { OnOk result (out.new.items ≡ out.old.items ++ list_row instance.now lockage.now entry place) }
{
    put_list_ship(out, entry, ship_of(instance, lockage, place), place)?;
    put_berth(out, instance, lockage, place)?;
    let spot = spot_of(lockage, place);
    put_form(
        out,
        b"</td><td class=\"v\">%.% m<span class=\"fl\"> from low</span></td></tr>",
        &[spot.x as u64 / 10, spot.x as u64 % 10],
    )
}

/// Appends the rows of the ships at these places of a lockage, numbered from a number on.
fn put_rows_from(
    out: &mut Vec<u8>,
    instance: &Instance,
    lockage: &Lockage,
    entry: u8,
    places: &[u8],
) -> Result<(), NoMemory>
    requires known { All (λ s. s < length instance.now.ships) lockage.now.ships }
    requires within { All (λ k. k < length lockage.now.ships) places.now }
    requires few { entry + length places.now ≤ MOST + 1 }
    ensures { OnOk result (out.new.items ≡ out.old.items ++ rows_from instance.now lockage.now entry places.now) }
{
    match places {
        [] => Ok(()),
        [place, rest @ ..] => {
            put_list_row(out, instance, lockage, entry, *place)?;
            put_rows_from(out, instance, lockage, entry + 1, rest)
        }
    }
}

/// Appends the rows of the ships of a lockage, numbered in the order in which they come in.
#[tactic(auto, unfolding(crate::specs::Cards::list_rows))]
fn put_list_rows(out: &mut Vec<u8>, instance: &Instance, lockage: &Lockage) -> Result<(), NoMemory>
    requires { IsWholeLockage instance.now lockage.now }
    ensures { OnOk result (out.new.items ≡ out.old.items ++ list_rows instance.now lockage.now) }
{
    let order = moor_order(instance, lockage);
    put_rows_from(out, instance, lockage, 1, order.as_slice())
}

/// Appends the card of a passage: a lockage in a chamber of the instance.
#[tactic(auto, unfolding(crate::specs::Cards::card))]
fn put_card(
    out: &mut Vec<u8>,
    instance: &Instance,
    clock: Clock,
    lockage: &Lockage,
    chamber: &Chamber,
    passage: &Passage,
) -> Result<(), NoMemory>
    requires { IsWholeLockage instance.now lockage.now }
    ensures { OnOk result (out.new.items ≡ out.old.items ++ card (deck_scale instance.now.chambers chamber.now) instance.now clock lockage.now chamber.now passage.now) }
{
    let scale = deck_scale(instance.chambers.as_slice(), chamber);
    let width = drawn(&scale, chamber.width);
    put_head(out, clock, chamber.name.as_slice(), passage)?;
    put_title(
        out,
        instance,
        lockage,
        passage.number,
        width,
        chamber.name.as_slice(),
    )?;
    put_deck_picture(out, &scale, instance, lockage, chamber)?;
    put_form(out, b"</svg>\n<table>", &[])?;
    put_list_rows(out, instance, lockage)?;
    put_form(out, b"</table></article>\n", &[])
}

/// Appends the card of a passage of a plan.
fn put_card_of(
    out: &mut Vec<u8>,
    instance: &Instance,
    plan: &Plan,
    clock: Clock,
    passage: &Passage,
) -> Result<(), NoMemory>
    requires { IsKnown instance.now plan.now passage.now }
    ensures { OnOk result (out.new.items ≡ out.old.items ++ card_of instance.now plan.now clock passage.now) }
{
    let lockages = plan.lockages.as_slice();
    let place = passage.place as usize;
    let chamber = &instance.chambers.as_slice()[passage.chamber as usize];
    put_card(out, instance, clock, &lockages[place], chamber, passage)
}

/// Appends a card for each of these passages of a plan. What they name is in the instance and in the
/// plan. The only refusal is want of memory.
#[tactic(auto, unfolding(crate::specs::Cards::cards))]
pub(crate) fn put_cards(
    out: &mut Vec<u8>,
    instance: &Instance,
    plan: &Plan,
    clock: Clock,
    passages: &[Passage],
) -> Result<(), NoMemory>
    requires { All (IsKnown instance.now plan.now) passages.now }
    ensures { OnOk result (out.new.items ≡ out.old.items ++ cards instance.now plan.now clock passages.now) }
{
    for passage in passages {
        put_card_of(out, instance, plan, clock, passage)?;
    }
    Ok(())
}
