//! Plain tests on ships of a deck, where y may be below 0.
ghost use Rattle.std.specs.Prelude.{◌≡◌, ◌+◌, ◌<◌, ◌≤◌, ◌↔◌, length, IsTrue, pos, ◌+ℤ◌, ◌≤ℤ◌};
ghost use Rattle.refute_rules.specs.Reasons.{length_at, width_at};
ghost use Rattle.refute_rules.specs.SpotFaults.{IsInsideAlong, IsInsideAcross, AreApartAt};

use crate::heights::across;
use lock_model::{Deck, MOST};

/// Where a ship of the deck lies, in decimetres.
#[derive(Clone, Copy)]
pub(crate) struct Position {
    pub(crate) ship: u8,
    pub(crate) x: u32,
    pub(crate) y: i32,
}

/// How many ships the deck has.
pub(crate) fn ship_count(deck: &Deck) -> u8
    ensures value { result ≡ length deck.now.ships }
    ensures few { result ≤ MOST }
{
    deck.ships.as_slice().len() as u8
}

/// Whether a ship at `x` is inside along the chamber.
pub(crate) fn is_inside_along(deck: &Deck, ship: u8, x: u32) -> bool
    requires { ship < length deck.now.ships }
    ensures { IsTrue result ↔ IsInsideAlong deck.now ship x }
{
    let size = &deck.ships.as_slice()[ship as usize];
    deck.end <= x && x as u64 + size.length as u64 + deck.end as u64 <= deck.length as u64
}

/// Whether a ship at `y` is inside across the chamber.
pub(crate) fn is_inside_across(deck: &Deck, ship: u8, y: i32) -> bool
    requires { ship < length deck.now.ships }
    ensures { IsTrue result ↔ IsInsideAcross deck.now ship y }
{
    let size = &deck.ships.as_slice()[ship as usize];
    0 <= y && y as i64 + size.width as i64 <= deck.width as i64
}

/// Whether the length of a ship at `x` is inside that of its host at `host_x`.
pub(crate) fn is_within_host(deck: &Deck, ship: u8, x: u32, host: u8, host_x: u32) -> bool
    requires ship { ship < length deck.now.ships }
    requires host { host < length deck.now.ships }
    ensures { IsTrue result ↔ ((host_x ≤ x) × (x + length_at deck.now ship ≤ host_x + length_at deck.now host)) }
{
    let sizes = deck.ships.as_slice();
    let own = &sizes[ship as usize];
    let other = &sizes[host as usize];
    host_x <= x && x as u64 + own.length as u64 <= host_x as u64 + other.length as u64
}

/// Whether a ship is wholly before another, with the gap between them.
fn is_before(deck: &Deck, one: Position, other: Position) -> bool
    requires { one.ship < length deck.now.ships }
    ensures { IsTrue result ↔ (one.x + length_at deck.now one.ship + deck.now.gap ≤ other.x) }
{
    let size = &deck.ships.as_slice()[one.ship as usize];
    one.x as u64 + size.length as u64 + deck.gap as u64 <= other.x as u64
}

/// Whether a ship is wholly below another, with the gap between them.
fn is_below(deck: &Deck, one: Position, other: Position) -> bool
    requires { one.ship < length deck.now.ships }
    ensures { IsTrue result ↔ ((one.y +ℤ pos (width_at deck.now one.ship + deck.now.side)) ≤ℤ other.y) }
{
    one.y as i64 + across(deck, one.ship) as i64 <= other.y as i64
}

/// Whether two ships are apart.
pub(crate) fn are_apart(deck: &Deck, one: Position, other: Position) -> bool
    requires one { one.ship < length deck.now.ships }
    requires other { other.ship < length deck.now.ships }
    ensures { IsTrue result ↔ AreApartAt deck.now one.ship one.x one.y other.ship other.x other.y }
{
    is_before(deck, one, other)
        || is_before(deck, other, one)
        || is_below(deck, one, other)
        || is_below(deck, other, one)
}
