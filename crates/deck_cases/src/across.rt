//! How ships lie across the chamber. Numbers of ships may be any numbers.
ghost use Rattle.std.specs.Prelude.{◌≡◌, ◌<◌, ◌↔◌, IsTrue, pos, ◌+ℤ◌, ◌≤ℤ◌, ◌+◌, IfSome, option_map};
ghost use Rattle.refute_rules.specs.Reasons.{width_at};
ghost use Rattle.refute_rules.specs.Known.{quay_y, guest_y};
ghost use Rattle.refute_rules.specs.SpotFaults.{IsInsideAcross};
ghost use Rattle.deck_cases.specs.Reach.{IsWithinReach};

use crate::sizes::width_of;
use lock_model::{Deck, MOST, Rank};

/// y at the quay of a rank.
pub(crate) fn quay_y(deck: &Deck, ship: u32, rank: Rank) -> i64
    ensures value { result ≡ quay_y deck.now ship rank }
    ensures bound { IsWithinReach 1 result }
{
    match rank {
        Rank::Left => 0,
        Rank::Right => deck.width as i64 - width_of(deck, ship) as i64,
    }
}

// y at a host that lies at a known y, so many ships down to a quay.
fn guest_y(deck: &Deck, ship: u32, host: u8, rank: Rank, y: i64, steps: u8) -> i64
    requires few { steps < MOST }
    requires bound { IsWithinReach steps y }
    ensures value { result ≡ guest_y deck.now ship host rank y }
    ensures bound { IsWithinReach (steps + 1) result }
{
    let wide = match rank {
        Rank::Left => width_of(deck, host as u32),
        Rank::Right => width_of(deck, ship),
    };
    let beside = (wide as u64 + deck.side as u64) as i64;
    match rank {
        Rank::Left => y + beside,
        Rank::Right => y - beside,
    }
}

/// y at a host, where that of the host is known, so many ships down to a quay.
pub(crate) fn y_at_host(
    deck: &Deck,
    ship: u32,
    host: u8,
    rank: Rank,
    host_y: Option<i64>,
    steps: u8,
) -> Option<i64>
    requires few { steps < MOST }
    requires bound { IfSome host_y (IsWithinReach steps) }
    ensures value { result ≡ option_map (guest_y deck.now ship host rank) host_y }
    ensures bound { IfSome result (IsWithinReach (steps + 1)) }
{
    match host_y {
        None => None,
        Some(y) => Some(guest_y(deck, ship, host, rank, y, steps)),
    }
}

/// Whether a ship is inside across the chamber.
pub fn is_inside_across(deck: &Deck, ship: u32, y: i64) -> bool
    requires { IsWithinReach MOST y }
    ensures { IsTrue result ↔ IsInsideAcross deck.now ship y }
{
    let far = y + width_of(deck, ship) as i64;
    0 <= y && far <= deck.width as i64
}

/// Whether a ship at y is below another across the chamber.
pub fn is_below(deck: &Deck, ship: u32, y: i64, other_y: i64) -> bool
    requires { IsWithinReach MOST y }
    ensures { IsTrue result ↔ (y +ℤ pos (width_at deck.now ship + deck.now.side)) ≤ℤ other_y }
{
    let wide = (width_of(deck, ship) as u64 + deck.side as u64) as i64;
    y + wide <= other_y
}
