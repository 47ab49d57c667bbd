//! The faults of a spot case that its x decide. Numbers of ships may be any numbers.
ghost use Rattle.std.specs.Prelude.{◌≡◌, ◌≤◌, ◌↔◌, ◌⊎◌, IsTrue, IfSome, IfNone, ◌+◌, length};
ghost use Rattle.refute_rules.specs.Reasons.{length_at};
ghost use Rattle.refute_rules.specs.SpotFaults.{IsOutsideAlong, IsOutsideAcross, IsPastHost, AreTouching, AreApartAt, IsInsideAlong};
ghost use Rattle.deck_cases.specs.Reach.{IsWithinReach};
ghost use Rattle.place_refute.specs.SpotReads.{IsWithinHost, IsPast, HasNoPosition, IsAtPosition};

use deck_cases::{Choice, host_of, is_below, is_outside_across, length_of, x_of, y_of};
use lock_model::{Deck, MOST};

// Where a ship lies, in decimetres.
#[derive(Clone, Copy)]
struct Position {
    x: u32,
    y: i64,
}

// Whether a ship is inside along the chamber.
fn is_inside_along(deck: &Deck, ship: u32, x: u32) -> bool
    ensures { IsTrue result ↔ IsInsideAlong deck.now ship x }
{
    let far = x as u64 + length_of(deck, ship) as u64;
    deck.end <= x && far + deck.end as u64 <= deck.length as u64
}

// Whether a ship's x is decided and it isn't inside along the chamber.
#[tactic(auto, using(crate::proofs::SpotLemmas::along_outside, crate::proofs::SpotLemmas::along_inside, crate::proofs::SpotLemmas::along_open))]
fn is_outside_along(deck: &Deck, choices: &[Choice], ship: u32) -> bool
    ensures { IsTrue result ↔ IsOutsideAlong deck.now choices.now ship }
{
    match x_of(choices, ship) {
        None => false,
        Some(x) => !is_inside_along(deck, ship, x),
    }
}

/// Whether a ship isn't inside, as far as the case decides where it lies.
pub(crate) fn is_outside(deck: &Deck, choices: &[Choice], ship: u32) -> bool
    ensures { IsTrue result ↔ (IsOutsideAlong deck.now choices.now ship ⊎ IsOutsideAcross deck.now choices.now ship) }
{
    is_outside_along(deck, choices, ship) || is_outside_across(deck, choices, ship)
}

// Whether the length of a ship is inside that of a host.
fn is_within_host(deck: &Deck, ship: u32, x: u32, host: u32, host_x: u32) -> bool
    ensures { IsTrue result ↔ IsWithinHost deck.now ship x host host_x }
{
    let far = x as u64 + length_of(deck, ship) as u64;
    host_x <= x && far <= host_x as u64 + length_of(deck, host) as u64
}

// Whether the x of a ship and of a host are decided, and its length isn't inside the host's.
fn is_past(deck: &Deck, choices: &[Choice], ship: u32, host: u32) -> bool
    ensures { IsTrue result ↔ IsPast deck.now choices.now ship host }
{
    match (x_of(choices, ship), x_of(choices, host)) {
        (Some(x), Some(host_x)) => !is_within_host(deck, ship, x, host, host_x),
        _ => false,
    }
}

/// Whether the x of a ship and of its host are decided, and its length isn't inside the host's.
#[tactic(auto, using(crate::proofs::SpotLemmas::past_host, crate::proofs::SpotLemmas::host_past, crate::proofs::SpotLemmas::past_none))]
pub(crate) fn is_past_host(deck: &Deck, choices: &[Choice], ship: u32) -> bool
    ensures { IsTrue result ↔ IsPastHost deck.now choices.now ship }
{
    match host_of(choices, ship) {
        None => false,
        Some(host) => is_past(deck, choices, ship, host as u32),
    }
}

// Whether a ship at x is before another along the chamber.
fn is_before(deck: &Deck, ship: u32, x: u32, other_x: u32) -> bool
    ensures { IsTrue result ↔ x + length_at deck.now ship + deck.now.gap ≤ other_x }
{
    x as u64 + length_of(deck, ship) as u64 + deck.gap as u64 <= other_x as u64
}

// Whether two ships at known positions are apart.
fn are_apart_at(deck: &Deck, i: u32, p: Position, j: u32, q: Position) -> bool
    requires first { IsWithinReach MOST p.y }
    requires second { IsWithinReach MOST q.y }
    ensures { IsTrue result ↔ AreApartAt deck.now i p.x p.y j q.x q.y }
{
    is_before(deck, i, p.x, q.x)
        || is_before(deck, j, q.x, p.x)
        || is_below(deck, i, p.y, q.y)
        || is_below(deck, j, q.y, p.y)
}

// Where a ship lies, where its x is decided and its y is known.
fn position_of(deck: &Deck, choices: &[Choice], ship: u32) -> Option<Position>
    ensures none { IfNone result (HasNoPosition deck.now choices.now ship) }
    ensures some { IfSome result (λ p. IsAtPosition deck.now choices.now ship p.x p.y) }
    ensures bound { IfSome result (λ p. IsWithinReach MOST p.y) }
{
    match (x_of(choices, ship), y_of(deck, choices, ship)) {
        (Some(x), Some(y)) => Some(Position { x, y }),
        _ => None,
    }
}

/// Whether two different ships lie at known positions and aren't apart.
#[tactic(auto, using(crate::proofs::SpotLemmas::of_touching))]
pub(crate) fn are_touching(deck: &Deck, choices: &[Choice], i: u32, j: u32) -> bool
    ensures { IsTrue result ↔ AreTouching deck.now choices.now i j }
{
    if i == j {
        return false;
    }
    match (position_of(deck, choices, i), position_of(deck, choices, j)) {
        (Some(p), Some(q)) => !are_apart_at(deck, i, p, j, q),
        _ => false,
    }
}
