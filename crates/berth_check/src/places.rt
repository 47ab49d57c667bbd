//! Whether some places along the chamber obey a berth case.
ghost use Rattle.std.specs.Prelude.{◌≡◌, ◌+◌, ◌<◌, ◌≤◌, ◌↔◌, Some, length, IsTrue, IfSome, IfNone};
ghost use Rattle.refute_rules.specs.SpotFaults.{IsInsideAlong};
ghost use Rattle.refute_rules.specs.BerthCases.{host_in};
ghost use Rattle.berth_check.specs.Raises.{AreKnown, IsKnownChoice, IsOf, IsForced, IsHostObeyed, IsOrderObeyed, AreHostsObeyed, AreOrdersObeyed};
ghost use Rattle.berth_check.specs.Raises.{AreSettled, AreBelow, AreFirstInside, HasPlaces};

use deck_cases::{Choice, host_of, length_of};
use lock_model::{Deck, MOST};

// A place that a ship is raised to.
#[derive(Clone, Copy)]
struct Raise {
    ship: u8,
    value: u64,
}

// What a ship and its host ask.
#[tactic(auto, using(crate::proofs::RaiseLemmas::near_forced, crate::proofs::RaiseLemmas::far_forced, crate::proofs::RaiseLemmas::host_obeyed))]
fn raise_at_host(
    deck: &Deck,
    choices: &[Choice],
    places: &[u32],
    ship: u8,
    host: u8,
) -> Option<Raise>
    requires count { length places.now ≡ MOST }
    requires ship { ship < length deck.now.ships }
    requires host { host < length deck.now.ships }
    requires lies { Some host ≡ host_in choices.now ship }
    ensures none { IfNone result (IsHostObeyed deck.now choices.now places.now ship) }
    ensures some { IfSome result (λ r. IsForced deck.now choices.now places.now r.ship r.value) }
    ensures few { IfSome result (λ r. r.value ≤ 17179869184) }
{
    prove!(deck.ships.as_slice().len() <= MOST);
    let own = places[ship as usize] as u64;
    let near = places[host as usize] as u64;
    if own < near {
        return Some(Raise { ship, value: near });
    }
    let far = own + length_of(deck, ship as u32) as u64;
    let room = length_of(deck, host as u32) as u64;
    if near + room < far {
        return Some(Raise {
            ship: host,
            value: far - room,
        });
    }
    None
}

// The same of a ship whose host isn't told yet.
#[tactic(auto, using(crate::proofs::RaiseLemmas::host_none, crate::proofs::RaiseLemmas::known_host))]
fn host_raise(deck: &Deck, choices: &[Choice], places: &[u32], ship: u8) -> Option<Raise>
    requires known { AreKnown deck.now choices.now }
    requires count { length places.now ≡ MOST }
    requires ship { ship < length deck.now.ships }
    ensures none { IfNone result (IsHostObeyed deck.now choices.now places.now ship) }
    ensures some { IfSome result (λ r. IsForced deck.now choices.now places.now r.ship r.value) }
    ensures few { IfSome result (λ r. r.value ≤ 17179869184) }
{
    match host_of(choices, ship as u32) {
        None => None,
        Some(host) => raise_at_host(deck, choices, places, ship, host),
    }
}

// What an option asks, if it is an order.
#[tactic(auto, using(crate::proofs::RaiseLemmas::order_forced, crate::proofs::RaiseLemmas::order_obeyed, crate::proofs::RaiseLemmas::berth_obeyed))]
fn order_raise(deck: &Deck, choices: &[Choice], places: &[u32], choice: &Choice) -> Option<Raise>
    requires known { IsKnownChoice deck.now choice.now }
    requires stands { IsOf choices.now choice.now }
    requires count { length places.now ≡ MOST }
    ensures none { IfNone result (IsOrderObeyed deck.now places.now choice.now) }
    ensures some { IfSome result (λ r. IsForced deck.now choices.now places.now r.ship r.value) }
    ensures few { IfSome result (λ r. r.value ≤ 17179869184) }
{
    prove!(deck.ships.as_slice().len() <= MOST);
    match choice {
        Choice::Before(first, second) => {
            let after = places[*first as usize] as u64
                + length_of(deck, *first as u32) as u64
                + deck.gap as u64;
            if (places[*second as usize] as u64) < after {
                Some(Raise {
                    ship: *second,
                    value: after,
                })
            } else {
                None
            }
        }
        _ => None,
    }
}

// The first raise that a host asks.
fn first_host_raise(deck: &Deck, choices: &[Choice], places: &[u32]) -> Option<Raise>
    requires known { AreKnown deck.now choices.now }
    requires count { length places.now ≡ MOST }
    ensures none { IfNone result (AreHostsObeyed deck.now choices.now places.now (length deck.now.ships)) }
    ensures some { IfSome result (λ r. IsForced deck.now choices.now places.now r.ship r.value) }
    ensures few { IfSome result (λ r. r.value ≤ 17179869184) }
{
    let count = deck.ships.as_slice().len() as u8;
    for ship in 0..count {
        if let Some(raise) = host_raise(deck, choices, places, ship) {
            return Some(raise);
        }
    }
    None
}

// The first raise that an order asks.
#[tactic(auto, using(crate::proofs::RaiseLemmas::of_orders))]
fn first_order_raise(deck: &Deck, choices: &[Choice], places: &[u32]) -> Option<Raise>
    requires known { AreKnown deck.now choices.now }
    requires count { length places.now ≡ MOST }
    ensures none { IfNone result (AreOrdersObeyed deck.now choices.now places.now (length choices.now)) }
    ensures some { IfSome result (λ r. IsForced deck.now choices.now places.now r.ship r.value) }
    ensures few { IfSome result (λ r. r.value ≤ 17179869184) }
{
    for choice in choices {
        if let Some(raise) = order_raise(deck, choices, places, choice) {
            return Some(raise);
        }
    }
    None
}

// A raise that the case asks, if there is one.
fn find_raise(deck: &Deck, choices: &[Choice], places: &[u32]) -> Option<Raise>
    requires known { AreKnown deck.now choices.now }
    requires count { length places.now ≡ MOST }
    ensures none { IfNone result (AreSettled deck.now choices.now places.now) }
    ensures some { IfSome result (λ r. IsForced deck.now choices.now places.now r.ship r.value) }
    ensures few { IfSome result (λ r. r.value ≤ 17179869184) }
{
    match first_host_raise(deck, choices, places) {
        Some(raise) => Some(raise),
        None => first_order_raise(deck, choices, places),
    }
}

// Whether a ship of the deck is inside along the chamber at a place.
fn is_inside_along(deck: &Deck, ship: u8, place: u64) -> bool
    requires { place ≤ 17179869184 }
    ensures { IsTrue result ↔ IsInsideAlong deck.now ship place }
{
    let far = place + length_of(deck, ship as u32) as u64;
    deck.end as u64 <= place && far + deck.end as u64 <= deck.length as u64
}

// Whether all ships are inside along the chamber.
fn are_inside(deck: &Deck, places: &[u32]) -> bool
    requires { length places.now ≡ MOST }
    ensures { IsTrue result ↔ AreFirstInside deck.now places.now (length deck.now.ships) }
{
    prove!(deck.ships.as_slice().len() <= MOST);
    let count = deck.ships.as_slice().len() as u8;
    for ship in 0..count {
        if !is_inside_along(deck, ship, places[ship as usize] as u64) {
            return false;
        }
    }
    true
}

#[tactic(auto, using(crate::proofs::RaiseLemmas::of_places))]
// Raises places until they obey the case, or until a ship isn't inside.
fn settle(deck: &Deck, choices: &[Choice], places: &mut [u32]) -> bool
    requires known { AreKnown deck.now choices.now }
    requires count { length places.old ≡ MOST }
    requires below { AreBelow deck.now choices.now places.old }
    requires inside { AreFirstInside deck.now places.old (length deck.now.ships) }
    ensures { IsTrue result ↔ HasPlaces deck.now choices.now }
{
    prove!(deck.ships.as_slice().len() <= MOST);
    while let Some(raise) = find_raise(deck, choices, places) {
        if !is_inside_along(deck, raise.ship, raise.value) {
            return false;
        }
        places[raise.ship as usize] = raise.value as u32;
    }
    true
}

/// Whether some places along the chamber obey the case.
#[tactic(auto, using(crate::proofs::RaiseLemmas::start_below, crate::proofs::RaiseLemmas::start_no_places))]
pub(crate) fn has_places(deck: &Deck, choices: &[Choice]) -> bool
    requires { AreKnown deck.now choices.now }
    ensures { IsTrue result ↔ HasPlaces deck.now choices.now }
{
    let mut places = [deck.end; MOST];
    if !are_inside(deck, &places) {
        return false;
    }
    settle(deck, choices, &mut places)
}
