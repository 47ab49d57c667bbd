//! What groups are charged for triples of ships.
ghost use Rattle.std.specs.Prelude.{ℕ, ◌≡◌, ◌<◌, ◌≤◌, nat_eq, List, All, if◌then◌else◌};
ghost use Rattle.std.specs.Int.{bit_at};
ghost use Rattle.lock_model.specs.declared.limits.TheConstants.{SHIPS};
ghost use Rattle.lock_rules.specs.Trace.{has_number};
ghost use Rattle.price_rules.specs.Prices.{has_triple, charged_on};
ghost use Rattle.price_groups.specs.Masks.{IsMask};

use crate::masks::{ShipMask, mask_of};
use lock_model::{SHIPS, Ships};
use price_rules::Triple;
use price_terms::Prices;

// Whether a number has a ship's bit.
#[inline(always)]
fn has_bit(mask: ShipMask, ship: u8) -> bool
    requires { ship < SHIPS }
    ensures { result ≡ nat_eq (bit_at mask ship) 1 }
{
    mask >> ship & 1 == 1
}

// Whether a ship is among those of a number; one that no instance has isn't.
#[tactic(auto, using(crate::proofs::ChargingLemmas::told, crate::proofs::ChargingLemmas::untold))]
#[inline(always)]
fn has_ship(mask: ShipMask, ship: u8) -> bool
    ensures { (ships : List ℕ) → IsMask mask ships → All (λ s. s < SHIPS) ships → result ≡ has_number ships ship }
{
    if (ship as usize) < SHIPS {
        has_bit(mask, ship)
    } else {
        false
    }
}

// Whether at least two ships of a triple are among those of a number.
#[inline(always)]
fn has_two(triple: &Triple, mask: ShipMask) -> bool
    ensures { (ships : List ℕ) → IsMask mask ships → All (λ s. s < SHIPS) ships → result ≡ has_triple ships triple.now }
{
    let second = has_ship(mask, triple.second);
    let third = has_ship(mask, triple.third);
    if has_ship(mask, triple.first) {
        second || third
    } else {
        second && third
    }
}

// What the ships of a number are charged for a triple.
#[inline(always)]
fn charge_for(triple: &Triple, mask: ShipMask) -> u32
    ensures value { (ships : List ℕ) → IsMask mask ships → All (λ s. s < SHIPS) ships → result ≡ (if has_triple ships triple.now then triple.now.price else 0) }
    ensures small { result ≤ triple.now.price }
{
    if has_two(triple, mask) {
        triple.price
    } else {
        0
    }
}

/// What the ships of a number are charged for the triples that have prices, in hundredths of a minute.
pub fn charge(prices: &Prices, mask: ShipMask) -> u32
    ensures value { (ships : List ℕ) → IsMask mask ships → All (λ s. s < SHIPS) ships → result ≡ charged_on prices.now ships }
    ensures small { result ≤ 255000000 }
{
    let mut sum = 0;
    for triple in prices.triples() {
        sum += charge_for(triple, mask);
    }
    sum
}

/// What ships are charged for the triples that have prices, in hundredths of a minute.
pub fn charged(prices: &Prices, ships: &Ships) -> u32
    requires { All (λ s. s < SHIPS) ships.now }
    ensures value { result ≡ charged_on prices.now ships.now }
    ensures small { result ≤ 255000000 }
{
    charge(prices, mask_of(ships.as_slice()))
}
