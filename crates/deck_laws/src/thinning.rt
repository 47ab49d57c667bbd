//! A placement without one of its ships: what was moored to it comes nearer to the quay.
ghost use Rattle.std.specs.Prelude.{◌≡◌, ◌+◌, ◌<◌, ◌≤◌, ◌^◌, length};
ghost use Rattle.std.specs.List.{remove};
ghost use Rattle.lock_model.specs.Placement.{IsLegalPlacement};
ghost use Rattle.deck_laws.specs.Thin.{fallen, fallen_moor, moor_without, leads_to, nearer, thin_spot, thin_deck, thin_spots};

use lock_model::{Deck, MOST, Moor, Rank, Size, Sizes, Spot, Spots};

// Numbers above b fall by one.
fn fallen(b: u8, k: u8) -> u8
    ensures { result ≡ fallen b k }
{
    if b < k { k - 1 } else { k }
}

// The same ship or quay by the new numbers.
fn fallen_moor(b: u8, moor: &Moor) -> Moor
    ensures { result ≡ fallen_moor b moor.now }
{
    match moor {
        Moor::Quay => Moor::Quay,
        Moor::Ship(k) => Moor::Ship(fallen(b, *k)),
    }
}

// The mooring of a ship when ship b is left out.
fn moor_without(spots: &[Spot], b: u8, moor: &Moor) -> Moor
    requires { b < length spots.now }
    ensures { result ≡ moor_without spots.now b moor.now }
{
    match moor {
        Moor::Quay => Moor::Quay,
        Moor::Ship(k) => {
            if *k == b {
                let spot = &spots[b as usize];
                fallen_moor(b, &spot.moor)
            } else {
                Moor::Ship(fallen(b, *k))
            }
        }
    }
}

// Whether a mooring leads to ship b, through fewer than so many hosts.
fn leads_to(spots: &[Spot], b: u8, moor: &Moor, steps: u32) -> bool
    ensures { result ≡ leads_to spots.now b moor.now steps }
{
    let mut at = *moor;
    for _ in 0..steps {
        match at {
            Moor::Quay => return false,
            Moor::Ship(k) => {
                if k == b {
                    return true;
                }
                match spots.get(k as usize) {
                    Some(spot) => at = spot.moor,
                    None => return false,
                }
            }
        }
    }
    false
}

// Moved towards the quay of the rank.
fn nearer(rank: &Rank, y: u32, by: u32) -> u32
    requires { y + by < 2 ^ 32 }
    ensures { result ≡ nearer rank.now y by }
{
    match rank {
        Rank::Left => y.saturating_sub(by),
        Rank::Right => y + by,
    }
}

// The spot of a ship when ship b is left out. A chain of hosts is shorter than the deck is wide,
// since each host takes a decimetre or more.
fn thin_spot(deck: &Deck, spots: &[Spot], b: u8, spot: &Spot) -> Spot
    requires known { b < length spots.now }
    requires ship { b < length deck.now.ships }
    requires small { spot.now.y ≤ 100000 }
    ensures { result ≡ thin_spot deck.now spots.now b spot.now }
{
    let size = &deck.ships.as_slice()[b as usize];
    let by = if leads_to(spots, b, &spot.moor, deck.width) {
        size.width + deck.side
    } else {
        0
    };
    Spot {
        x: spot.x,
        y: nearer(&spot.rank, spot.y, by),
        rank: spot.rank,
        moor: moor_without(spots, b, &spot.moor),
    }
}

// The sizes without the one at b.
fn sizes_without(sizes: &[Size], b: u8) -> Sizes
    requires known { b < length sizes.now }
    requires few { length sizes.now ≤ MOST }
    ensures { result ≡ remove sizes.now b }
{
    let mut rest = Sizes::new();
    for size in &sizes[..b as usize] {
        rest.push(*size);
    }
    for size in &sizes[b as usize + 1..] {
        rest.push(*size);
    }
    rest
}

// The spots without that of b.
fn spots_without(spots: &[Spot], b: u8) -> Spots
    requires known { b < length spots.now }
    requires few { length spots.now ≤ MOST }
    ensures { result ≡ remove spots.now b }
{
    let mut rest = Spots::new();
    for spot in &spots[..b as usize] {
        rest.push(*spot);
    }
    for spot in &spots[b as usize + 1..] {
        rest.push(*spot);
    }
    rest
}

/// Leaves ship `b` out of a deck of two ships or more and of its legal spots. Guests of `b` take
/// its mooring, and all ships moored to `b` through any number of hosts move towards their quay by
/// the width of `b` and the side gap. The result is legal; numbers above `b` fall by one. Takes no
/// memory.
#[tactic(auto, using(crate::proofs::CodeLemmas::spot_small))]
pub fn thin_out(deck: &Deck, spots: &Spots, b: u8) -> (Deck, Spots)
    requires legal { IsLegalPlacement deck.now spots.now }
    requires known { b < length deck.now.ships }
    requires two { 2 ≤ length deck.now.ships }
    ensures deck { result.0 ≡ thin_deck deck.now b }
    ensures spots { result.1 ≡ thin_spots deck.now spots.now b }
    ensures legal { IsLegalPlacement result.0 result.1 }
{
    let ships = sizes_without(deck.ships.as_slice(), b);
    let rest = spots_without(spots.as_slice(), b);
    let mut moved = Spots::new();
    for spot in rest.as_slice() {
        moved.push(thin_spot(deck, spots.as_slice(), b, spot));
    }
    let thin = Deck {
        length: deck.length,
        width: deck.width,
        end: deck.end,
        gap: deck.gap,
        side: deck.side,
        ships,
    };
    (thin, moved)
}
