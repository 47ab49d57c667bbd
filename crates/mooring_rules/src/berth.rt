//! Whether a ship lies where its mooring holds it.
ghost use Rattle.std.specs.Prelude.{◌≡◌, ◌<◌, ◌↔◌, length, IsTrue};
ghost use Rattle.lock_model.specs.Placement.{IsAtQuay, IsAtSide, IsAtHost, IsBerthed};

use lock_model::{Deck, Moor, Rank, Size, Spot};

/// Whether a ship lies at the quay of its rank.
fn is_at_quay(deck: &Deck, size: &Size, spot: &Spot) -> bool
    ensures { IsTrue result ↔ IsAtQuay deck.now size.now spot.now spot.now.rank }
{
    match spot.rank {
        Rank::Left => spot.y == 0,
        Rank::Right => spot.y as u64 + size.width as u64 == deck.width as u64,
    }
}

/// Whether a ship lies at the side of a host.
fn is_at_side(deck: &Deck, size: &Size, spot: &Spot, host: &Size, host_spot: &Spot) -> bool
    ensures { IsTrue result ↔ IsAtSide deck.now size.now spot.now host.now host_spot.now spot.now.rank }
{
    match spot.rank {
        Rank::Left => spot.y as u64 == host_spot.y as u64 + host.width as u64 + deck.side as u64,
        Rank::Right => spot.y as u64 + size.width as u64 + deck.side as u64 == host_spot.y as u64,
    }
}

/// Whether a ship lies at a host of its rank, at its side and past neither of its ends.
fn is_at_host(deck: &Deck, size: &Size, spot: &Spot, host: &Size, host_spot: &Spot) -> bool
    ensures { IsTrue result ↔ IsAtHost deck.now size.now spot.now host.now host_spot.now }
{
    host_spot.rank == spot.rank
        && host_spot.x <= spot.x
        && spot.x as u64 + size.length as u64 <= host_spot.x as u64 + host.length as u64
        && is_at_side(deck, size, spot, host, host_spot)
}

/// Whether ship `i` is berthed: it lies at its quay, or at its host, which is another ship of the
/// deck.
pub(crate) fn is_berthed(deck: &Deck, spots: &[Spot], i: u8) -> bool
    requires count { length spots.now ≡ length deck.now.ships }
    requires ship { i < length deck.now.ships }
    ensures { IsTrue result ↔ IsBerthed deck.now spots.now i }
{
    let sizes = deck.ships.as_slice();
    let size = &sizes[i as usize];
    let spot = &spots[i as usize];
    match spot.moor {
        Moor::Quay => is_at_quay(deck, size, spot),
        Moor::Ship(k) => {
            k != i
                && (k as usize) < sizes.len()
                && is_at_host(deck, size, spot, &sizes[k as usize], &spots[k as usize])
        }
    }
}
