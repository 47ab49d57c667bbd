//! A placement in a longer or wider deck.
ghost use Rattle.std.specs.Prelude.{◌≡◌, ◌+◌, ◌<◌, ◌^◌};
ghost use Rattle.lock_model.specs.Placement.{IsLegalPlacement};
ghost use Rattle.deck_laws.specs.Widen.{IsRoomier, wide_spot, wide_spots};

use lock_model::{Deck, Rank, Spot, Spots};

// The spot of a ship in a deck that is wider by so much.
fn wide_spot(by: u32, spot: &Spot) -> Spot
    requires { spot.now.y + by < 2 ^ 32 }
    ensures { result ≡ wide_spot by spot.now }
{
    let y = match spot.rank {
        Rank::Left => spot.y,
        Rank::Right => spot.y + by,
    };
    Spot {
        x: spot.x,
        y,
        rank: spot.rank,
        moor: spot.moor,
    }
}

/// Puts legal spots into a deck of equal end clearance, gaps and ships that is at least as long and
/// as wide: right-rank ships move by the difference of the widths, with their quay. The result is
/// legal in the wider deck. Takes no memory.
#[tactic(auto, using(crate::proofs::CodeLemmas::spot_small))]
pub fn widen(deck: &Deck, wider: &Deck, spots: &mut Spots)
    requires legal { IsLegalPlacement deck.now spots.old }
    requires roomier { IsRoomier deck.now wider.now }
    ensures spots { spots.new ≡ wide_spots deck.now wider.now spots.old }
    ensures legal { IsLegalPlacement wider.now spots.new }
{
    let by = wider.width - deck.width;
    let mut moved = Spots::new();
    for spot in spots.as_slice() {
        moved.push(wide_spot(by, spot));
    }
    *spots = moved;
}
