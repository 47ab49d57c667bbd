//! The room that the ships of a deck cover.
ghost use Rattle.std.specs.Prelude.{◌≡◌, ◌+◌, ◌*◌, ◌≤◌, ◌↔◌, false, IsTrue};
ghost use Rattle.lock_model.specs.Deck.{IsDeck, IsSize};
ghost use Rattle.refute_rules.specs.Reasons.{IsArea};

use lock_model::{Deck, Size};

// What a ship of these sizes covers with its gaps, in square decimetres.
fn covered(size: &Size, gap: u32, side: u32) -> u64
    requires size { IsSize size.now }
    requires gap { gap ≤ 10000 }
    requires side { side ≤ 10000 }
    ensures value { result ≡ (size.now.length + gap) * (size.now.width + side) }
    ensures few { result ≤ 12100000000 }
{
    (size.length as u64 + gap as u64) * (size.width as u64 + side as u64)
}

/// Whether all ships with their gaps cover more than the room with one gap more each way.
pub(crate) fn is_area(deck: &Deck) -> bool
    ensures yes { IsTrue result ↔ IsArea deck.now }
    ensures no { result ≡ false → IsArea deck.now → ⊥ }
    ensures limits { IsDeck deck.now }
{
    let mut all = 0;
    let sizes = deck.ships.as_slice();
    for size in sizes {
        all += covered(size, deck.gap, deck.side);
    }
    let wide = deck.width as u64 + deck.side as u64;
    let room = (deck.length as u64 + deck.gap as u64) * wide;
    room < all + 2 * deck.end as u64 * wide
}
