//! Ships of a deck whose cargo clashes.
ghost use Rattle.std.specs.Prelude.{◌≡◌, ◌<◌, ◌↔◌, false, length, IsTrue, IfNone, IfSome};
ghost use Rattle.lock_model.specs.Cargo.{Clash, GoTogether, IsClearOfLater, HasNoClash};
ghost use Rattle.mooring_rules.specs.CargoBreaks.{ClashesFirst, AreFirstClashing};

use lock_model::{Deck, Size};

/// Whether two ships clash: their cargo classes differ, and neither is 0.
fn clash(first: &Size, second: &Size) -> bool
    ensures yes { IsTrue result ↔ Clash first.now second.now }
    ensures no { result ≡ false ↔ GoTogether first.now second.now }
{
    first.cargo != second.cargo && first.cargo != 0 && second.cargo != 0
}

/// The first ship after ship `i` that clashes with it.
fn first_clash_after(deck: &Deck, i: u8) -> Option<u8>
    requires { i < length deck.now.ships }
    ensures none { IfNone result (IsClearOfLater deck.now i) }
    ensures some { IfSome result (ClashesFirst deck.now i) }
{
    let sizes = deck.ships.as_slice();
    let count = sizes.len() as u8;
    for j in i + 1..count {
        if clash(&sizes[i as usize], &sizes[j as usize]) {
            return Some(j);
        }
    }
    None
}

/// The first two ships of a deck that clash, none where no two do. Takes no memory.
pub fn first_clash(deck: &Deck) -> Option<(u8, u8)>
    ensures none { IfNone result (HasNoClash deck.now) }
    ensures some { IfSome result (λ p. AreFirstClashing deck.now p.0 p.1) }
{
    let count = deck.ships.as_slice().len() as u8;
    for i in 0..count {
        if let Some(j) = first_clash_after(deck, i) {
            return Some((i, j));
        }
    }
    None
}
