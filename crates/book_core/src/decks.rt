//! Equal decks, and ships that clash.
ghost use Rattle.std.specs.Prelude.{◌≡◌};
ghost use Rattle.std.specs.List.{list_any};
ghost use Rattle.book_rules.specs.Tests.{is_clash, has_clash, same_size, same_sizes, same_deck};

use lock_model::{Deck, Size};

// Whether two ships clash: their cargo classes differ, and neither is 0.
fn clash(first: &Size, second: &Size) -> bool
    ensures { result ≡ is_clash first.now second.now }
{
    first.cargo != second.cargo && first.cargo != 0 && second.cargo != 0
}

// Whether a ship clashes with one of others.
fn clashes(first: &Size, others: &[Size]) -> bool
    ensures { result ≡ list_any (is_clash first.now) others.now }
{
    others.iter().any(|other| clash(first, other))
}

// Whether two of these ships clash.
fn has_clash(ships: &[Size]) -> bool
    ensures { result ≡ has_clash ships.now }
{
    match ships {
        [] => false,
        [first, rest @ ..] => clashes(first, rest) || has_clash(rest),
    }
}

// Whether two ships of a deck clash.
pub(crate) fn deck_clashes(deck: &Deck) -> bool
    ensures { result ≡ has_clash deck.now.ships }
{
    has_clash(deck.ships.as_slice())
}

// Whether two ships have the same size and cargo.
fn same_size(a: &Size, b: &Size) -> bool
    ensures { result ≡ same_size a.now b.now }
{
    a.length == b.length && a.width == b.width && a.cargo == b.cargo
}

// Whether ships have the same sizes, one by one.
fn same_sizes(a: &[Size], b: &[Size]) -> bool
    ensures { result ≡ same_sizes a.now b.now }
{
    match a {
        [] => b.is_empty(),
        [first, rest @ ..] => match b {
            [] => false,
            [second, others @ ..] => same_size(first, second) && same_sizes(rest, others),
        },
    }
}

// Whether two decks are the same.
pub(crate) fn same_deck(a: &Deck, b: &Deck) -> bool
    ensures { result ≡ same_deck a.now b.now }
{
    a.length == b.length
        && a.width == b.width
        && a.end == b.end
        && a.gap == b.gap
        && a.side == b.side
        && same_sizes(a.ships.as_slice(), b.ships.as_slice())
}
