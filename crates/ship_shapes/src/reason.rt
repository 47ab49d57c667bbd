//! Quick reasons of decks.
ghost use Rattle.std.specs.Prelude.{◌↔◌, IsTrue, IsNone, IfSome, IfNone};
ghost use Rattle.lock_model.specs.Deck.{IsDeck};
ghost use Rattle.lock_model.specs.Fitting.{Fits};
ghost use Rattle.refute_rules.specs.Reasons.{IsRow, IsColumn, Holds, HasNoReason, IsFirstReason};
ghost use Rattle.ship_shapes.specs.Firsts.{HasNoRow, HasNoColumn, IsFirstRow, IsFirstColumn};

use crate::area::is_area;
use crate::jam::is_jam;
use crate::lanes::{column_lane, row_lane};
use crate::search::find_jam;
use lock_model::{Deck, Ships};
use refute_rules::Quick;

// The row whose set has the least number.
#[tactic(auto, using(crate::proofs::FirstLemmas::no_row, crate::proofs::FirstLemmas::first_row))]
fn find_row(deck: &Deck) -> Option<Ships>
    ensures none { IfNone result (HasNoRow deck.now) }
    ensures some { IfSome result (IsFirstRow deck.now) }
{
    find_jam(&row_lane(deck))
}

// The column whose set has the least number.
#[tactic(auto, using(crate::proofs::FirstLemmas::no_column, crate::proofs::FirstLemmas::first_column))]
fn find_column(deck: &Deck) -> Option<Ships>
    ensures none { IfNone result (HasNoColumn deck.now) }
    ensures some { IfSome result (IsFirstColumn deck.now) }
{
    find_jam(&column_lane(deck))
}

// Whether these ships are a row of the deck.
fn is_row(deck: &Deck, ships: &Ships) -> bool
    ensures exact { IsTrue result ↔ IsRow deck.now ships.now }
    ensures limits { IsDeck deck.now }
{
    is_jam(&row_lane(deck), ships)
}

// Whether these ships are a column of the deck.
fn is_column(deck: &Deck, ships: &Ships) -> bool
    ensures exact { IsTrue result ↔ IsColumn deck.now ships.now }
    ensures limits { IsDeck deck.now }
{
    is_jam(&column_lane(deck), ships)
}

// The first quick reason that holds, if there is one.
#[tactic(auto, using(crate::proofs::FirstLemmas::of_reasons))]
fn first_reason(deck: &Deck) -> Option<Quick>
    ensures limits { IsDeck deck.now }
    ensures none { IfNone result (HasNoReason deck.now) }
    ensures some { IfSome result (IsFirstReason deck.now) }
{
    if is_area(deck) {
        return Some(Quick::Area);
    }
    if let Some(ships) = find_row(deck) {
        return Some(Quick::Row(ships));
    }
    match find_column(deck) {
        Some(ships) => Some(Quick::Column(ships)),
        None => None,
    }
}

/// The first quick reason that holds for a deck: Area before rows and rows before columns, sets of
/// ships by their rising number, which has 2 to the power i for each ship i. None exactly where
/// none holds. A reason means that the deck doesn't fit. Takes no memory.
#[tactic(auto, using(crate::proofs::FirstLemmas::reason_none, crate::proofs::FirstLemmas::reasons_unfit))]
pub fn find_reason(deck: &Deck) -> Option<Quick>
    ensures first { IfSome result (IsFirstReason deck.now) }
    ensures none { IsNone result ↔ HasNoReason deck.now }
    ensures unfit { IfSome result (λ _. Fits deck.now → ⊥) }
{
    first_reason(deck)
}

/// Whether a quick reason holds for a deck. Then the deck doesn't fit. Takes no memory.
pub fn holds(deck: &Deck, quick: &Quick) -> bool
    ensures exact { IsTrue result ↔ Holds deck.now quick.now }
    ensures unfit { IsTrue result → Fits deck.now → ⊥ }
{
    match quick {
        Quick::Area => is_area(deck),
        Quick::Row(ships) => is_row(deck, ships),
        Quick::Column(ships) => is_column(deck, ships),
    }
}
