//! Making cuts.
ghost use Rattle.std.specs.Prelude.{◌≡◌, length, IfOk};
ghost use Rattle.refute_rules.specs.Refutes.{IsRefuted};

use crate::check::check_refutation;
use deck_cuts::{Cut, known_cut};
use lock_model::{Deck, Ships};
use no_memory::NoMemory;
use refute_rules::Refutation;
use std::alloc::Global;

/// Why no cut was made.
#[derive(Clone, Copy, PartialEq, Eq)]
pub enum CutError {
    /// The refutation doesn't hold for the deck.
    NotRefuted,
    /// There was no memory to find out.
    NoMemory,
}

impl From<NoMemory> for CutError {
    ghost use Rattle.std.specs.Prelude.{◌≡◌};
    ghost use Rattle.place_refute.specs.declared.make.CutError.TheVariants.{NoMemory as WantsMemory};

    ghost from_gives = { λ _ e. e ≡ WantsMemory };

    fn from(_error: NoMemory) -> CutError {
        CutError::NoMemory
    }
}

/// The cut of these parts, of which the deck has one size for each ship. Refuses a refutation that
/// doesn't hold for the deck, and want of memory.
pub fn make_cut(
    alloc: Global,
    chamber: u8,
    ships: Ships,
    deck: Deck,
    refutation: Refutation,
) -> Result<Cut, CutError>
    requires { length ships ≡ length deck.ships }
    ensures cut { IfOk result (λ cut. cut ≡ record { chamber = chamber; ships = ships; deck = deck; refutation = refutation }) }
    ensures refuted { IfOk result (λ _. IsRefuted deck refutation) }
    ensures not_refuted { result ≡ Err CutError.NotRefuted → IsRefuted deck refutation → ⊥ }
{
    prove!(ships.as_slice().len() == deck.ships.as_slice().len());
    if !check_refutation(alloc, &deck, &refutation)? {
        return Err(CutError::NotRefuted);
    }
    Ok(known_cut(chamber, ships, deck, refutation))
}
