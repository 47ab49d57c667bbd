//! Cuts, which keep that their refutation holds.
ghost use Rattle.std.specs.Prelude.{◌≡◌, IfOk};
ghost use Rattle.refute_rules.specs.Cuts.{Cut as Told, IsCut};

use lock_model::{Deck, Ships};
use no_memory::NoMemory;
use refute_rules::Refutation;
use std::alloc::AllocError;
use std::marker::Model;

/// Ships of a chamber that don't fit it together: their numbers in the instance, rising, the deck
/// that has one size for each of them, and a refutation that holds for this deck.
#[derive(Drop)]
pub struct Cut {
    pub chamber: u8,
    pub ships: Ships,
    pub deck: Deck,
    pub refutation: Refutation,
}

impl Model for Cut {
    ghost use Rattle.refute_rules.specs.Cuts.{Cut as Told, IsCut};

    ghost Value = { Told };

    ghost view = { λ a. record { chamber = a.chamber; ships = a.ships; deck = a.deck; refutation = a.refutation } };

    ghost invariant = { λ a. IsCut (record { chamber = a.chamber; ships = a.ships; deck = a.deck; refutation = a.refutation }) };
}

/// The cut of these parts, whose refutation is known to hold for the deck. Takes no memory.
pub fn known_cut(chamber: u8, ships: Ships, deck: Deck, refutation: Refutation) -> Cut
    requires { IsCut (record { chamber = chamber; ships = ships; deck = deck; refutation = refutation }) }
    ensures { result ≡ record { chamber = chamber; ships = ships; deck = deck; refutation = refutation } }
{
    Cut {
        chamber,
        ships,
        deck,
        refutation,
    }
}

/// The same cut. Refuses want of memory alone.
pub fn copy_cut(cut: &Cut) -> Result<Cut, NoMemory>
    ensures { IfOk result (λ copy. copy ≡ cut.now) }
{
    let refutation = cut.refutation.copy()?;
    Ok(Cut {
        chamber: cut.chamber,
        ships: cut.ships.copy(),
        deck: cut.deck.copy(),
        refutation,
    })
}
