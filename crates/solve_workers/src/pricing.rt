//! What the driver makes of prices at the node that it holds.
ghost use Rattle.std.specs.Prelude.{◌≡◌};
ghost use Rattle.std.specs.Bool.{OnTrue, OnFalse};
ghost use Rattle.master_branch.specs.Node.{IsNodeOf};
ghost use Rattle.book_rules.specs.Ends.{HoldsNothing};
ghost use Rattle.price_search.specs.Holding.{was_closed};
ghost use Rattle.solve_workers.specs.Closable.{IsOwnSearch};
ghost use Rattle.solve_workers.specs.Driving.{IsDriven};
ghost use Rattle.solve_workers.specs.Holding.{HoldsOnly};

use crate::driver::Driver;
use crate::offering::DriversDesk;
use book_core::Book;
use gates::Gate;
use no_memory::NoMemory;
use placed_groups::Memory;
use price_search::InHand;
use root_pricing::{RootPricing, price_or_sweep};

// Whether the slot was closed. Where memory was refused it wasn't.
fn was_closed(ended: Result<bool, NoMemory>) -> bool
    ensures { result ≡ was_closed ended }
{
    match ended {
        Ok(closed) => closed,
        Err(NoMemory) => false,
    }
}

// Asks prices that serve about the held node.
fn ask<G: Gate>(
    desk: &DriversDesk<'_, G>,
    book: &mut Book,
    memory: &mut Memory,
    root: &mut RootPricing,
    held: &InHand<'_>,
) -> bool
    requires holds { HoldsOnly book.old held.now.id held.now.node.now }
    requires node { IsNodeOf desk.now.search.now.instance.now held.now.node.now }
    ensures closed { OnTrue result (HoldsNothing book.new) }
    ensures held { OnFalse result (HoldsOnly book.new held.now.id held.now.node.now) }
    ensures driven { IsDriven book.old book.new }
{
    was_closed(price_or_sweep(desk, book, memory, root, held))
}

/// Asks prices about the held node, where there are any that serve, and carries out what they find;
/// whether the node was closed. Where memory is refused the node stays open.
#[tactic(auto, using(crate::proofs::DrivenLemmas::driven_none))]
pub(crate) fn price_held<G: Gate>(
    driver: &mut Driver<'_, G>,
    book: &mut Book,
    held: &InHand<'_>,
) -> bool
    requires holds { HoldsOnly book.old held.now.id held.now.node.now }
    requires own { IsOwnSearch book.old driver.old.search }
    ensures closed { OnTrue result (HoldsNothing book.new) }
    ensures held { OnFalse result (HoldsOnly book.new held.now.id held.now.node.now) }
    ensures driven { IsDriven book.old book.new }
    ensures search { driver.new.search ≡ driver.old.search }
{
    book.keeps();
    let ships = driver.search.instance.ships.as_slice().len();
    let Some(root) = &mut driver.pricing else {
        return false;
    };
    if !root.pricing.serves(held.node.depth(), ships) {
        return false;
    }
    let desk = DriversDesk {
        alloc: driver.alloc,
        gate: driver.gate,
        search: &driver.search,
    };
    ask(&desk, book, &mut driver.memory, root, held)
}
