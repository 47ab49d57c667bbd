//! The work on the node that the driver holds.
ghost use Rattle.std.specs.Prelude.{◌≡◌, ◌<◌, length, IfOk, OnOk};
ghost use Rattle.std.specs.Bool.{OnTrue, OnFalse};
ghost use Rattle.lock_rules.specs.Arrival.{next_ship};
ghost use Rattle.book_rules.specs.Book.{best_cost, slot_at};
ghost use Rattle.book_rules.specs.Ends.{HoldsNothing};
ghost use Rattle.book_rules.specs.Step.{probe_at};
ghost use Rattle.solve_workers.specs.Closable.{IsDriversFate, IsOwnSearch};
ghost use Rattle.solve_workers.specs.Driving.{IsDriven};
ghost use Rattle.solve_workers.specs.Holds.{HoldsSlot, node_at};

use crate::driver::Driver;
use crate::ending::{close, end, split};
use crate::held::{held_bound, held_node};
use crate::pricing::price_held;
use book_core::{Book, Probed};
use gates::Gate;
use no_memory::NoMemory;
use node_work::{Fate, closed_early, inner_fate, whole_fate};
use price_search::InHand;

// Works on the held node, which holds all ships.
#[inline(never)]
fn work_whole<G: Gate>(driver: &mut Driver<'_, G>, book: &mut Book, id: u32) -> Result<(), NoMemory>
    requires holds { HoldsSlot book.old id }
    requires own { IsOwnSearch book.old driver.old.search }
    requires whole { (slot_at book.old id).node.depth ≡ length book.old.case.instance.ships }
    ensures freed { OnOk result (HoldsNothing book.new) }
    ensures driven { IsDriven book.old book.new }
    ensures search { driver.new.search ≡ driver.old.search }
{
    book.keeps();
    let memory = &mut driver.memory;
    let node = held_node(book, id);
    let fate = whole_fate(driver.alloc, &driver.search, node, &*book, memory)?;
    end(book, id, fate)
}

// Whether prices, if there are any, close the held node. Only they need a copy of it.
#[tactic(auto, using(crate::proofs::DrivenLemmas::driven_none))]
fn is_priced<G: Gate>(driver: &mut Driver<'_, G>, book: &mut Book, id: u32) -> bool
    requires holds { HoldsSlot book.old id }
    requires own { IsOwnSearch book.old driver.old.search }
    ensures closed { OnTrue result (HoldsNothing book.new) }
    ensures held { OnFalse result (HoldsSlot book.new id) }
    ensures node { OnFalse result ((slot_at book.new id).node ≡ (slot_at book.old id).node) }
    ensures driven { IsDriven book.old book.new }
    ensures search { driver.new.search ≡ driver.old.search }
{
    if driver.pricing.is_none() {
        return false;
    }
    let node = held_node(book, id).copy();
    let held = InHand { id, node: &node };
    price_held(driver, book, &held)
}

// Splits the held node, which lacks a ship, unless prices close it.
#[tactic(auto, using(crate::proofs::DrivenLemmas::driven_then))]
fn split_unless_priced<G: Gate>(
    driver: &mut Driver<'_, G>,
    book: &mut Book,
    id: u32,
) -> Result<(), NoMemory>
    requires holds { HoldsSlot book.old id }
    requires own { IsOwnSearch book.old driver.old.search }
    requires lacks { (slot_at book.old id).node.depth < length book.old.case.instance.ships }
    ensures freed { OnOk result (HoldsNothing book.new) }
    ensures driven { IsDriven book.old book.new }
    ensures search { driver.new.search ≡ driver.old.search }
{
    if is_priced(driver, book, id) {
        return Ok(());
    }
    split(book, id)
}

// What becomes of the held node, which lacks ships, by the probe of the next one. The node is looked
// at in the book.
#[inline(never)]
fn fate_of<G: Gate>(
    driver: &mut Driver<'_, G>,
    book: &Book,
    id: u32,
    best: u64,
    least: u64,
) -> Result<Fate, NoMemory>
    requires holds { HoldsSlot book.now id }
    requires own { IsOwnSearch book.now driver.old.search }
    requires lacks { (slot_at book.now id).node.depth < length book.now.case.instance.ships }
    requires best { best ≡ best_cost book.now }
    requires least { least ≡ probe_at book.now id (next_ship book.now.case.instance (slot_at book.now id).node.depth) }
    ensures fate { IfOk result (IsDriversFate book.now (node_at book.now id)) }
    ensures search { driver.new.search ≡ driver.old.search }
{
    book.keeps();
    let node = held_node(book, id);
    let probed = Probed {
        instance: driver.search.instance,
        node,
        least,
    };
    let memory = &mut driver.memory;
    let fate = inner_fate(driver.alloc, &driver.search, &probed, best, book, memory)?;
    Ok(fate)
}

// Works on the held node, which lacks ships. The bounds of its children are worked out once, in the
// book's hand.
fn work_inner<G: Gate>(
    driver: &mut Driver<'_, G>,
    book: &mut Book,
    id: u32,
    best: u64,
) -> Result<(), NoMemory>
    requires holds { HoldsSlot book.old id }
    requires own { IsOwnSearch book.old driver.old.search }
    requires lacks { (slot_at book.old id).node.depth < length book.old.case.instance.ships }
    requires best { best ≡ best_cost book.old }
    ensures freed { OnOk result (HoldsNothing book.new) }
    ensures driven { IsDriven book.old book.new }
    ensures search { driver.new.search ≡ driver.old.search }
{
    let least = book.next_probe(id);
    let fate = fate_of(driver, book, id, best, least)?;
    if let Fate::Split = fate {
        return split_unless_priced(driver, book, id);
    }
    end(book, id, fate)
}

/// Works on the held node until it is closed, split or parked. The gate is told of it first. Refuses want of
/// memory alone.
#[tactic(auto, using(crate::proofs::HeldLemmas::early_closable, crate::proofs::HeldLemmas::held_bound, crate::proofs::DrivenLemmas::driven_then))]
pub(crate) fn work<G: Gate>(
    driver: &mut Driver<'_, G>,
    book: &mut Book,
    id: u32,
) -> Result<(), NoMemory>
    requires holds { HoldsSlot book.old id }
    requires own { IsOwnSearch book.old driver.old.search }
    ensures freed { OnOk result (HoldsNothing book.new) }
    ensures driven { IsDriven book.old book.new }
    ensures search { driver.new.search ≡ driver.old.search }
{
    book.keeps();
    driver.tell(book, id);
    let best = book.best_cost();
    if let Some(why) = closed_early(&driver.search, held_bound(book, id), best) {
        close(book, id, why);
        return Ok(());
    }
    let depth = held_node(book, id).depth() as usize;
    if depth < driver.search.instance.ships.as_slice().len() {
        work_inner(driver, book, id, best)
    } else {
        work_whole(driver, book, id)
    }
}
