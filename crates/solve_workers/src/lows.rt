//! What the prices of the root show of the slots that a search has left.
ghost use Rattle.std.specs.Prelude.{◌≡◌, IfSome};
ghost use Rattle.lock_rules.specs.Node.{root};
ghost use Rattle.solve_workers.specs.Showing.{IsOnlyShown};

use crate::offering::number_in;
use crate::told::is_want;
use book_core::{Book, Case};
use book_rules::SlotState;
use master_branch::root;
use price_bound::{KeptLines, PricedNode, greatest_cost, show, shown_below};
use price_search::ROOT_LIMITS;
use price_terms::{Prices, Shown};
use search_book::learn_cuts;
use std::alloc::Global;

// The number under which the book keeps these prices, which it gets where it doesn't yet.
#[tactic(auto, using(crate::proofs::ShowingLemmas::shown_none))]
fn number_of(book: &mut Book, prices: &Prices) -> Option<u64>
    ensures { IsOnlyShown book.old book.new }
{
    let posted = book.prices();
    for number in 0..posted.len() {
        if posted[number].equals(prices) {
            return Some(number as u64);
        }
    }
    number_in(&book.post_prices(prices))
}

// Whether a slot is left open, held or parked, and its bound is below a cost, in minutes.
fn is_left_below(book: &Book, id: u32, cost: u64) -> bool {
    match (book.slot_state(id), book.bound(id)) {
        (Some(SlotState::Split(_)), _) | (Some(SlotState::Closed(_)), _) => false,
        (Some(_), Some(bound)) => bound < cost,
        _ => false,
    }
}

// Whether a slot is left whose bound is below a cost, in minutes.
fn has_left_below(book: &Book, cost: u64) -> bool {
    for id in 0..book.slots() {
        if is_left_below(book, id, cost) {
            return true;
        }
    }
    false
}

// Shows of a slot what was shown of the root, if that is more than its bound. False where there was no
// memory.
#[tactic(auto, using(crate::proofs::ShowingLemmas::shown_none))]
fn show_of_slot(book: &mut Book, id: u32, number: u64, shown: &Shown<'_>) -> bool
    requires root { shown.now.node ≡ root }
    requires instance { shown.now.instance ≡ book.old.case.instance }
    ensures { IsOnlyShown book.old book.new }
{
    let cost = shown.cost();
    if !is_left_below(book, id, cost) {
        return true;
    }
    match book.slot_node(id) {
        Some(node) => !is_want(&book.show_low(id, number, &shown_below(shown, &node, cost))),
        None => true,
    }
}

// Shows of each slot what was shown of the root, until there is no memory.
#[tactic(auto, using(crate::proofs::ShowingLemmas::shown_none, crate::proofs::ShowingLemmas::shown_then))]
fn show_of_slots(book: &mut Book, number: u64, shown: &Shown<'_>)
    requires root { shown.now.node ≡ root }
    requires instance { shown.now.instance ≡ book.old.case.instance }
    ensures { IsOnlyShown book.old book.new }
{
    for id in 0..book.slots() {
        if !show_of_slot(book, id, number, shown) {
            return;
        }
    }
}

// Shows the greatest cost, up to the most in minutes, that a node reaches. None where that takes more than
// `ROOT_LIMITS`, for want of memory, and where no cost is reached.
fn greatest_shown<'a>(alloc: Global, asked: &PricedNode<'a>, most: u64) -> Option<Shown<'a>>
    ensures root { IfSome result (λ shown. shown.node ≡ asked.now.node.now) }
    ensures instance { IfSome result (λ shown. shown.instance ≡ asked.now.instance.now) }
{
    let mut kept = KeptLines::new(alloc);
    match greatest_cost(&mut kept, asked, most, ROOT_LIMITS) {
        Ok(cost) => show(&mut kept, asked, cost, ROOT_LIMITS).unwrap_or(None),
        Err(_) => None,
    }
}

/// Shows of each slot that is left the greatest cost below the best one that the root reaches by these
/// prices and the book's cuts: while the slot is left, the verdict's low isn't less by it. What can't be
/// shown for want of memory isn't.
#[tactic(auto, using(crate::proofs::ShowingLemmas::shown_none, crate::proofs::ShowingLemmas::shown_then))]
pub(crate) fn show_lows(alloc: Global, book: &mut Book, case: &Case, prices: &Prices)
    requires { book.old.case ≡ case.now }
    ensures { IsOnlyShown book.old book.new }
{
    let most = book.best_cost().saturating_sub(1);
    let mut cuts = Vec::new(alloc);
    if !has_left_below(book, most) || learn_cuts(book, &mut cuts).is_err() {
        return;
    }
    let node = root(&case.instance);
    let asked = PricedNode {
        instance: &case.instance,
        node: &node,
        prices,
        cuts: cuts.as_slice(),
    };
    let Some(shown) = greatest_shown(alloc, &asked, most) else {
        return;
    };
    if !has_left_below(book, shown.cost()) {
        return;
    }
    if let Some(number) = number_of(book, prices) {
        show_of_slots(book, number, &shown);
    }
}
