//! Instances that are hard, and how they are searched.
ghost use Rattle.std.specs.Prelude.{◌≡◌, ◌≤◌, IfOk};
ghost use Rattle.book_rules.specs.Cheap.{opening_cost};
ghost use Rattle.book_rules.specs.Ends.{HoldsNothing, EndsWell};
ghost use Rattle.solve_workers.specs.Closable.{IsOwnSearch};
ghost use Rattle.solve_workers.specs.Driving.{IsDriven};
ghost use Rattle.solve_workers.specs.Holding.{IsRunning};
ghost use Rattle.solve_workers.specs.Opening.{IsReady};
ghost use Rattle.solve_workers.specs.Showing.{IsOnlyShown};

use crate::cut_list::CutList;
use crate::driver::Driver;
use crate::driving::{drive_some, finish};
use crate::lows::show_lows;
use crate::offering::post_free;
use crate::opening::opened;
use crate::searching::{Lent, worked};
use crate::settling::settled;
use book_core::{Book, Case};
use deck_cuts::copy_cut;
use gates::Gate;
use lock_model::Instance;
use no_memory::NoMemory;
use node_work::Search;
use price_raise::first_prices;
use price_search::FirstNode;
use root_pricing::RootPricing;
use search_worker::Board;
use std::alloc::Global;
use std::mem;
use std::sync::Wait;
use std::thread::Threads;

// An instance that isn't solved after so many nodes is hard. A budget of no more is searched without prices
// to its end.
const FIRST_NODES: u32 = 1_000;

// Of a few ships this part of the budget tells it too. With many ships, all that follows takes so much longer
// from a worse plan that no node is spared.
const FIRST_PART: u32 = 10;

// Where chambers take no more ships at a time, lines serve the cheapest ones again and again, and
// rounds cost little.
const FEW_AT_A_TIME: u8 = 2;

// How many labels all sweeps of a search may make for each node of the budget, and at the most. A large
// instance, whose tree is closed by nothing else, gets its share from a smaller budget.
const LABELS_A_NODE: u64 = 100;

const LABELS_A_NODE_OF_LARGE: u64 = 2_000;

const MOST_LABELS: u64 = 2_650_000;

/// Whether the budget of a case is searched without prices to its end.
pub(crate) fn has_small_budget(case: &Case) -> bool {
    case.nodes <= FIRST_NODES
}

// How many nodes of a case are searched before it is told whether it is hard: all of a small budget.
fn first_nodes(case: &Case) -> u32 {
    if has_small_budget(case) {
        u32::MAX
    } else if case.instance.is_large() {
        FIRST_NODES
    } else {
        FIRST_NODES.min(case.nodes / FIRST_PART)
    }
}

// Posts the cuts of another book, as far as there is memory.
#[tactic(auto, using(crate::proofs::DrivenLemmas::driven_then, crate::proofs::DrivenLemmas::driven_none))]
fn post_cuts(book: &mut Book, other: &Book)
    requires free { HoldsNothing book.old }
    ensures free { HoldsNothing book.new }
    ensures driven { IsDriven book.old book.new }
{
    for number in 0..u64::MAX {
        match other.cut(number) {
            Some(cut) => match copy_cut(cut) {
                Ok(copy) => post_free(book, copy),
                Err(NoMemory) => return,
            },
            None => return,
        }
    }
}

// The book of the same case with the best plan that was found and the cuts, none of whose nodes is
// used yet; the book itself where there is no memory for that.
fn begun_again(alloc: Global, book: Box<Book>) -> Box<Book>
    requires free { HoldsNothing book.value }
    requires running { IsRunning book.value }
    ensures case { result.value.case ≡ book.value.case }
    ensures opening { opening_cost result.value ≤ opening_cost book.value }
    ensures free { HoldsNothing result.value }
    ensures running { IsRunning result.value }
{
    let Ok(mut fresh) = opened(alloc, book.case(), book.best(), &CutList::new(alloc)) else {
        return book;
    };
    if fresh.opening_cost() > book.opening_cost() {
        return book;
    }
    post_cuts(&mut *fresh, &*book);
    fresh
}

// Whether no chamber takes more than a few ships at a time.
fn takes_few(instance: &Instance) -> bool {
    for chamber in instance.chambers.as_slice() {
        if chamber.most > FEW_AT_A_TIME {
            return false;
        }
    }
    true
}

// How the first node is priced, by however many workers: it is mostly closed by what one thread finds there.
fn first_node(case: &Case) -> FirstNode {
    if case.instance.is_large() {
        FirstNode::Lasting
    } else if takes_few(&case.instance) {
        FirstNode::Steady
    } else {
        FirstNode::Long
    }
}

// How many labels all sweeps of a search may make.
fn most_labels(case: &Case) -> u64 {
    let a_node = if case.instance.is_large() {
        LABELS_A_NODE_OF_LARGE
    } else {
        LABELS_A_NODE
    };
    (case.nodes as u64).saturating_mul(a_node).min(MOST_LABELS)
}

// Begins with prices: what each ship costs in the best plan; without them where memory is wanting. What
// prices are kept in is large, so it is put where it stays.
#[inline(never)]
fn begin_pricing<G: Gate>(driver: &mut Driver<'_, G>, book: &Book, first: FirstNode)
    ensures search { driver.new.search ≡ driver.old.search }
{
    let case = book.case();
    let prices = first_prices(&case.instance, book.best());
    driver.pricing = RootPricing::new(driver.alloc, prices, first, most_labels(case)).ok();
}

// The board of what was found at the root, if anything was and there is memory for it.
fn board_of(alloc: Global, root: Option<RootPricing>) -> Option<Board> {
    Board::new(alloc, root?.pricing).ok()
}

// Lets the workers search a book with prices, and settles it: the book that they leave, or a fresh one
// of the best plan.
#[inline(never)]
#[tactic(auto, using(crate::proofs::ReadyLemmas::best_legal, crate::proofs::ReadyLemmas::best_within, crate::proofs::ReadyLemmas::ready_within_ok))]
fn priced_by_all<R: Threads + Wait + Sync, G: Gate + Sync>(
    lent: &Lent<'_, R, G>,
    book: Box<Book>,
    root: Option<RootPricing>,
    cost: u64,
) -> Result<Box<Book>, NoMemory>
    requires ready { IsReady lent.now.case.now cost book.value }
    ensures { IfOk result (λ end. IsReady lent.now.case.now cost end.value) }
{
    book.keeps();
    let opening = book.opening_cost();
    let best = book.best().copy();
    let board = board_of(lent.alloc, root);
    let left = worked(lent, book, board.as_ref())?;
    let none = CutList::new(lent.alloc);
    settled(lent.alloc, left, lent.case, opening, &best, &none)
}

// Searches a book with prices: the root on this thread, and then, where several workers serve, all else
// by them, who begin with the prices of the root.
#[inline(never)]
#[tactic(auto, using(crate::proofs::ReadyLemmas::ready_driven, crate::proofs::DrivenLemmas::own_still))]
fn priced<R: Threads + Wait + Sync, G: Gate + Sync>(
    lent: &Lent<'_, R, G>,
    driver: &mut Driver<'_, G>,
    mut book: Box<Book>,
    cost: u64,
) -> Result<Box<Book>, NoMemory>
    requires ready { IsReady lent.now.case.now cost book.value }
    requires own { IsOwnSearch book.value driver.old.search }
    ensures ready { IfOk result (λ end. IsReady lent.now.case.now cost end.value) }
    ensures search { driver.new.search ≡ driver.old.search }
{
    let first = first_node(lent.case);
    begin_pricing(driver, &*book, first);
    let is_done = drive_some(driver, &mut *book, 1)?;
    driver.keep_root();
    if is_done || lent.workers == 1 {
        return Ok(book);
    }
    let root = mem::replace(&mut driver.pricing, None);
    let book = priced_by_all(lent, book, root, cost)?;
    begin_pricing(driver, &*book, first);
    Ok(book)
}

// Searches a book without prices for its first nodes, on this thread, so that prices begin with the same plan
// and cuts whatever the number of workers. An instance that isn't solved by then begins again, with prices, the
// best plan and the cuts that were found.
#[inline(never)]
#[tactic(auto, using(crate::proofs::ReadyLemmas::ready_driven, crate::proofs::ReadyLemmas::ready_again, crate::proofs::DrivenLemmas::own_still))]
fn begun<R: Threads + Wait + Sync, G: Gate + Sync>(
    lent: &Lent<'_, R, G>,
    driver: &mut Driver<'_, G>,
    mut book: Box<Book>,
    cost: u64,
) -> Result<Box<Book>, NoMemory>
    requires ready { IsReady lent.now.case.now cost book.value }
    requires own { IsOwnSearch book.value driver.old.search }
    ensures ready { IfOk result (λ end. IsReady lent.now.case.now cost end.value) }
    ensures search { driver.new.search ≡ driver.old.search }
{
    if drive_some(driver, &mut *book, first_nodes(lent.case))? {
        return Ok(book);
    }
    let again = begun_again(lent.alloc, book);
    priced(lent, driver, again, cost)
}

// Shows of the slots that are left what the root reaches by its prices, where it was priced.
#[inline(never)]
#[tactic(auto, using(crate::proofs::ShowingLemmas::shown_none))]
fn show_root<G: Gate>(driver: &Driver<'_, G>, book: &mut Book, case: &Case)
    requires { book.old.case ≡ case.now }
    ensures { IsOnlyShown book.old book.new }
{
    if let Some(prices) = &driver.root {
        show_lows(driver.alloc, book, case, prices);
    }
}

/// Drives the search of a book to its end. An instance that is hard without prices is searched from the
/// start with prices, with the best plan and the cuts that were found, by the
/// workers first where there are several. All else is done on this thread. At the end it is shown of the
/// slots that are left what the root reaches by its prices. Refuses want of memory alone.
#[inline(never)]
#[tactic(auto, using(crate::proofs::ShowingLemmas::shown_within))]
pub(crate) fn driven<R: Threads + Wait + Sync, G: Gate + Sync>(
    lent: &Lent<'_, R, G>,
    book: Box<Book>,
    cost: u64,
) -> Result<Box<Book>, NoMemory>
    requires ready { IsReady lent.now.case.now cost book.value }
    ensures case { IfOk result (λ end. end.value.case ≡ lent.now.case.now) }
    ensures well { IfOk result (λ end. EndsWell cost end.value) }
{
    let case = lent.case;
    let search = Search::new(&case.instance, case.turns);
    let mut driver = Driver::new(lent.alloc, lent.gate, search);
    let mut book = begun(lent, &mut driver, book, cost)?;
    finish(&mut driver, &mut *book)?;
    show_root(&driver, &mut *book, case);
    Ok(book)
}
