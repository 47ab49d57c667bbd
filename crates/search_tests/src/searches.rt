//! Whole searches, of the caller alone and of two workers. More of them are whole runs.

mod learning;
mod meeting;

use crate::fixture::case_of;
use crate::worked::two_ships;
use book_core::{Case, open_book};
use first_plan::singles_plan;
use gates::{Gate, LastGate, Point, Stage};
use instance_text::read_instance;
use mooring_rules::first_unfit;
use solve_workers::{drive, solve};
use std::alloc::Global;
use std::sync::atomic::AtomicU64;
use std::sync::atomic::Ordering::SeqCst;
use std::test::Fail;

// Three nodes: the root, its one child, and of that one's children the one that joins the ships, which
// fit side by side.
fn side_by_side() -> Option<Case> {
    case_of(two_ships(233)?, 100, 20_000)
}

// How many nodes are used, and the best cost, once the book of a case is driven to its end, which was opened with
// the singles plan.
fn driven(alloc: Global, case: &Case) -> Option<(u32, u64)> {
    if first_unfit(&case.instance).is_some() {
        return None;
    }
    let plan = singles_plan(&case.instance);
    let mut book = open_book(alloc, case, plan).ok()?;
    drive(alloc, &mut book).ok()?;
    Some((book.used(), book.best_cost()))
}

// Notes what was told last, the greatest cost, and how often the caller told of the book that it has alone: for
// each slot that it takes, and at the end. Holds one worker until the other has nothing left to do.
#[derive(Drop)]
struct NotedGate {
    last: LastGate,
    used: AtomicU64,
    alone: AtomicU64,
    cost: AtomicU64,
    most: AtomicU64,
    low: AtomicU64,
}

impl NotedGate {
    // The longest that it looks.
    fn new(limit: u64) -> NotedGate {
        NotedGate {
            last: LastGate::new(Stage::Taking, limit),
            used: AtomicU64::new(0),
            alone: AtomicU64::new(0),
            cost: AtomicU64::new(0),
            most: AtomicU64::new(0),
            low: AtomicU64::new(0),
        }
    }

    fn note_used(&self, count: u32) {
        self.used.store(count as u64, SeqCst);
        self.alone.fetch_add(1, SeqCst);
    }

    fn note_cost(&self, cost: u64) {
        self.cost.store(cost, SeqCst);
        self.most.fetch_max(cost, SeqCst);
    }

    // How many nodes were used, the best cost, and the low that were told last.
    fn told(&self) -> (u64, u64, u64) {
        (
            self.used.load(SeqCst),
            self.cost.load(SeqCst),
            self.low.load(SeqCst),
        )
    }
}

impl Gate for NotedGate {
    fn at(&self, worker: u8, point: Point) {
        match point {
            Point::Used(count) => self.note_used(count),
            Point::Read(cost) => self.note_cost(cost),
            Point::Low(low) => self.low.store(low, SeqCst),
            _ => {}
        }
        self.last.at(worker, point);
    }
}

// The root's bound is what each ship takes alone, 35 minutes: nothing else is proved without prices. The
// last node is the one whose plan serves both ships at once.
#[test]
fn a_search_is_driven_to_its_end_and_tells_how_far_it_is(rt: HostRuntime) -> Result<(), Fail> {
    let case = side_by_side().ok_or("no case")?;
    assert!(rt; driven(rt.alloc(), &case) == Some((3, 80)));
    let gate = NotedGate::new(0);
    let book = solve(&rt, rt.alloc(), &case, 1, &gate)?.book;
    assert!(rt; gate.told() == (book.used() as u64, book.best_cost(), 70));
    Ok(())
}

// Three ships of which no two fit a chamber together, and two equal chambers: a cut for each pair
// hits it in both.
const EQUAL: &[u8] =
    b"glock 1\nchamber c1 2000 232 10 20 5 4 30 15 low 0\nchamber c2 2000 232 10 20 5 4 30 15 low 0\nship s1 up 1100 114 0 5\nship s2 up 1100 114 0 5\nship s3 up 1100 114 0 5\nend\n";

// The case of those ships, with a budget of nodes that workers share.
fn three_apart() -> Option<Case> {
    case_of(read_instance(EQUAL).ok()?, 1_000, 20_000)
}

// The cost that workers begin with is that of the first plan. What they have brought to an end, the caller
// doesn't search again.
#[test]
fn a_worker_closes_by_the_cuts_of_another(rt: HostRuntime) -> Result<(), Fail> {
    let case = three_apart().ok_or("no case")?;
    let gate = NotedGate::new(10_000_000);
    let book = solve(&rt, rt.alloc(), &case, 2, &gate)?.book;
    assert!(rt; gate.last.freed() && book.cut(0).is_some() && book.cut(3).is_none());
    assert!(rt; (gate.most.load(SeqCst), gate.alone.load(SeqCst)) == (book.opening_cost(), 1));
    Ok(())
}
