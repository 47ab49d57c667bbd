//! Searches in which one worker waits for another.

use super::three_apart;
use crate::fixture::case_of;
use book_core::Case;
use gates::{LastGate, MeetGate, Stage};
use instance_text::read_instance;
use lock_model::Verdict;
use solve_workers::solve;
use std::alloc::Global;
use std::sync::Wait;
use std::test::Fail;
use std::thread::Threads;

// Four ships of two ways.
const CROSSING: &[u8] =
    b"glock 1\nchamber c1 2000 232 10 20 5 4 30 15 high 0\nchamber c2 2000 232 10 20 5 4 30 15 high 0\nship s1 up 1100 114 0 5\nship s2 up 1100 114 0 5\nship s3 down 1100 114 0 5\nship s4 down 1100 114 0 5\nend\n";

// A lot that 1,000 nodes don't solve, so that prices are asked, and a ship that comes so late that no sweep
// is made: the root is split.
const LATE_LOT: &[u8] =
    b"glock 1\nchamber c1 2000 240 10 20 5 6 30 15 low 0\nchamber c2 1360 160 10 20 5 4 20 10 high 0\nship s1 down 840 99 25 4\nship s2 down 800 83 55 6\nship s3 down 610 84 82 3\nship s4 up 460 65 82 4\nship s5 down 640 98 93 6\nship s6 down 690 76 94 6\nship s7 up 840 98 109 8\nship s8 down 1070 60 112 8\nship s9 down 870 112 134 8\nship s10 down 670 55 138 3\nship s11 up 560 52 154 3\nship s12 up 500 60 20000 4\nend\n";

// For how many looks a gate holds a worker at the most.
const LOOKS: u64 = 100_000_000;

// Whether two workers meet at a stage of a search, which finds that this cost, in minutes, is the least.
fn do_meet<R: Threads + Wait + Sync>(
    rt: &R,
    alloc: Global,
    stage: Stage,
    case: Option<Case>,
    cost: u64,
) -> Result<bool, Fail> {
    let case = case.ok_or("no case")?;
    let gate = MeetGate::new(stage, LOOKS);
    let book = solve(rt, alloc, &case, 2, &gate)?.book;
    match book.verdict() {
        Verdict::Optimal => Ok(gate.met() && book.best_cost() == cost),
        _ => Ok(false),
    }
}

// A search that serves all on one thread leaves the gate alone. Workers share the nodes of a budget that is
// searched without prices; of a larger one the first nodes are one thread's.
#[test]
fn two_workers_meet(rt: HostRuntime) -> Result<(), Fail> {
    assert!(rt; do_meet(&rt, rt.alloc(), Stage::Taking, three_apart(), 155)?);
    Ok(())
}

// Below the root, which the caller prices alone.
#[test]
fn two_workers_price(rt: HostRuntime) -> Result<(), Fail> {
    let late = case_of(
        read_instance(LATE_LOT).map_err(|_| "no instance")?,
        100_000,
        20_000,
    );
    assert!(rt; do_meet(&rt, rt.alloc(), Stage::Pricing, late, 491)?);
    Ok(())
}

#[test]
fn a_worker_reads_the_best_cost_of_another(rt: HostRuntime) -> Result<(), Fail> {
    let case = case_of(
        read_instance(CROSSING).map_err(|_| "no instance")?,
        900,
        20_000,
    )
    .ok_or("no case")?;
    let gate = LastGate::new(Stage::Taking, 10_000_000);
    let book = solve(&rt, rt.alloc(), &case, 2, &gate)?.book;
    assert!(rt; gate.heard() == Some(210) && book.best_cost() == 210);
    Ok(())
}
