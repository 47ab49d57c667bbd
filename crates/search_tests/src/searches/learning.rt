//! A search in which a worker with prices learns the cuts that another one found.

use crate::fixture::case_of;
use gates::CutGate;
use instance_text::read_instance;
use lock_model::Verdict;
use solve_workers::solve;
use std::alloc::Global;
use std::process::Abort;
use std::sync::Wait;
use std::test::Fail;
use std::thread::Threads;

// Twenty ships before two chambers, whose groups often don't fit: also below the root prices find cuts. One
// more comes so late that the root isn't swept.
const CROWD: &[u8] =
    b"glock 1\nchamber c1 2000 240 10 20 5 6 30 15 low 0\nchamber c2 1360 160 10 20 5 4 20 10 high 0\nship s1 down 630 84 26 5\nship s2 up 710 73 10 5\nship s3 up 970 55 83 7\nship s4 down 690 74 39 3\nship s5 down 630 70 74 5\nship s6 up 820 56 69 7\nship s7 up 710 64 2 4\nship s8 down 490 67 70 3\nship s9 up 420 90 1 5\nship s10 down 1030 80 19 3\nship s11 down 490 82 85 4\nship s12 up 590 59 40 5\nship s13 up 1050 103 77 5\nship s14 up 660 59 69 8\nship s15 up 800 102 79 8\nship s16 up 620 69 55 7\nship s17 up 460 95 85 4\nship s18 down 480 93 57 6\nship s19 down 1090 78 68 6\nship s20 up 900 103 43 4\nship s21 up 500 60 20000 4\nend\n";

// The same of eighteen other ships.
const OTHERS: &[u8] =
    b"glock 1\nchamber c1 2000 240 10 20 5 6 30 15 low 0\nchamber c2 1360 160 10 20 5 4 20 10 high 0\nship s1 down 930 75 16 3\nship s2 up 440 86 16 3\nship s3 up 820 71 11 7\nship s4 up 870 87 2 6\nship s5 up 1090 78 10 7\nship s6 up 600 108 10 5\nship s7 up 580 107 18 4\nship s8 up 910 70 16 6\nship s9 down 830 104 8 7\nship s10 down 440 95 2 8\nship s11 up 730 98 12 7\nship s12 down 500 54 5 5\nship s13 down 500 58 9 7\nship s14 down 700 63 3 5\nship s15 down 460 97 16 5\nship s16 up 1090 54 17 5\nship s17 down 770 105 16 4\nship s18 up 960 102 11 8\nship s19 up 500 60 20000 4\nend\n";

// For how many looks a gate holds a worker at the most.
const LOOKS: u64 = 10_000_000;

// Fewer nodes than either crowd takes, so that the held worker always has a node to go on with.
const NODES: u32 = 1_001;

// Whether all nodes of the budget were spent.
fn is_spent(verdict: &Verdict) -> bool {
    match verdict {
        Verdict::OpenNodes { used, .. } => *used == NODES,
        _ => false,
    }
}

// Whether a worker finds cuts by prices in a search of a crowd, and the one that is held until then makes
// another round; then it knows as many. Which comes first, and how many cuts there are, hangs on the
// machine.
fn learns<R: Threads + Wait + Sync + Abort>(
    rt: &R,
    alloc: Global,
    crowd: &[u8],
) -> Result<bool, Fail> {
    let instance = read_instance(crowd).map_err(|_| "no instance")?;
    let case = case_of(instance, NODES, 20_000).ok_or("no case")?;
    let gate = CutGate::new(LOOKS);
    let book = solve(rt, alloc, &case, 2, &gate)?.book;
    assert!(rt; is_spent(&book.verdict()));
    let (Some(found), Some(learnt)) = (gate.found(), gate.learnt()) else {
        return Ok(false);
    };
    assert!(rt; learnt >= found);
    Ok(true)
}

// One of several searches has to tell it.
#[test]
fn a_worker_learns_the_cuts_of_another(rt: HostRuntime) -> Result<(), Fail> {
    for _ in 0..2 {
        if learns(&rt, rt.alloc(), CROWD)? || learns(&rt, rt.alloc(), OTHERS)? {
            return Ok(());
        }
    }
    Err("no worker learnt the cuts of another".into())
}
