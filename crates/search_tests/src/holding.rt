//! Gates with one worker, and one that finds cuts for another. That two meet, and what the held one hears, stands
//! in `searches`.

use gates::{CutGate, Gate, LastGate, MeetGate, OpenGate, Point, Stage};
use std::thread::join;

#[test]
fn one_worker_is_let_go_and_meets_nobody(rt: HostRuntime) {
    for limit in [0, 1, 3] {
        let meet = MeetGate::new(Stage::Taking, limit);
        let last = LastGate::new(Stage::Taking, limit);
        let points = [
            (0, Point::Took(0)),
            (0, Point::Took(1)),
            (1, Point::Took(2)),
            (1, Point::Idle),
            (0, Point::Read(35)),
            (0, Point::Took(1)),
            (0, Point::Closed),
        ];
        for (worker, point) in points {
            OpenGate.at(worker, point);
            meet.at(worker, point);
            last.at(worker, point);
        }
        assert!(rt; !meet.met());
        assert!(rt; !last.freed());
        assert!(rt; last.heard() == None);
    }
}

// What a worker does that prices a node below the root, and knows so many cuts in each round.
fn prices<G: Gate>(gate: &G, worker: u8, known: &[u64]) {
    gate.at(worker, Point::Prices(1));
    for &cuts in known {
        gate.at(worker, Point::Knows(cuts));
    }
}

#[test]
fn a_worker_is_held_until_another_finds_cuts(rt: HostRuntime) {
    let gate = CutGate::new(10_000_000);
    let other = || {
        prices(&gate, 1, &[3, 3]);
        prices(&gate, 1, &[4, 6, 7]);
    };
    join(&rt, || prices(&gate, 0, &[8, 9]), other);
    // Either one may come first.
    let seen = (gate.found(), gate.learnt());
    assert!(rt; seen == (Some(6), Some(8)) || seen == (Some(9), Some(3)));
}

#[test]
fn one_worker_finds_and_learns_nothing(rt: HostRuntime) {
    let gate = CutGate::new(3);
    prices(&gate, 0, &[3, 5]);
    gate.at(0, Point::Prices(0));
    assert!(rt; gate.found() == None && gate.learnt() == None);
}
