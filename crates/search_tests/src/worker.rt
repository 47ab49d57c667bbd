//! What one worker makes of a book alone.
mod fixture;
mod hitting;

use crate::fixture::open;
use crate::worked::two_ships;
use fixture::{PointGate, one_at_a_time, searched};
use gates::Point;
use hitting::has_hit_cut;
use instance_text::make_lot;
use lock_model::Instance;
use std::alloc::Global;
use std::sync::Wait;
use std::test::Fail;

// The root and its child are split at once; the node of both ships in one group, which the worker is
// given then, is closed by a cut.
const POINTS: &[Point] = &[
    Point::Took(0),
    Point::Read(120),
    Point::Ahead(1),
    Point::Closed,
    Point::Took(2),
    Point::Read(120),
    Point::Closed,
];

#[test]
fn a_worker_calls_the_gate_as_it_goes(rt: HostRuntime) -> Result<(), Fail> {
    let gate = PointGate::new(rt.alloc());
    let book = open(rt.alloc(), two_ships(232), 100, 20000)?;
    searched(&rt, rt.alloc(), &gate, book, None)?;
    assert!(rt; gate.points().as_slice() == POINTS);
    Ok(())
}

// Whether one worker finds cuts of an instance, none of which hits a later one.
fn is_lean<W: Wait>(rt: &W, alloc: Global, instance: Instance) -> Result<bool, Fail> {
    let book = open(alloc, Some(instance), 2000, 200)?;
    let book = searched(rt, alloc, &PointGate::new(alloc), book, None)?;
    Ok(book.cut(0).is_some() && !has_hit_cut(&book))
}

// A body that places a group without looking for a known cut posts one that an earlier one hits.
#[test]
fn no_cut_of_a_worker_hits_a_later_one(rt: HostRuntime) -> Result<(), Fail> {
    assert!(rt; is_lean(&rt, rt.alloc(), make_lot(47, 10, 1))?);
    assert!(rt; is_lean(&rt, rt.alloc(), make_lot(4, 10, 2))?);
    Ok(())
}

// Its post is of an instance whose chamber serves one ship at a time, so it takes the node of both
// ships for none of its own. That the slot is back says that the others can take it.
#[test]
fn a_worker_that_cannot_go_on_gives_its_slot_back(rt: HostRuntime) -> Result<(), Fail> {
    let book = open(rt.alloc(), two_ships(232), 100, 20000)?;
    let gate = PointGate::new(rt.alloc());
    let book = searched(&rt, rt.alloc(), &gate, book, one_at_a_time())?;
    assert!(rt; (book.held_by(0), book.ended(0)) == (None, true));
    Ok(())
}
