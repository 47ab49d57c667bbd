//! Worked books of two ships.
mod asking;
mod plans;
mod priced_root;

use crate::fixture::open;
use crate::worked::two_ships;
use asking::{Ask, Told, told};
use book_core::Book;
use book_rules::SlotState;
use closing_rules::Ground;
use priced_root::NARROW;
use std::alloc::Global;
use std::process::Abort;
use std::test::Fail;

const REFUSED: &[(Ask, Told)] = &[
    (Ask::Take(0), ("Node", 0, 0)),
    (Ask::Take(0), ("Holds", 0, 0)),
    (Ask::Take(1), ("Idle", 0, 0)),
    (Ask::Close(0, Ground::Bound), ("Cheaper", 70, 120)),
    (Ask::Close(0, Ground::Cut(0)), ("NoHit", 0, 0)),
    (Ask::Split(0), ("Made", 1, 0)),
    (Ask::Split(0), ("NotHeld", 0, 0)),
    (Ask::Release(0), ("Released", 0, 0)),
    (Ask::Take(0), ("Ended", 0, 0)),
    (Ask::Events, ("events", 3, 0)),
];

// The way to the node of both ships in one group, slot 2; the other children of slot 1 are closed by
// their bound.
const BY_THE_CUT: &[(Ask, Told)] = &[
    (Ask::Take(0), ("Node", 0, 0)),
    (Ask::Split(0), ("Made", 1, 0)),
    (Ask::Take(0), ("Node", 1, 1)),
    (Ask::Split(1), ("Made", 3, 0)),
    (Ask::Take(0), ("Node", 2, 2)),
    (Ask::Split(2), ("Whole", 2, 0)),
    (Ask::Low, ("low", 80, 3)),
    (Ask::Release(0), ("Released", 1, 0)),
    (Ask::Take(8), ("Node", 2, 2)),
    (Ask::Post(21), ("OtherDeck", 0, 0)),
    (Ask::Post(20), ("Posted", 0, 0)),
    (Ask::Close(2, Ground::Cut(1)), ("NoHit", 1, 0)),
    (Ask::Close(2, Ground::Cut(0)), ("Closed", 0, 0)),
    (Ask::Take(8), ("Done", 0, 0)),
    (Ask::Low, ("optimal", 120, 3)),
    (Ask::Events, ("events", 9, 0)),
];

const REPLACED: &[(Ask, Told)] = &[
    (Ask::Take(0), ("Node", 0, 0)),
    (Ask::Split(0), ("Made", 1, 0)),
    (Ask::Take(0), ("Node", 1, 1)),
    (Ask::Split(1), ("Made", 3, 0)),
    (Ask::Both, ("Replaced", 80, 0)),
    (Ask::Both, ("NotCheaper", 80, 80)),
    (Ask::Take(0), ("Done", 0, 0)),
    (Ask::After(1), ("NotLegal", 0, 0)),
    (Ask::Low, ("optimal", 80, 2)),
    (Ask::Events, ("events", 5, 0)),
];

const BY_A_SWEEP: &[(Ask, Told)] = &[
    (Ask::CloseSwept(0, 120), ("NotHeld", 0, 0)),
    (Ask::Take(0), ("Node", 0, 0)),
    (Ask::CloseSwept(0, 120), ("NoPrices", 0, 0)),
    (Ask::Prices(8500), ("Priced", 0, 0)),
    (Ask::CloseSwept(0, 119), ("NotSwept", 0, 0)),
    (Ask::Post(20), ("Posted", 0, 0)),
    (Ask::CloseSwept(0, 119), ("Cheaper", 119, 120)),
    (Ask::Close(0, Ground::Swept(0)), ("NotSwept", 0, 0)),
    (Ask::CloseSwept(0, 120), ("Closed", 0, 0)),
    (Ask::Take(0), ("Done", 0, 0)),
    (Ask::Low, ("optimal", 120, 1)),
    (Ask::Events, ("events", 4, 0)),
];

const BELOW_THE_ROOT: &[(Ask, Told)] = &[
    (Ask::Take(0), ("Node", 0, 0)),
    (Ask::Split(0), ("Made", 1, 0)),
    (Ask::Take(0), ("Node", 1, 1)),
    (Ask::CloseSwept(1, 120), ("NotRoot", 0, 0)),
    (Ask::Events, ("events", 3, 0)),
];

// Costs are shown by the book's own prices and cuts.
const SHOWN: &[(Ask, Told)] = &[
    (Ask::ShowLow(1, 0, 100), ("NotHeld", 1, 0)),
    (Ask::ShowLow(0, 0, 70), ("NoPrices", 0, 0)),
    (Ask::Prices(8500), ("Priced", 0, 0)),
    (Ask::Prices(0), ("Priced", 1, 0)),
    (Ask::ShowLow(0, 2, 70), ("NoPrices", 2, 0)),
    (Ask::ShowLow(0, 0, 70), ("NotShown", 0, 0)),
    (Ask::Post(20), ("Posted", 0, 0)),
    (Ask::ShowLow(0, 1, 70), ("NotShown", 0, 0)),
    (Ask::ShowLow(0, 0, 70), ("Lower", 70, 70)),
    (Ask::Shown(0), ("none", 0, 0)),
    (Ask::ShowLow(0, 0, 71), ("LowShown", 0, 0)),
    (Ask::Shown(0), ("shown", 0, 71)),
    (Ask::Events, ("events", 4, 0)),
];

// What was shown of a slot is told below the best cost, and goes when the slot is split: the low is the bound
// of its child again.
const LOWS: &[(Ask, Told)] = &[
    (Ask::Post(20), ("Posted", 0, 0)),
    (Ask::Prices(8500), ("Priced", 0, 0)),
    (Ask::Low, ("low", 70, 0)),
    (Ask::ShowLow(0, 0, 100), ("LowShown", 0, 0)),
    (Ask::Low, ("low", 100, 0)),
    (Ask::ShowLow(0, 0, 99), ("Lower", 99, 100)),
    (Ask::Low, ("low", 100, 0)),
    (Ask::ShowLow(0, 0, 119), ("LowShown", 0, 0)),
    (Ask::Low, ("low", 119, 0)),
    (Ask::ShowLow(0, 0, 120), ("LowShown", 0, 0)),
    (Ask::ShowLow(0, 0, 120), ("Lower", 120, 120)),
    (Ask::Low, ("low", 119, 0)),
    (Ask::Take(0), ("Node", 0, 0)),
    (Ask::Low, ("low", 119, 1)),
    (Ask::Split(0), ("Made", 1, 0)),
    (Ask::Low, ("low", 70, 1)),
    (Ask::ShowLow(0, 0, 110), ("NotHeld", 0, 0)),
    (Ask::ShowLow(1, 0, 110), ("NotShown", 0, 0)),
    (Ask::Low, ("low", 70, 1)),
    (Ask::Events, ("events", 7, 0)),
];

/// The width of a chamber, what is asked of the book of two ships before it, and its slots in the end.
type Worked = (u32, &'static [(Ask, Told)], &'static [SlotState]);

const WORKED: &[Worked] = &[
    (NARROW, REFUSED, &[SlotState::Split(1), SlotState::Fresh]),
    (
        NARROW,
        BY_THE_CUT,
        &[
            SlotState::Split(1),
            SlotState::Split(2),
            SlotState::Closed(Ground::Cut(0)),
            SlotState::Closed(Ground::Bound),
            SlotState::Closed(Ground::Bound),
        ],
    ),
    (
        240,
        REPLACED,
        &[
            SlotState::Split(1),
            SlotState::Split(2),
            SlotState::Closed(Ground::Bound),
            SlotState::Closed(Ground::Bound),
            SlotState::Closed(Ground::Bound),
        ],
    ),
    (NARROW, BY_A_SWEEP, &[SlotState::Closed(Ground::Swept(0))]),
    (
        NARROW,
        BELOW_THE_ROOT,
        &[SlotState::Split(1), SlotState::Held(0)],
    ),
    (NARROW, SHOWN, &[SlotState::Fresh]),
    (NARROW, LOWS, &[SlotState::Split(1), SlotState::Fresh]),
];

// The slots have these states, and there is no other one.
fn expect_slots(rt: &impl Abort, book: &Book, states: &[SlotState]) {
    for id in 0..=book.slots() {
        assert!(rt; book.slot_state(id) == states.get(id as usize).copied());
    }
}

// A book for three nodes answers each of these so, one after the other.
fn expect_all(rt: &impl Abort, alloc: Global, worked: &Worked) -> Result<(), Fail> {
    let mut book = open(alloc, two_ships(worked.0), 3, 128)?;
    for (ask, wanted) in worked.1 {
        assert!(rt; told(alloc, &mut book, ask) == Some(*wanted));
    }
    expect_slots(rt, &book, worked.2);
    Ok(())
}

#[test]
fn books_answer_as_the_tables_say(rt: HostRuntime) -> Result<(), Fail> {
    for worked in WORKED {
        expect_all(&rt, rt.alloc(), worked)?;
    }
    Ok(())
}
