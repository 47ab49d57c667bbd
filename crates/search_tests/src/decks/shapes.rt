//! Reasons that are seen from the shapes of ships, found by hand.
use super::fixture::{NARROW, TWINS};
use crate::worked::{BASE, deck_of};
use lock_model::Measures;
use ship_shapes::{Quick, find_reason};

const BARE: Measures = Measures {
    length: 100,
    width: 50,
    end: 0,
    gap: 0,
    side: 0,
};

/// The measures of a chamber, the ships by length and width, and what is found: nothing, or a kind with its
/// ships.
type Worked = (
    Measures,
    &'static [(u32, u32)],
    (&'static str, &'static [u8]),
);

const NOTHING: (&'static str, &'static [u8]) = ("nothing", &[]);

const WORKED: &[Worked] = &[
    (
        Measures {
            length: 1360,
            width: 160,
            ..BASE
        },
        &[(800, 95), (670, 82)],
        ("row", &[0, 1]),
    ),
    (BASE, TWINS, NOTHING),
    (NARROW, TWINS, ("row", &[0, 1])),
    // flush along and across
    (BASE, &[(1980, 240)], NOTHING),
    // longer or wider than the chamber
    (BASE, &[(1981, 100)], ("row", &[0])),
    (BASE, &[(500, 241)], ("column", &[0])),
    // only all three together are too much
    (BARE, &[(60, 30), (60, 30), (60, 30)], ("area", &[])),
    (
        Measures {
            length: 1000,
            ..BASE
        },
        &[(600, 80), (600, 80), (600, 80)],
        ("column", &[0, 1, 2]),
    ),
    // number 3 before number 4, and number 2 before number 5
    (
        BASE,
        &[(1100, 200), (1100, 200), (1990, 10)],
        ("row", &[0, 1]),
    ),
    (BASE, &[(1000, 130), (1990, 10), (1100, 130)], ("row", &[1])),
];

fn told(reason: &Option<Quick>) -> (&'static str, &[u8]) {
    match reason {
        None => NOTHING,
        Some(Quick::Area) => ("area", &[]),
        Some(Quick::Row(ships)) => ("row", ships.as_slice()),
        Some(Quick::Column(ships)) => ("column", ships.as_slice()),
    }
}

fn holds(worked: &Worked) -> bool {
    match deck_of(worked.0, worked.1) {
        Some(deck) => told(&find_reason(&deck)) == worked.2,
        None => false,
    }
}

#[test]
fn the_first_reason_is_found(rt: HostRuntime) {
    for worked in WORKED {
        assert!(rt; holds(worked));
    }
}
