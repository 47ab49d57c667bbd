//! Where ships lie across the chamber, as far as a case decides it.

use deck_cases::{Choice, host_of, width_of, y_of};
use lock_model::Deck;

/// What a ship covers across the chamber: nothing that is known, more than the chamber has, or from
/// its near side to its far side, in decimetres.
#[derive(Clone, Copy, PartialEq, Eq)]
pub(crate) enum Strip {
    Unknown,
    Outside,
    Inside(u32, u32),
}

/// What a ship covers across the chamber, and its decided host.
#[derive(Clone, Copy, PartialEq, Eq)]
pub(crate) struct Lane {
    pub(crate) strip: Strip,
    pub(crate) host: Option<u8>,
}

/// The lane of a ship of which nothing is decided.
pub(crate) const OPEN: Lane = Lane {
    strip: Strip::Unknown,
    host: None,
};

// What a ship covers whose y is known.
fn strip_at(deck: &Deck, ship: u8, y: i64) -> Strip {
    let far = y.saturating_add(width_of(deck, ship as u32) as i64);
    if 0 <= y && y <= far && far <= deck.width as i64 {
        Strip::Inside(y as u32, far as u32)
    } else {
        Strip::Outside
    }
}

/// The lane of a ship.
pub(crate) fn lane_of(deck: &Deck, choices: &[Choice], ship: u8) -> Lane {
    let strip = match y_of(deck, choices, ship as u32) {
        None => Strip::Unknown,
        Some(y) => strip_at(deck, ship, y),
    };
    Lane {
        strip,
        host: host_of(choices, ship as u32),
    }
}

// Whether two strips overlap, with the side gap between them.
fn do_cross(deck: &Deck, first: Strip, second: Strip) -> bool {
    match (first, second) {
        (Strip::Inside(near, far), Strip::Inside(low, high)) => {
            let side = deck.side as u64;
            (low as u64) < far as u64 + side && (near as u64) < high as u64 + side
        }
        _ => false,
    }
}

/// Whether two ships lie one behind the other, as far as their lanes tell it.
pub(crate) fn are_in_line(deck: &Deck, first: Lane, second: Lane) -> bool {
    (first.host.is_some() && first.host == second.host) || do_cross(deck, first.strip, second.strip)
}
