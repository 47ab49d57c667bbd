//! A lockage of a day.
ghost use Rattle.std.specs.Prelude.{◌≡◌, ◌<◌, ◌≤◌, ◌^◌};
ghost use Rattle.picture_page.specs.Passages.{passage_end, digits_of, has};

use lock_model::{Ships, Way};

/// A lockage of a day: its number from 1 on, its place in the plan, its chamber, its way, its ships,
/// the minute of the empty turn before it where it has one, its start, and how many minutes it takes.
#[derive(Drop)]
pub(crate) struct Passage {
    pub(crate) number: u16,
    pub(crate) place: u8,
    pub(crate) chamber: u8,
    pub(crate) way: Way,
    pub(crate) ships: Ships,
    pub(crate) turn: Option<u32>,
    pub(crate) start: u32,
    pub(crate) long: u32,
}

/// Whether a ship is among others.
fn has(ship: u8, ships: &[u8]) -> bool
    ensures { result ≡ has ship ships.now }
{
    match ships {
        [] => false,
        [other, rest @ ..] => *other == ship || has(ship, rest),
    }
}

impl Passage {
    /// The minute of its end.
    pub(crate) fn end(&self) -> u64
        ensures value { result ≡ passage_end self.now }
        ensures small { result < 2 ^ 33 }
    {
        self.start as u64 + self.long as u64
    }

    /// How many digits its number has, which is at most 99.
    pub(crate) fn digits(&self) -> u64
        ensures value { result ≡ digits_of self.now.number }
        ensures small { result ≤ 2 }
    {
        if self.number < 10 { 1 } else { 2 }
    }

    /// Whether it serves a ship.
    pub(crate) fn serves(&self, ship: u8) -> bool
        ensures { result ≡ has ship self.now.ships }
    {
        has(ship, self.ships.as_slice())
    }

    /// The same passage.
    pub(crate) fn copy(&self) -> Passage
        ensures { result ≡ self.now }
    {
        Passage {
            number: self.number,
            place: self.place,
            chamber: self.chamber,
            way: self.way,
            ships: self.ships.copy(),
            turn: self.turn,
            start: self.start,
            long: self.long,
        }
    }
}
