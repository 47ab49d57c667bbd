//! A day as a list of beats.
ghost use Rattle.std.specs.Prelude.{◌≡◌, ◌<◌, ◌≤◌, ℕ, [], length};
ghost use Rattle.day_play.specs.Order.{minute_of, put_by, beat_at};

use crate::beat::Beat;
use arrayvec::ArrayVec;
use lock_model::SHIPS;
use std::marker::Model;

/// The beats of a day, at most: four for each ship.
pub const BEATS: usize = 4 * SHIPS;

/// Up to `BEATS` beats.
#[derive(Drop)]
pub struct Day {
    items: ArrayVec<Beat, BEATS>,
}

impl Model for Day {
    ghost use Rattle.std.specs.Prelude.{List};
    ghost use Rattle.day_play.specs.declared.beat.Beat.{Beat};

    ghost Value = { List Beat };

    ghost view = { λ a. a.items.items };

    ghost inverse = { λ xs. record { items = record { items = xs } } };
}

/// The index of the first beat after the minute, or their number where there is none.
fn first_after(beats: &[Beat], minute: u64) -> usize
    ensures within { result ≤ length beats.now }
    ensures before { (k : ℕ) → k < result → (beat_at beats.now k).minute ≤ minute }
    ensures after { result < length beats.now → minute < (beat_at beats.now result).minute }
{
    for (i, beat) in beats.iter().enumerate() {
        if minute < beat.minute {
            return i;
        }
    }
    beats.len()
}

impl Day {
    /// No beats.
    pub fn new() -> Day
        ensures { result ≡ [] }
    {
        Day {
            items: ArrayVec::new(),
        }
    }

    /// The beats in order.
    pub fn as_slice(&self) -> &[Beat]
        ensures value { result.now ≡ self.now }
        ensures fits { length result.now ≤ BEATS }
    {
        self.items.as_slice()
    }

    /// Puts a beat behind the last one that is no later.
    pub(crate) fn put(&mut self, beat: Beat)
        requires { length self.old < BEATS }
        ensures { self.new ≡ put_by minute_of beat self.old }
    {
        let at = first_after(self.items.as_slice(), beat.minute);
        self.items.insert(at, beat);
    }
}
