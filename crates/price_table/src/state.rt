//! The states of a chamber on its line.
ghost use Rattle.std.specs.Prelude.{◌≡◌, ◌+◌, ◌*◌, ◌<◌, ◌≤◌};
ghost use Rattle.price_table.specs.Values.{side_of, state_key};

use lock_model::{SHIPS_AND_ROOT, Stand};

/// A chamber that has served the groups of its line before a place, stands so and is free at a
/// minute.
#[derive(Clone, Copy)]
pub(crate) struct State {
    pub(crate) place: u8,
    pub(crate) stand: Stand,
    pub(crate) minute: u64,
}

// 0 for the low side, 1 for the high one.
fn side(stand: Stand) -> u64
    ensures value { result ≡ side_of stand }
    ensures small { result ≤ 1 }
{
    match stand {
        Stand::Low => 0,
        Stand::High => 1,
    }
}

impl State {
    // A number that no other state has whose place is one of so many.
    #[inline(always)]
    pub(crate) fn key(&self, places: u64) -> u64
        requires few { places ≤ SHIPS_AND_ROOT }
        requires place { self.now.place < places }
        requires minute { self.now.minute ≤ 14000000 }
        ensures { result ≡ state_key places self.now }
    {
        (self.minute * places + self.place as u64) * 2 + side(self.stand)
    }
}
