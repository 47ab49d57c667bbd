//! A seat.
ghost use Rattle.std.specs.Prelude.{◌≡◌};

use crate::view::View;
use atomic_table::Seat;
use std::marker::Model;

/// What one user of the word holds: at least one part, and a view.
#[derive(Drop)]
pub struct BoundSeat {
    pub(crate) seat: Seat<u8, View>,
    pub(crate) parts: u8,
}

impl Model for BoundSeat {
    ghost use Rattle.std.specs.Prelude.{◌≡◌, ◌<◌, []};
    ghost use Rattle.bound_word.specs.Seats.{Placed};

    ghost Value = { Placed };

    ghost view = { λ s. record { table = s.seat.table_id; view = s.seat.me.0 } };

    ghost invariant = { λ s. (s.parts ≡ s.seat.me.0.parts) × (0 < s.parts) × (s.seat.me.0.whole < 256) × (s.seat.me.1 ≡ []) };
}

impl BoundSeat {
    /// How many parts the seat holds, 1 to 255. Takes no memory.
    pub fn parts(&self) -> u8
        ensures { result ≡ self.now.view.parts }
    {
        self.parts
    }
}
