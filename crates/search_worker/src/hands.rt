//! What a worker owns.
ghost use Rattle.std.specs.Prelude.{◌≡◌};

use bound_word::BoundSeat;
use std::sync::ledger::{Ledger, Share};

/// What a worker owns while it searches: one part of the ledger of accepted events, and one part of
/// the shared best cost.
#[derive(Drop)]
pub struct Hands<L: Ledger> {
    pub share: Share<L>,
    pub seat: BoundSeat,
    pub ghost one_part: { share.parts ≡ 1 },
    pub ghost one_seat: { seat.view.parts ≡ 1 },
}

// What one thread may hand to another.
fn may_hand_over<T: Drop + Send>(_value: T) {}

/// A thread may be handed what a worker owns.
pub(crate) fn may_own<L: Ledger + Send>(hands: Hands<L>) {
    may_hand_over(hands)
}
