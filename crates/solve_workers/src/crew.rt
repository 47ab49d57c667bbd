//! What each worker of a search owns, before it works and after.
ghost use Rattle.std.specs.Prelude.{◌≡◌, ◌+◌, ◌≤◌, length, vec_len, vec_capacity, sum_by, All};

use bound_word::{BoundSeat, BoundTable};
use lock_model::WORKERS_AND_DRIVER;
use search_book::ShareList;
use search_worker::Hands;
use std::sync::ledger::Ledger;

// A worker's hands: a share and a part of the seat, where more than one of each is left.
fn hands_from<L: Ledger>(
    shares: &mut ShareList<L>,
    word: &BoundTable,
    seat: &mut BoundSeat,
) -> Hands<L>
    requires shares { All (λ share. share.parts ≡ 1) shares.old }
    requires some { 1 ≤ length shares.old }
    requires table { seat.old.table ≡ word.now.table }
    requires parts { 2 ≤ seat.old.view.parts }
    ensures shares { All (λ share. share.parts ≡ 1) shares.new }
    ensures count { length shares.new + 1 ≡ length shares.old }
    ensures rest { sum_by (λ share. share.parts) shares.new + 1 ≡ sum_by (λ share. share.parts) shares.old }
    ensures table { seat.new.table ≡ seat.old.table }
    ensures parts { seat.new.view.parts + 1 ≡ seat.old.view.parts }
    ensures hands { result.seat.table ≡ word.now.table }
{
    let Some(share) = shares.pop() else {
        unreachable!()
    };
    let seat = word.split(seat);
    Hands { share, seat }
}

/// Deals out one share and one part of the caller's seat to each worker. One share and one part are
/// left for the caller.
pub(crate) fn deal<L: Ledger>(
    shares: &mut ShareList<L>,
    word: &BoundTable,
    seat: &mut BoundSeat,
    crew: &mut Vec<Hands<L>>,
    workers: u8,
)
    requires shares { All (λ share. share.parts ≡ 1) shares.old }
    requires count { length shares.old ≡ workers + 1 }
    requires whole { sum_by (λ share. share.parts) shares.old ≡ workers + 1 }
    requires table { seat.old.table ≡ word.now.table }
    requires parts { seat.old.view.parts ≡ workers + 1 }
    requires empty { vec_len crew.old ≡ 0 }
    requires room { workers ≤ vec_capacity crew.old }
    ensures count { length shares.new ≡ 1 }
    ensures rest { sum_by (λ share. share.parts) shares.new ≡ 1 }
    ensures table { seat.new.table ≡ word.now.table }
    ensures parts { seat.new.view.parts ≡ 1 }
    ensures crew { vec_len crew.new ≡ workers }
    ensures seats { All (λ hands. hands.seat.table ≡ word.now.table) crew.new.items }
{
    for _worker in 0..workers {
        crew.push_reserved(hands_from(shares, word, seat));
    }
}

/// Takes back the shares and the parts of seats that the workers had.
pub(crate) fn gather<L: Ledger>(
    mut crew: Vec<Hands<L>>,
    shares: &mut ShareList<L>,
    word: &BoundTable,
    seat: &mut BoundSeat,
)
    requires few { length shares.old + vec_len crew ≤ WORKERS_AND_DRIVER }
    requires table { seat.old.table ≡ word.now.table }
    requires parts { seat.old.view.parts + vec_len crew ≤ WORKERS_AND_DRIVER }
    requires seats { All (λ hands. hands.seat.table ≡ word.now.table) crew.items }
    ensures shares { sum_by (λ share. share.parts) shares.new ≡ sum_by (λ share. share.parts) shares.old + vec_len crew }
    ensures table { seat.new.table ≡ word.now.table }
    ensures parts { seat.new.view.parts ≡ seat.old.view.parts + vec_len crew }
{
    while let Some(hands) = crew.pop() {
        let Hands { share, seat: other } = hands;
        shares.push(share);
        word.join(seat, other);
    }
}
