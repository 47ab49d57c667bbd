//! What workers share.
ghost use Rattle.lock_rules.specs.Arrival.{order_of};
ghost use Rattle.std.specs.Prelude.{◌≡◌};

use crate::board::Board;
use bound_word::BoundTable;
use cut_pool::Pool;
use gates::Gate;
use master_branch::ShipOrder;
use node_work::Search;
use search_book::SharedBook;
use std::alloc::Global;
use std::sync::Wait;
use std::sync::ledger::Ledger;

/// What workers share: the handles that they were lent, what is the same for all nodes, with the
/// ships by arrival, after how many nodes each ends, the prices that they leave each other, if any,
/// the book under its lock, and the cuts and the best cost beside it.
#[derive(Drop)]
pub struct Post<'s, L: Ledger, W: Wait, G: Gate> {
    pub rt: &'s W,
    pub alloc: Global,
    pub gate: &'s G,
    pub search: Search<'s>,
    pub order: ShipOrder,
    pub quota: u32,
    pub board: Option<&'s Board>,
    pub book: &'s SharedBook<L>,
    pub pool: &'s Pool,
    pub word: &'s BoundTable,
    pub ghost by_arrival: { order ≡ order_of search.instance.now },
}

// What threads may share.
fn may_share<T: Sync>(_shared: &T) {}

/// Threads may share all that workers share.
pub(crate) fn may_search_beside<L: Ledger + Send + Sync, W: Wait + Sync, G: Gate + Sync>(
    post: &Post<'_, L, W, G>,
) {
    may_share(post.search.instance);
    may_share(&post.board);
    may_share(post.book);
    may_share(post.pool);
    may_share(post.word);
}
