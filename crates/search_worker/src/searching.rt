//! The search of one worker.
ghost use Rattle.std.specs.Prelude.{◌≡◌, ◌<◌};
ghost use Rattle.search_worker.specs.Serving.{Serves};

use crate::asking::ask;
use crate::board::Board;
use crate::hands::Hands;
use crate::post::Post;
use crate::stop::Stop;
use crate::taking::taken;
use crate::worker::Worker;
use crate::working::work;
use gates::{Gate, Point};
use lock_model::WORKERS;
use price_search::Pricing;
use search_book::{Event, Stretch};
use std::alloc::Global;
use std::sync::Wait;
use std::sync::ledger::Ledger;

// Takes slots and works on them, until nothing is open or held, the nodes are spent, or the worker has
// worked on as many nodes as it is to. After a refusal a slot may be held still.
fn search_slots<'s, L: Ledger, W: Wait, G: Gate>(
    post: &Post<'s, L, W, G>,
    worker: &mut Worker<L>,
    stretch: &mut Stretch<'s>,
) -> Result<(), Stop>
    requires serves { Serves post.now worker.old }
    requires stretch { stretch.old.instance.now ≡ post.now.search.instance.now }
    ensures serves { Serves post.now worker.new }
{
    let number = worker.number;
    worker.taken = ask(post, worker, Event::Take(number));
    for _ in post.rt.forever() {
        let Some(held) = taken(post, worker)? else {
            return Ok(());
        };
        work(post, worker, stretch, held)?;
        post.gate.at(worker.number, Point::Closed);
        if worker.worked >= post.quota {
            return Err(Stop);
        }
    }
    unreachable!()
}

// A worker's own prices, if there are any; without memory it searches without.
fn pricing_of(board: Option<&Board>, alloc: Global) -> Option<Pricing> {
    board?.pricing(alloc)
}

/// Searches as worker `number`, below `WORKERS`, until nothing is open or held, the nodes are spent, or it has
/// worked on the post's quota of nodes. It has no refusal: where the quota is reached or memory is
/// refused, or the book answers what it answers no worker of these rules, the worker releases and
/// ends, so that no other waits for a node in its hand. That is done here alone, whatever stopped the
/// search. The quota is looked at once a stretch of nodes is handed over, so it may be passed by a
/// stretch. The hands come back, and their seat is of the same table. It waits for the lock, and for
/// other workers while no slot is open and one is held.
pub fn search<L: Ledger, W: Wait, G: Gate>(
    post: &Post<'_, L, W, G>,
    number: u8,
    hands: Hands<L>,
) -> Hands<L>
    requires number { number < WORKERS }
    requires seat { hands.seat.table ≡ post.now.word.now.table }
    ensures seat { result.seat.table ≡ hands.seat.table }
{
    let pricing = pricing_of(post.board, post.alloc);
    let mut worker = Worker::new(post.alloc, number, hands, pricing);
    let mut stretch = Stretch::new(post.alloc, post.search.instance);
    if let Err(Stop) = search_slots(post, &mut worker, &mut stretch) {
        ask(post, &mut worker, Event::Release(number));
    }
    worker.hands
}
