//! The slot that a worker was given.
ghost use Rattle.search_worker.specs.Serving.{Serves};

use crate::post::Post;
use crate::stop::Stop;
use crate::worker::{Held, SHORT, Worker};
use book_core::{Refusal, Reply};
use gates::{Gate, Point};
use std::mem;
use std::sync::Wait;
use std::sync::ledger::Ledger;

/// The slot that the worker took, and its node; it waits where none was open but one may come, and
/// tells the gate before. None where nothing is open or held, or the nodes are spent.
pub(crate) fn taken<L: Ledger, W: Wait, G: Gate>(
    post: &Post<'_, L, W, G>,
    worker: &mut Worker<L>,
) -> Result<Option<Held>, Stop>
    requires serves { Serves post.now worker.old }
    ensures serves { Serves post.now worker.new }
{
    if let Reply::Refused(Refusal::Idle) = worker.taken {
        post.gate.at(worker.number, Point::Idle);
        worker.reach = SHORT;
        let share = &mut worker.hands.share;
        worker.taken = post.book.take_or_wait(post.rt, share, worker.number);
    }
    match mem::replace(&mut worker.taken, Reply::Refused(Refusal::Idle)) {
        Reply::Node(id, node) => Ok(Some(Held { id, node })),
        Reply::Refused(Refusal::Done | Refusal::NodesSpent(_)) => Ok(None),
        _ => Err(Stop),
    }
}
