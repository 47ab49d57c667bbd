//! What a worker asks of the shared book, under its lock.
ghost use Rattle.std.specs.Prelude.{◌<◌, length};
ghost use Rattle.search_book.specs.Events.{IsAllowed};
ghost use Rattle.search_worker.specs.Serving.{Serves};

use crate::post::Post;
use crate::stop::Stop;
use crate::worker::Worker;
use book_core::Reply;
use gates::Gate;
use search_book::{Closing, Event, Gone, Next, Stretch};
use std::sync::Wait;
use std::sync::ledger::Ledger;

/// Makes one event of the shared book.
pub(crate) fn ask<L: Ledger, W: Wait, G: Gate>(
    post: &Post<'_, L, W, G>,
    worker: &mut Worker<L>,
    event: Event,
) -> Reply
    requires serves { Serves post.now worker.old }
    requires allowed { IsAllowed event }
    ensures serves { Serves post.now worker.new }
{
    post.book.with_book(post.rt, &mut worker.hands.share, event)
}

// Keeps what the book answered to the taking after an ending that it accepted.
fn go_on(taken: &mut Reply, next: Next) -> Result<(), Stop> {
    match next {
        Next::Taken(reply) => {
            *taken = reply;
            Ok(())
        }
        Next::Refused(_) => Err(Stop),
    }
}

/// Ends the held node by an event for which the book has what it takes, and takes the next slot.
pub(crate) fn finish<L: Ledger, W: Wait, G: Gate>(
    post: &Post<'_, L, W, G>,
    worker: &mut Worker<L>,
    ending: Event,
) -> Result<(), Stop>
    requires serves { Serves post.now worker.old }
    requires allowed { IsAllowed ending }
    ensures serves { Serves post.now worker.new }
{
    let share = &mut worker.hands.share;
    let next = post
        .book
        .end_and_take(post.rt, share, worker.number, ending);
    go_on(&mut worker.taken, next)
}

/// Closes the held node by what was found of it beside the book, and takes the next slot. False where the
/// book refused that, and the node is held still.
pub(crate) fn finish_by<L: Ledger, W: Wait, G: Gate>(
    post: &Post<'_, L, W, G>,
    worker: &mut Worker<L>,
    closing: &Closing<'_>,
) -> bool
    requires serves { Serves post.now worker.old }
    ensures serves { Serves post.now worker.new }
{
    let share = &mut worker.hands.share;
    match post
        .book
        .close_and_take(post.rt, share, worker.number, closing)
    {
        Next::Taken(reply) => {
            worker.taken = reply;
            true
        }
        Next::Refused(_) => false,
    }
}

/// Ends the held node and the nodes after it as far as the book comes to them, and takes the next
/// slot.
pub(crate) fn go_ahead<L: Ledger, W: Wait, G: Gate>(
    post: &Post<'_, L, W, G>,
    worker: &mut Worker<L>,
    id: u32,
    stretch: &Stretch<'_>,
) -> Result<(), Stop>
    requires serves { Serves post.now worker.old }
    requires some { 0 < length stretch.now.nodes.items }
    ensures serves { Serves post.now worker.new }
{
    let share = &mut worker.hands.share;
    let Gone {
        place: _,
        id: _,
        next,
    } = post
        .book
        .go_ahead(post.rt, share, worker.number, id, stretch);
    go_on(&mut worker.taken, next)
}
