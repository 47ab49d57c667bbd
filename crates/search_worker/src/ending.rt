//! How the node in the worker's hand ends.
ghost use Rattle.search_worker.specs.Ending.{MayEnd};
ghost use Rattle.search_worker.specs.Serving.{Serves};

use crate::asking::finish;
use crate::post::Post;
use crate::sharing::{give, post_cut};
use crate::stop::Stop;
use crate::worker::Worker;
use closing_rules::Ground;
use gates::Gate;
use node_work::Fate;
use search_book::Event;
use std::sync::Wait;
use std::sync::ledger::Ledger;

/// Ends the held node as its fate says: it is closed or split, or its plan goes to the book and closes it,
/// since its bound is the plan's cost, or a cut that hits it is posted and closes it, or it is parked. Then
/// the next slot is taken. After a refusal the node may be held still.
pub(crate) fn end<L: Ledger, W: Wait, G: Gate>(
    post: &Post<'_, L, W, G>,
    worker: &mut Worker<L>,
    id: u32,
    fate: Fate,
) -> Result<(), Stop>
    requires serves { Serves post.now worker.old }
    requires may { MayEnd fate }
    ensures serves { Serves post.now worker.new }
{
    match fate {
        Fate::Closed(why) => finish(post, worker, Event::Close(id, why)),
        Fate::Split => finish(post, worker, Event::Split(id)),
        Fate::Plan(plan) => {
            give(post, worker, plan)?;
            finish(post, worker, Event::Close(id, Ground::Bound))
        }
        Fate::Refuted(cut) => {
            let number = post_cut(post, worker, cut)?;
            finish(post, worker, Event::Close(id, Ground::Cut(number)))
        }
        Fate::Spent(chamber, place, hard) => {
            finish(post, worker, Event::Park(id, chamber, place, hard))
        }
    }
}
