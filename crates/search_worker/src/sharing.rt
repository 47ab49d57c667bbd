//! What a worker lets the others see.
ghost use Rattle.std.specs.Prelude.{All};
ghost use Rattle.boxcar.specs.Table.{Shows};
ghost use Rattle.search_worker.specs.Serving.{Serves};

use crate::asking::ask;
use crate::post::Post;
use crate::stop::Stop;
use crate::worker::Worker;
use book_core::{Refusal, Reply};
use cut_pool::{Pool, Tokens};
use deck_cuts::{Cut, copy_cut};
use gates::Gate;
use lock_model::Plan;
use search_book::Event;
use std::sync::Wait;
use std::sync::ledger::Ledger;

// Posts a cut of the book to the pool. Without memory the others find it in the book alone.
fn show_cut<W: Wait>(pool: &Pool, rt: &W, tokens: &mut Tokens, cut: Cut, number: u64)
    requires posted { All (λ token. Shows pool.now token) tokens.old }
    ensures posted { All (λ token. Shows pool.now token) tokens.new }
{
    if let Ok(token) = pool.post(rt, cut, number) {
        let _ = tokens.add(token);
    }
}

/// Posts a cut to the book, and a copy with its number to the pool. The pool goes without where there
/// is no memory for the copy.
pub(crate) fn post_cut<L: Ledger, W: Wait, G: Gate>(
    post: &Post<'_, L, W, G>,
    worker: &mut Worker<L>,
    cut: Box<Cut>,
) -> Result<u64, Stop>
    requires serves { Serves post.now worker.old }
    ensures serves { Serves post.now worker.new }
{
    let copy = copy_cut(&*cut).ok();
    let Reply::Posted(number) = ask(post, worker, Event::Post(cut)) else {
        return Err(Stop);
    };
    if let Some(copy) = copy {
        show_cut(post.pool, post.rt, &mut worker.tokens, copy, number);
    }
    Ok(number)
}

/// Gives a plan to the book, which may have one that is as cheap. Where the book took it, the shared best
/// cost is lowered to its cost.
pub(crate) fn give<L: Ledger, W: Wait, G: Gate>(
    post: &Post<'_, L, W, G>,
    worker: &mut Worker<L>,
    plan: Box<Plan>,
) -> Result<(), Stop>
    requires serves { Serves post.now worker.old }
    ensures serves { Serves post.now worker.new }
{
    match ask(post, worker, Event::Replace(plan)) {
        Reply::Replaced(cost) => {
            post.word.lower(&mut worker.hands.seat, cost);
            Ok(())
        }
        Reply::Refused(Refusal::NotCheaper(_, _)) => Ok(()),
        _ => Err(Stop),
    }
}
