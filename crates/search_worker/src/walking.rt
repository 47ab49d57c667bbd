//! The way ahead of the book: nodes below the one in the worker's hand are worked out without the
//! lock, depth first and in the book's own order, and handed to the book in one holding of it.
ghost use Rattle.std.specs.Prelude.{◌≡◌, ◌<◌, length, IfOk};
ghost use Rattle.search_worker.specs.Ending.{MayEnd};
ghost use Rattle.search_worker.specs.Serving.{Serves};

use crate::knowing::posted_cuts;
use crate::post::Post;
use crate::pricing::is_for_prices;
use crate::sharing::post_cut;
use crate::stop::Stop;
use crate::trail::Trail;
use crate::worker::Worker;
use book_core::Foreseen;
use closing_rules::Ground;
use gates::Gate;
use node_work::{Fate, inner_fate};
use search_book::{Ending, Stretch};
use std::sync::Wait;
use std::sync::ledger::Ledger;

/// What becomes of a node that lacks ships.
#[tactic(auto, using(crate::proofs::FateLemmas::may_end))]
pub(crate) fn foreseen_fate<L: Ledger, W: Wait, G: Gate>(
    post: &Post<'_, L, W, G>,
    worker: &mut Worker<L>,
    foreseen: &Foreseen<'_>,
    best: u64,
) -> Result<Fate, Stop>
    requires serves { Serves post.now worker.old }
    requires instance { foreseen.now.instance.now ≡ post.now.search.instance.now }
    ensures serves { Serves post.now worker.new }
    ensures may { IfOk result MayEnd }
{
    let known = posted_cuts(post.pool, &worker.tokens);
    let memory = &mut worker.memory;
    let fate = inner_fate(
        post.alloc,
        &post.search,
        &foreseen.probed(),
        best,
        &known,
        memory,
    )?;
    Ok(fate)
}

/// How a node of this fate ends where the book needs no more than the bounds of its children; a new
/// cut is posted before. None where the book needs more.
pub(crate) fn simple_ending<L: Ledger, W: Wait, G: Gate>(
    post: &Post<'_, L, W, G>,
    worker: &mut Worker<L>,
    fate: Fate,
) -> Result<Option<Ending>, Stop>
    requires serves { Serves post.now worker.old }
    ensures serves { Serves post.now worker.new }
{
    match fate {
        Fate::Split => Ok(Some(Ending::Split)),
        Fate::Closed(why) => Ok(Some(Ending::Close(why))),
        Fate::Refuted(cut) => {
            let number = post_cut(post, worker, cut)?;
            Ok(Some(Ending::Close(Ground::Cut(number))))
        }
        Fate::Plan(_) | Fate::Spent(_, _, _) => Ok(None),
    }
}

/// Puts a node behind the others of the stretch, and goes on below it if it is split.
pub(crate) fn append<'s>(
    trail: &mut Trail,
    stretch: &mut Stretch<'s>,
    foreseen: Foreseen<'s>,
    ending: Ending,
) -> Result<(), Stop>
    requires instance { foreseen.instance.now ≡ stretch.old.instance.now }
    ensures stretch { stretch.new.instance.now ≡ stretch.old.instance.now }
    ensures some { IfOk result (λ _. 0 < length stretch.new.nodes.items) }
{
    if let Ending::Split = ending {
        trail.enter(stretch.nodes.len())?;
    }
    stretch.push(foreseen, ending)?;
    Ok(())
}

// Works out one node more, if there is one, it lacks ships, and it ends simply and without prices;
// says whether that is so.
fn step<'s, L: Ledger, W: Wait, G: Gate>(
    post: &Post<'s, L, W, G>,
    worker: &mut Worker<L>,
    stretch: &mut Stretch<'s>,
    best: u64,
) -> Result<bool, Stop>
    requires serves { Serves post.now worker.old }
    requires stretch { stretch.old.instance.now ≡ post.now.search.instance.now }
    requires some { 0 < length stretch.old.nodes.items }
    ensures serves { Serves post.now worker.new }
    ensures stretch { stretch.new.instance.now ≡ post.now.search.instance.now }
    ensures some { IfOk result (λ _. 0 < length stretch.new.nodes.items) }
{
    let search = &post.search;
    let Some(node) = worker.trail.next(search, stretch, best) else {
        return Ok(false);
    };
    if node.depth() as usize >= search.instance.ships.as_slice().len() {
        return Ok(false);
    }
    let foreseen = Foreseen::new(search.instance, &search.roster, node);
    let fate = foreseen_fate(post, worker, &foreseen, best)?;
    if is_for_prices(&worker.pricing, &fate, &foreseen) {
        return Ok(false);
    }
    match simple_ending(post, worker, fate)? {
        Some(ending) => {
            worker.worked = worker.worked.saturating_add(1);
            append(&mut worker.trail, stretch, foreseen, ending)?;
            Ok(true)
        }
        None => Ok(false),
    }
}

/// Works out the nodes below those of the stretch, in the book's order: so many at the most, and up
/// to the first one for which the book needs more than bounds, or prices are to be asked.
pub(crate) fn walk<'s, L: Ledger, W: Wait, G: Gate>(
    post: &Post<'s, L, W, G>,
    worker: &mut Worker<L>,
    stretch: &mut Stretch<'s>,
    best: u64,
    most: u32,
) -> Result<(), Stop>
    requires serves { Serves post.now worker.old }
    requires stretch { stretch.old.instance.now ≡ post.now.search.instance.now }
    requires some { 0 < length stretch.old.nodes.items }
    ensures serves { Serves post.now worker.new }
    ensures stretch { stretch.new.instance.now ≡ post.now.search.instance.now }
    ensures some { IfOk result (λ _. 0 < length stretch.new.nodes.items) }
{
    for _ in 0..most {
        if !step(post, worker, stretch, best)? {
            return Ok(());
        }
    }
    Ok(())
}
