//! The work on the node in the worker's hand.
ghost use Rattle.std.specs.Prelude.{◌≡◌, ◌<◌, length, IfOk};
ghost use Rattle.master_branch.specs.Node.{IsNodeOf};
ghost use Rattle.search_worker.specs.Serving.{Serves};

use crate::asking::{finish, go_ahead};
use crate::ending::end;
use crate::knowing::posted_cuts;
use crate::post::Post;
use crate::pricing::{is_for_prices, price_held};
use crate::stop::Stop;
use crate::trusting::is_node_of;
use crate::walking::{append, foreseen_fate, simple_ending, walk};
use crate::worker::{Held, Worker};
use book_core::Foreseen;
use flow_bounds::bound;
use gates::{Gate, Point};
use node_work::{Fate, closed_early, whole_fate};
use search_book::{Ending, Event, Stretch};
use std::sync::Wait;
use std::sync::ledger::Ledger;

// How many nodes a worker goes ahead at the most, once the others have had time to find work.
const LONG: u32 = 256;

// Works on the held node, which holds all ships.
#[tactic(auto, using(crate::proofs::FateLemmas::may_end_anyway))]
fn work_whole<L: Ledger, W: Wait, G: Gate>(
    post: &Post<'_, L, W, G>,
    worker: &mut Worker<L>,
    held: &Held,
) -> Result<(), Stop>
    requires serves { Serves post.now worker.old }
    requires node { IsNodeOf post.now.search.instance.now held.now.node }
    requires whole { held.now.node.depth ≡ length post.now.search.instance.now.ships }
    ensures serves { Serves post.now worker.new }
{
    worker.worked = worker.worked.saturating_add(1);
    let known = posted_cuts(post.pool, &worker.tokens);
    let memory = &mut worker.memory;
    let fate = whole_fate(post.alloc, &post.search, &held.node, &known, memory)?;
    end(post, worker, held.id, fate)
}

// Begins a stretch with the held node, and works out the nodes below it. The gate is told how many.
fn go_below<'s, L: Ledger, W: Wait, G: Gate>(
    post: &Post<'s, L, W, G>,
    worker: &mut Worker<L>,
    stretch: &mut Stretch<'s>,
    foreseen: Foreseen<'s>,
    ending: Ending,
    best: u64,
) -> Result<(), Stop>
    requires serves { Serves post.now worker.old }
    requires stretch { stretch.old.instance.now ≡ post.now.search.instance.now }
    requires instance { foreseen.instance.now ≡ post.now.search.instance.now }
    ensures serves { Serves post.now worker.new }
    ensures stretch { stretch.new.instance.now ≡ post.now.search.instance.now }
    ensures some { IfOk result (λ _. 0 < length stretch.new.nodes.items) }
{
    stretch.clear();
    worker.trail.clear();
    worker.worked = worker.worked.saturating_add(1);
    append(&mut worker.trail, stretch, foreseen, ending)?;
    let before = worker.worked;
    let most = worker.reach;
    worker.reach = (2 * most).min(LONG);
    walk(post, worker, stretch, best, most)?;
    let below = worker.worked.saturating_sub(before);
    post.gate.at(worker.number, Point::Ahead(below));
    Ok(())
}

// Works on the held node, which lacks ships, and on the nodes below it.
fn work_inner<'s, L: Ledger, W: Wait, G: Gate>(
    post: &Post<'s, L, W, G>,
    worker: &mut Worker<L>,
    stretch: &mut Stretch<'s>,
    held: Held,
    best: u64,
) -> Result<(), Stop>
    requires serves { Serves post.now worker.old }
    requires stretch { stretch.old.instance.now ≡ post.now.search.instance.now }
    requires node { IsNodeOf post.now.search.instance.now held.node }
    requires lacks { held.node.depth < length post.now.search.instance.now.ships }
    ensures serves { Serves post.now worker.new }
    ensures stretch { stretch.new.instance.now ≡ post.now.search.instance.now }
{
    let Held { id, node } = held;
    let foreseen = Foreseen::new(post.search.instance, &post.search.roster, node);
    let fate = foreseen_fate(post, worker, &foreseen, best)?;
    if let Fate::Spent(_, _, _) = fate {
        return end(post, worker, id, fate);
    }
    let priced = is_for_prices(&worker.pricing, &fate, &foreseen);
    if priced && price_held(post, worker, id, &foreseen.node)? {
        return Ok(());
    }
    let Some(ending) = simple_ending(post, worker, fate)? else {
        return Err(Stop);
    };
    go_below(post, worker, stretch, foreseen, ending, best)?;
    go_ahead(post, worker, id, stretch)
}

// Works on the held node, where the best plan costs so much as far as it is seen from here.
fn work_on<'s, L: Ledger, W: Wait, G: Gate>(
    post: &Post<'s, L, W, G>,
    worker: &mut Worker<L>,
    stretch: &mut Stretch<'s>,
    held: Held,
    best: u64,
) -> Result<(), Stop>
    requires serves { Serves post.now worker.old }
    requires stretch { stretch.old.instance.now ≡ post.now.search.instance.now }
    requires node { IsNodeOf post.now.search.instance.now held.node }
    ensures serves { Serves post.now worker.new }
    ensures stretch { stretch.new.instance.now ≡ post.now.search.instance.now }
{
    let instance = post.search.instance;
    if let Some(why) = closed_early(&post.search, bound(instance, &held.node), best) {
        return finish(post, worker, Event::Close(held.id, why));
    }
    if (held.node.depth() as usize) < instance.ships.as_slice().len() {
        work_inner(post, worker, stretch, held, best)
    } else {
        work_whole(post, worker, &held)
    }
}

/// Works on a node that was taken until it is closed, split or parked, and on nodes below it, and
/// takes the next slot. The gate is told of the node, and of the best cost that is read for it. After
/// a refusal a node may be held still.
pub(crate) fn work<'s, L: Ledger, W: Wait, G: Gate>(
    post: &Post<'s, L, W, G>,
    worker: &mut Worker<L>,
    stretch: &mut Stretch<'s>,
    held: Held,
) -> Result<(), Stop>
    requires serves { Serves post.now worker.old }
    requires stretch { stretch.old.instance.now ≡ post.now.search.instance.now }
    ensures serves { Serves post.now worker.new }
    ensures stretch { stretch.new.instance.now ≡ post.now.search.instance.now }
{
    post.gate.at(worker.number, Point::Took(held.node.depth()));
    let best = post.word.load(&mut worker.hands.seat);
    post.gate.at(worker.number, Point::Read(best));
    if !is_node_of(&post.order, post.search.instance, &held.node) {
        return Err(Stop);
    }
    work_on(post, worker, stretch, held, best)
}
