//! What a worker makes of prices at the node in its hand: its desk is the post.
ghost use Rattle.std.specs.Prelude.{⊤};
ghost use Rattle.master_branch.specs.Node.{IsNodeOf};
ghost use Rattle.search_worker.specs.Serving.{Serves};

use crate::asking::{ask, finish_by};
use crate::knowing::posted_cuts;
use crate::post::Post;
use crate::sharing::{give, post_cut};
use crate::stop::Stop;
use crate::worker::Worker;
use book_core::{Foreseen, Reply};
use deck_cuts::Cut;
use gates::{Gate, Point};
use lock_model::{Instance, Plan};
use master_branch::Node;
use node_work::Fate;
use placed_groups::Memory;
use price_search::{Asked, Desk, InHand, Pricing, Round, price};
use price_terms::{Prices, Shown};
use search_book::{Closing, Event};
use std::alloc::Global;
use std::mem;
use std::sync::Wait;
use std::sync::ledger::Ledger;

/// Whether a worker's prices are to be asked before a node ends by this fate: one that would be split,
/// where there are prices that may serve.
pub(crate) fn is_for_prices(
    pricing: &Option<Pricing>,
    fate: &Fate,
    foreseen: &Foreseen<'_>,
) -> bool {
    let ships = foreseen.instance.ships.as_slice().len();
    match (fate, pricing) {
        (Fate::Split, Some(pricing)) => pricing.serves(foreseen.node.depth(), ships),
        _ => false,
    }
}

// Where the shared book refuses an event, the worker ends.
impl<L: Ledger, W: Wait, G: Gate> Desk for Post<'_, L, W, G> {
    type Hand = Worker<L>;

    type Stop = Stop;

    ghost instance = { λ post. post.search.instance.now };

    ghost serves = { λ post worker. Serves post worker };

    ghost holds = { λ _ _ _ _. ⊤ };

    ghost freed = { λ _ _ _. ⊤ };

    fn instance(&self) -> &Instance {
        self.search.instance
    }

    fn alloc(&self) -> Global {
        self.alloc
    }

    fn best_cost(&self, worker: &mut Worker<L>, _held: &InHand<'_>) -> u64 {
        self.word.load(&mut worker.hands.seat)
    }

    fn learn(
        &self,
        worker: &mut Worker<L>,
        pricing: &mut Pricing,
        _held: &InHand<'_>,
    ) -> Result<(), Stop> {
        self.book.learn_cuts(self.rt, pricing.cuts_mut())?;
        let cuts = pricing.cuts_mut().len() as u64;
        self.gate.at(worker.number, Point::Knows(cuts));
        Ok(())
    }

    fn round(
        &self,
        worker: &mut Worker<L>,
        memory: &mut Memory,
        pricing: &mut Pricing,
        held: &InHand<'_>,
    ) -> Result<Round, Stop> {
        let best = self.word.load(&mut worker.hands.seat);
        let known = posted_cuts(self.pool, &worker.tokens);
        let asked = Asked {
            search: &self.search,
            node: held.node,
            best,
            known: &known,
        };
        Ok(pricing.round(self.alloc, &asked, memory)?)
    }

    fn post(&self, worker: &mut Worker<L>, _held: &InHand<'_>, cut: Cut) -> Result<(), Stop> {
        post_cut(self, worker, Box::new(self.alloc, cut)?)?;
        Ok(())
    }

    fn give(&self, worker: &mut Worker<L>, _held: &InHand<'_>, plan: Plan) -> Result<(), Stop> {
        give(self, worker, Box::new(self.alloc, plan)?)
    }

    fn post_prices(
        &self,
        worker: &mut Worker<L>,
        _held: &InHand<'_>,
        prices: &Prices,
    ) -> Result<Option<u64>, Stop> {
        let copy = Box::new(self.alloc, prices.copy())?;
        match ask(self, worker, Event::PostPrices(copy)) {
            Reply::Priced(number) => Ok(Some(number)),
            _ => Err(Stop),
        }
    }

    // The next slot is taken where the book took that.
    fn close_shown(
        &self,
        worker: &mut Worker<L>,
        held: &InHand<'_>,
        number: u64,
        shown: &Shown<'_>,
    ) -> bool {
        let closing = Closing {
            id: held.id,
            number,
            shown,
        };
        finish_by(self, worker, &closing)
    }

    // Whoever worked on the node above, the board has what it left.
    fn inherit(&self, pricing: &mut Pricing, held: &InHand<'_>) {
        let offer = match (self.board, self.book.parent(self.rt, held.id)) {
            (Some(board), Some(parent)) => board.offer(self.rt, parent),
            _ => None,
        };
        pricing.go_with(offer);
    }

    fn leave(&self, pricing: &mut Pricing, held: &InHand<'_>) -> Result<(), Stop> {
        if let Some(board) = self.board {
            board.keep(self.rt, held.id, pricing.offer())?;
        }
        Ok(())
    }

    fn tell_number(&self, held: &InHand<'_>, number: u64) {
        if let (Some(board), Some(parent)) = (self.board, self.book.parent(self.rt, held.id)) {
            board.posted(self.rt, parent, number);
        }
    }
}

/// Asks prices about the held node, if the worker has any, and carries out what they find; whether the
/// node was closed and the next slot taken.
pub(crate) fn price_held<L: Ledger, W: Wait, G: Gate>(
    post: &Post<'_, L, W, G>,
    worker: &mut Worker<L>,
    id: u32,
    node: &Node,
) -> Result<bool, Stop>
    requires serves { Serves post.now worker.old }
    requires node { IsNodeOf post.now.search.instance.now node.now }
    ensures serves { Serves post.now worker.new }
{
    let Some(mut pricing) = mem::replace(&mut worker.pricing, None) else {
        return Ok(false);
    };
    let mut memory = mem::replace(&mut worker.memory, Memory::new(post.alloc));
    let held = InHand { id, node };
    post.gate.at(worker.number, Point::Prices(node.depth()));
    let closed = price(post, worker, &mut memory, &mut pricing, &held);
    worker.memory = memory;
    worker.pricing = Some(pricing);
    closed
}
