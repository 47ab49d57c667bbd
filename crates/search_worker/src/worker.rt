//! A worker.
ghost use Rattle.std.specs.Prelude.{◌≡◌, ◌<◌, ◌≤◌, []};
ghost use Rattle.lock_model.specs.declared.limits.TheConstants.{WORKERS};

use crate::hands::Hands;
use crate::trail::Trail;
use book_core::{Refusal, Reply};
use cut_pool::Tokens;
use lock_model::WORKERS;
use master_branch::Node;
use placed_groups::Memory;
use price_search::Pricing;
use std::alloc::Global;
use std::sync::ledger::Ledger;

/// A slot in a worker's hand, and its node.
#[derive(Drop)]
pub(crate) struct Held {
    pub(crate) id: u32,
    pub(crate) node: Node,
}

/// The fewest nodes that a worker goes ahead at the most.
pub(crate) const SHORT: u32 = 16;

/// What one worker has as it searches: its number, what it owns, the tokens of the cuts that it
/// posted, what the placers told it, what the book answered when it took a slot last, where it is on
/// its way ahead of the book, how many nodes it goes ahead at the most, on how many it worked, and its
/// prices, where it has any.
#[derive(Drop)]
pub struct Worker<L: Ledger> {
    pub(crate) number: u8,
    pub(crate) hands: Hands<L>,
    pub(crate) tokens: Tokens,
    pub(crate) memory: Memory,
    pub(crate) taken: Reply,
    pub(crate) trail: Trail,
    pub(crate) reach: u32,
    pub(crate) worked: u32,
    pub(crate) pricing: Option<Pricing>,
    pub(crate) ghost numbered: { number < WORKERS },
    pub(crate) ghost within: { reach ≤ 256 },
}

impl<L: Ledger> Worker<L> {
    /// A worker that has posted nothing, was told nothing and has taken nothing yet.
    pub(crate) fn new(
        alloc: Global,
        number: u8,
        hands: Hands<L>,
        pricing: Option<Pricing>,
    ) -> Worker<L>
        requires { number < WORKERS }
        ensures hands { result.hands ≡ hands }
        ensures tokens { result.tokens ≡ [] }
    {
        Worker {
            number,
            hands,
            tokens: Tokens::new(alloc),
            memory: Memory::new(alloc),
            taken: Reply::Refused(Refusal::Idle),
            trail: Trail::new(alloc),
            reach: SHORT,
            worked: 0,
            pricing,
        }
    }
}
