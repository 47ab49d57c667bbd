//! Prices that are kept from node to node.
ghost use Rattle.std.specs.Prelude.{◌≡◌, ◌↔◌, IsTrue, IfSome};
ghost use Rattle.master_branch.specs.Node.{IsNodeOf};
ghost use Rattle.price_search.specs.Serving.{MayServe};
ghost use Rattle.price_search.specs.Showing.{IsShownOf};

use crate::appending::append;
use crate::offers::Offer;
use lock_model::Instance;
use master_branch::Node;
use near_plan::Moves;
use no_memory::NoMemory;
use price_bound::{KeptLines, PricedNode, show};
use price_raise::{Ascent, Pace};
use price_terms::{ChamberCut, Prices, Shown};
use std::alloc::Global;

// The most rounds in a search.
const MOST_ROUNDS: u32 = 10_000;
/// The most rounds that are tried at a node; the pricing ends them before.
pub const MOST_AT_A_NODE: u32 = 4_000;
// A gap that is a greater part of the best cost is wide. It is told after so many rounds.
const WIDE_PART: u64 = 50;

const ROUNDS_BEFORE: u32 = 100;
// With fewer missing ships a node is searched faster than prices are worked out.
const FEWEST_MISSING: usize = 5;

// Most of what is gained comes in the first steps. Once the best cost is out of sight, the nodes below
// are closed sooner than more steps bring it nearer. The first node is left later, since all others
// begin with its prices.
const FIRST_PACE: Pace = Pace {
    steps: 200,
    kept: 3,
    patience: 15,
    span: 20,
    spans: 10,
    from_best: 0,
};

// Most of the last direction is kept: where a line serves the cheapest ship again and again, prices come
// near the best ones only so. The span is longer than the patience, so that a going back counts in it.
const STEADY_PACE: Pace = Pace {
    steps: 400,
    kept: 9,
    patience: 30,
    span: 80,
    spans: 10,
    from_best: 0,
};

// Labels of a sweep of many ships grow by a factor with each few minutes that the bound lacks, so steps are
// made until hardly anything is gained. A table takes long, and steps from the best prices come as far in half
// the time; but they begin later, since where prices reach the best cost the others find it sooner.
const LASTING_PACE: Pace = Pace {
    steps: 800,
    kept: 9,
    patience: 15,
    span: 80,
    spans: 200,
    from_best: 720,
};

const PACE: Pace = Pace {
    steps: 40,
    kept: 3,
    patience: 5,
    span: 5,
    spans: 3,
    from_best: 0,
};

/// How soon a search leaves its first node, which one thread prices.
#[derive(Clone, Copy)]
pub enum FirstNode {
    /// Late: the better its prices, the fewer nodes are below it.
    Long,
    /// Last, and by prices that turn slowly: chambers take few ships at a time.
    Steady,
    /// Not before prices hardly rise: there are many ships.
    Lasting,
}

impl FirstNode {
    // The pace at the first node.
    fn pace(self) -> Pace {
        match self {
            FirstNode::Long => FIRST_PACE,
            FirstNode::Steady => STEADY_PACE,
            FirstNode::Lasting => LASTING_PACE,
        }
    }

    // Whether a plan is made of the least lines in every round of the first node. Of many ships it takes little
    // beside their tables.
    fn plans_each_round(self) -> bool {
        match self {
            FirstNode::Lasting => true,
            FirstNode::Long | FirstNode::Steady => false,
        }
    }
}

/// The greatest cost, in minutes, that a sum of least lines and prices, in hundredths, reaches.
pub(crate) fn reached_by(sum: i64) -> u64 {
    (sum.max(0) as u64).div_ceil(100)
}

// The same cuts.
fn copy_cuts(alloc: Global, cuts: &[ChamberCut]) -> Result<Vec<ChamberCut>, NoMemory> {
    let mut copies = Vec::new(alloc);
    for cut in cuts {
        append(&mut copies, cut.copy())?;
    }
    Ok(copies)
}

// An ascent that begins with these prices. It takes some 30 KB, so it lies apart from who hands it on.
#[inline(never)]
fn ascent_of(alloc: Global, prices: &Prices, pace: Pace) -> Result<Box<Ascent>, NoMemory> {
    Box::new(alloc, Ascent::new(prices.copy(), pace)).map_err(|_| NoMemory)
}

/// The prices of the nodes on the way from the root to the one in hand, those that are raised at the
/// node in hand, how soon the first node is left, the first cuts of the book, how many rounds may be made
/// still, whether cuts may be looked for before there are lines, and least lines that are kept from call to
/// call.
#[derive(Drop)]
pub struct Pricing {
    pub(crate) path: Vec<Offer>,
    pub(crate) ascent: Box<Ascent>,
    pub(crate) first: FirstNode,
    pub(crate) left: u32,
    pub(crate) may_seed: bool,
    pub(crate) is_first: bool,
    pub(crate) from: u8,
    pub(crate) cuts: Vec<ChamberCut>,
    pub(crate) kept: KeptLines,
}

impl Pricing {
    /// Begins with these prices, one for each ship, at the first node.
    pub fn new(alloc: Global, prices: Prices, first: FirstNode) -> Result<Pricing, NoMemory> {
        let mut path = Vec::new(alloc);
        let ascent = ascent_of(alloc, &prices, first.pace())?;
        append(&mut path, Offer::new(prices))?;
        Ok(Pricing {
            path,
            ascent,
            first,
            left: MOST_ROUNDS,
            may_seed: true,
            is_first: true,
            from: 0,
            cuts: Vec::new(alloc),
            kept: KeptLines::new(alloc),
        })
    }

    // Forgets the prices of nodes that aren't above one of this depth; those of the root stay.
    fn go_up(&mut self, depth: u8)
        ensures deep { self.new.from ≡ self.old.from }
        ensures left { self.new.left ≡ self.old.left }
    {
        self.path.truncate((depth as usize).max(1));
    }

    // Begins a node with the prices of the node above it.
    fn begin(&mut self)
        ensures deep { self.new.from ≡ self.old.from }
        ensures left { self.new.left ≡ self.old.left }
    {
        let pace = if self.is_first {
            self.first.pace()
        } else {
            PACE
        };
        if let [.., last] = self.path.as_slice() {
            self.ascent.restart(&last.prices, pace);
        }
    }

    /// Whether rounds may be made at a node of this depth of a search for so many ships: not where few
    /// are missing, all rounds were made, or the sets of ships were too many at a node of this depth.
    pub fn serves(&self, depth: u8, ships: usize) -> bool
        ensures { IsTrue result ↔ MayServe self.now depth ships }
    {
        ships.saturating_sub(depth as usize) >= FEWEST_MISSING
            && self.left > 0
            && depth >= self.from
    }

    /// Goes to a node of this depth, whose prices are those of the node above it. Where rounds may be
    /// made stays the same.
    pub fn go_to(&mut self, depth: u8)
        ensures left { self.new.left ≡ self.old.left }
        ensures deep { self.new.from ≡ self.old.from }
    {
        self.go_up(depth);
        self.begin();
    }

    /// Goes to a node that begins with what is offered, or with what the last one began with.
    pub fn go_with(&mut self, offer: Option<Offer>) {
        if let (Some(offer), [.., last]) = (offer, self.path.as_mut_slice()) {
            *last = offer;
        }
        self.begin();
    }

    /// The greatest cost, in minutes, that rounds have found the node in hand to reach.
    pub fn reached(&self) -> u64 {
        reached_by(self.ascent.best_sum())
    }

    /// The best prices of the node in hand.
    pub fn best(&self) -> &Prices {
        self.ascent.best()
    }

    /// Whether the sets of ships were too many at a node as deep as this.
    pub fn has_too_many(&self, depth: u8) -> bool {
        depth < self.from
    }

    /// The best prices of the node in hand, as they are offered to the nodes below it.
    pub fn offer(&self) -> Offer {
        let best = self.ascent.best();
        Offer {
            prices: best.copy(),
            number: self.number_of(best),
        }
    }

    /// Keeps the best prices of the node in hand, which is split, for the nodes below it.
    pub fn keep(&mut self, depth: u8) -> Result<(), NoMemory>
        ensures left { self.new.left ≡ self.old.left }
        ensures deep { self.new.from ≡ self.old.from }
    {
        let prices = self.ascent.best().copy();
        if depth == 0 {
            self.path.pop();
        }
        append(&mut self.path, Offer::new(prices))
    }

    /// Whether a plan is to be made of the least lines: at the first node of a few ships in every second
    /// round, at any other in each one.
    pub(crate) fn is_near_time(&self) -> bool {
        !self.is_first || self.first.plans_each_round() || self.left % 2 == 0
    }

    /// Whether what rounds have reached is far below the best cost, by so many of them that it tells.
    pub fn is_wide(&self, best: u64) -> bool {
        let gap = best.saturating_sub(self.reached());
        self.left < MOST_ROUNDS - ROUNDS_BEFORE && gap > best / WIDE_PART
    }

    /// What is moved in plans near the least lines of a node of this depth, where the best plan costs so many
    /// minutes: at the root of many ships stretches too while the gap is wide. They take longer than a table.
    pub(crate) fn moves(&self, depth: u8, best: u64) -> Moves {
        match self.first {
            FirstNode::Lasting if depth == 0 && self.is_wide(best) => Moves::Stretches,
            FirstNode::Long | FirstNode::Steady | FirstNode::Lasting => Moves::Ships,
        }
    }

    /// Begins a further ascent at the node in hand from its best prices, at this pace: with more triples;
    /// whether there are any.
    pub fn widen(&mut self, pace: Pace) -> bool {
        self.ascent.widen(pace)
    }

    /// Begins the node in hand anew from its best prices, at this pace.
    pub fn ascend_from_best(&mut self, pace: Pace) {
        let best = self.ascent.best().copy();
        self.ascent.restart(&best, pace);
    }

    /// The same, as it is to go on below the node in hand, with all rounds to be made still.
    pub fn copy(&self, alloc: Global) -> Result<Pricing, NoMemory> {
        let mut path = Vec::new(alloc);
        append(&mut path, self.offer())?;
        Ok(Pricing {
            path,
            ascent: ascent_of(alloc, self.ascent.best(), PACE)?,
            first: self.first,
            left: MOST_ROUNDS,
            may_seed: false,
            is_first: self.is_first,
            from: self.from,
            cuts: copy_cuts(alloc, &self.cuts)?,
            kept: KeptLines::new(alloc),
        })
    }

    /// The first cuts of the book, to which the next ones may be appended.
    pub fn cuts_mut(&mut self) -> &mut Vec<ChamberCut> {
        &mut self.cuts
    }

    /// The prices with which a node begins, once some node was split by prices: they close most nodes.
    pub(crate) fn inherited(&self) -> Option<Prices> {
        match self.path.as_slice() {
            [.., last] if !self.is_first => Some(last.prices.copy()),
            _ => None,
        }
    }

    /// The first cuts of the book, as prices see them.
    pub fn cuts(&self) -> &[ChamberCut] {
        self.cuts.as_slice()
    }

    /// Shows that a node reaches a cost, in minutes, by these prices and the book's first cuts. None where
    /// it doesn't, where that takes more than `limits`, or for want of memory.
    pub fn show<'a>(
        &'a mut self,
        instance: &'a Instance,
        node: &'a Node,
        prices: &'a Prices,
        cost: u64,
    ) -> Option<Shown<'a>>
        requires { IsNodeOf instance.now node.now }
        ensures { IfSome result (IsShownOf instance.now node.now prices.now self.old.cuts.items cost) }
    {
        let limits = self.limits(node.depth());
        let asked = PricedNode {
            instance,
            node,
            prices,
            cuts: self.cuts.as_slice(),
        };
        match show(&mut self.kept, &asked, cost, limits) {
            Ok(shown) => shown,
            Err(_) => None,
        }
    }

    /// The number under which the book keeps these prices, where they are those of the node above and
    /// were posted before.
    pub(crate) fn number_of(&self, prices: &Prices) -> Option<u64> {
        match self.path.as_slice() {
            [.., last] if last.prices == *prices => last.number,
            _ => None,
        }
    }

    /// Keeps that the book has these prices under this number, where they are those of the node above:
    /// whether they are.
    pub(crate) fn posted(&mut self, prices: &Prices, number: u64) -> bool {
        match self.path.as_mut_slice() {
            [.., last] if last.prices == *prices => {
                last.number = Some(number);
                true
            }
            _ => false,
        }
    }
}
