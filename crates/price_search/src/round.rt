//! One round at a node.
ghost use Rattle.std.specs.Prelude.{◌≡◌, ◌<◌};
ghost use Rattle.master_branch.specs.Node.{IsNodeOf};

use crate::found::Found;
use crate::placing::Placer;
use crate::pricing::{FirstNode, Pricing};
use crate::seeding::seed_cuts;
use lock_model::{CHAMBERS, Group, Instance};
use master_branch::{Node, arrival_order};
use near_plan::{fits, near_plan};
use no_memory::NoMemory;
use node_work::{KnownCuts, Search};
use placed_groups::Memory;
use price_bound::{PricedNode, least_lines};
use price_raise::Stands;
use price_terms::{Limits, LooseLines, PriceError, Prices};
use std::alloc::Global;

/// The limits of the tables of a root of few ships. Where a chamber takes seven of 24 ships of one way there
/// are 536,154 groups, and without prices such a search closes nothing and knows no low.
pub const ROOT_LIMITS: Limits = Limits {
    groups: 1_000_000,
    turns: 2_000_000,
};

// The limits of any other table that a search works out: there are many, and each takes longer.
const LIMITS: Limits = Limits {
    groups: 200_000,
    turns: 400_000,
};

/// A node of a search where the best plan costs so many minutes, and the known cuts.
#[derive(Drop)]
pub struct Asked<'a, K: KnownCuts> {
    pub search: &'a Search<'a>,
    pub node: &'a Node,
    pub best: u64,
    pub known: &'a K,
    pub ghost is: { IsNodeOf search.now.instance.now node.now },
}

/// How a round ends.
#[derive(Drop)]
pub enum RoundEnd {
    /// The node reaches the best cost by these prices.
    Reached(Prices),
    /// Another round may show more.
    Again,
    /// Prices show no more here.
    Open,
}

/// What a round found, and how it ended.
#[derive(Drop)]
pub struct Round {
    pub found: Found,
    pub end: RoundEnd,
}

// What is found of the least lines of a node.
#[derive(Drop)]
enum Least {
    Lines(LooseLines),
    // A chamber has no loose line, so that no legal plan lies under the node.
    NoLine,
    TooMany,
}

// A round that found nothing.
fn round_of(alloc: Global, end: RoundEnd) -> Round {
    let found = Found {
        cuts: Vec::new(alloc),
        plan: None,
    };
    Round { found, end }
}

// Whether this sum of least lines and prices shows that all plans cost as much, in minutes.
fn is_reached(sum: i64, cost: u64) -> bool {
    let cost = cost.min(1_000_000_000_000) as i64 * 100;
    cost < sum.saturating_add(100)
}

// How often each ship stands in the lines.
fn stands_in(lines: &LooseLines) -> Stands {
    let mut stands = Stands::new();
    for line in lines.lines.as_slice() {
        for group in line.groups.as_slice() {
            stands.add(&group.ships);
        }
    }
    stands
}

// Places the groups of a chamber's line.
fn place_line<K: KnownCuts>(
    instance: &Instance,
    chamber: u8,
    groups: &[Group],
    placer: &mut Placer<'_, '_, K>,
) -> Result<(), NoMemory>
    requires { placer.old.search.now.instance.now ≡ instance.now }
    ensures { placer.new.search.now.instance.now ≡ instance.now }
{
    for group in groups {
        fits(instance, chamber, &group.ships, placer)?;
    }
    Ok(())
}

// Places the groups of the lines; those that don't fit are among the placer's cuts then.
fn place_groups<K: KnownCuts>(
    instance: &Instance,
    lines: &LooseLines,
    placer: &mut Placer<'_, '_, K>,
) -> Result<(), NoMemory>
    requires { placer.old.search.now.instance.now ≡ instance.now }
    ensures { placer.new.search.now.instance.now ≡ instance.now }
{
    for (chamber, line) in lines.lines.as_slice().iter().enumerate() {
        if chamber < CHAMBERS {
            place_line(instance, chamber as u8, line.groups.as_slice(), placer)?;
        }
    }
    Ok(())
}

impl Pricing {
    // Goes on from least lines that don't reach the best cost: at the root, and at the first node, their
    // groups are placed. Then the prices are raised; where they can't be, a plan is tried, since each
    // missing ship may stand in the lines once.
    fn go_on<K: KnownCuts>(
        &mut self,
        alloc: Global,
        asked: &Asked<'_, K>,
        memory: &mut Memory,
        lines: &LooseLines,
    ) -> Result<Round, NoMemory> {
        let Search { instance, .. } = asked.search;
        let mut placer = Placer::new(alloc, asked, memory);
        if self.is_first || asked.node.depth() == 0 {
            place_groups(instance, lines, &mut placer)?;
        }
        let is_cut = !placer.found.is_empty();
        let near = self.is_near_time();
        let moves = self.moves(asked.node.depth(), asked.best);
        let order = arrival_order(instance);
        let missing = &order.as_slice()[asked.node.depth() as usize..];
        let again = self
            .ascent
            .raise(missing, &stands_in(lines), lines.sum, asked.best, is_cut);
        let plan = if near || !again {
            near_plan(alloc, instance, lines, asked.best, moves, &mut placer)?
        } else {
            None
        };
        let end = if again {
            RoundEnd::Again
        } else {
            self.is_first = false;
            RoundEnd::Open
        };
        let found = Found {
            cuts: placer.found,
            plan,
        };
        Ok(Round { found, end })
    }

    /// Makes a round at a node to which the pricing went, and which has the book's first cuts. The node
    /// is asked for no more where the sets of ships or the states are too many (`limits`) and no cut is
    /// found that makes them fewer, or all rounds of the search were made. Its only refusal is want of memory.
    pub fn round<K: KnownCuts>(
        &mut self,
        alloc: Global,
        asked: &Asked<'_, K>,
        memory: &mut Memory,
    ) -> Result<Round, NoMemory> {
        if is_reached(self.ascent.best_sum(), asked.best) {
            return Ok(round_of(alloc, RoundEnd::Reached(self.ascent.best().copy())));
        }
        if self.left == 0 {
            return Ok(round_of(alloc, RoundEnd::Open));
        }
        self.left -= 1;
        match self.least(asked)? {
            Least::TooMany => self.past_too_many(alloc, asked, memory),
            Least::Lines(lines) if !is_reached(lines.sum, asked.best) => {
                self.go_on(alloc, asked, memory, &lines)
            }
            _ => Ok(round_of(alloc, RoundEnd::Reached(self.ascent.tried().copy()))),
        }
    }

    // The first time that the root has too many groups, those that don't fit are looked for.
    fn seeded<K: KnownCuts>(
        &mut self,
        alloc: Global,
        asked: &Asked<'_, K>,
        memory: &mut Memory,
    ) -> Result<Found, NoMemory> {
        let mut placer = Placer::new(alloc, asked, memory);
        if self.may_seed && asked.node.depth() == 0 {
            self.may_seed = false;
            seed_cuts(asked.search.instance, &mut placer)?;
        }
        Ok(Found {
            cuts: placer.found,
            plan: None,
        })
    }

    // Goes on from a node that has too many groups: with new cuts there may be few enough; else the node
    // is asked for no more, nor others of its depth.
    fn past_too_many<K: KnownCuts>(
        &mut self,
        alloc: Global,
        asked: &Asked<'_, K>,
        memory: &mut Memory,
    ) -> Result<Round, NoMemory> {
        let found = self.seeded(alloc, asked, memory)?;
        if found.is_empty() {
            self.from = asked.node.depth().saturating_add(1);
            return Ok(round_of(alloc, RoundEnd::Open));
        }
        Ok(Round {
            found,
            end: RoundEnd::Again,
        })
    }

    /// The limits of the tables of a node of this depth.
    pub(crate) fn limits(&self, depth: u8) -> Limits {
        match self.first {
            FirstNode::Long | FirstNode::Steady if depth == 0 => ROOT_LIMITS,
            FirstNode::Long | FirstNode::Steady | FirstNode::Lasting => LIMITS,
        }
    }

    // The least lines of the node by the prices that are tried.
    fn least<K: KnownCuts>(&mut self, asked: &Asked<'_, K>) -> Result<Least, NoMemory> {
        let limits = self.limits(asked.node.depth());
        let priced = PricedNode {
            instance: asked.search.instance,
            node: asked.node,
            prices: self.ascent.tried(),
            cuts: self.cuts.as_slice(),
        };
        match least_lines(&mut self.kept, &priced, limits) {
            Ok(Some(lines)) => Ok(Least::Lines(lines)),
            Ok(None) => Ok(Least::NoLine),
            Err(PriceError::TooMany) => Ok(Least::TooMany),
            Err(PriceError::NoMemory) => Err(NoMemory),
        }
    }
}
