//! The costs that a node reaches by prices.
ghost use Rattle.std.specs.Prelude.{◌≡◌, ◌+◌, ◌*◌, ◌<◌, ◌≤◌, ◌↔◌, ◌⊎◌, ℕ, ◌≤ℤ◌, ◌<ℤ◌, ◌+ℤ◌, pos, neg_ℤ, length, IsTrue, IfOk, IfSome, IfNone, sum_by};
ghost use Rattle.lock_rules.specs.Arrival.{first_ships};
ghost use Rattle.price_rules.specs.Prices.{price_at, triple_prices};
ghost use Rattle.price_terms.specs.Claim.{IsReached};
ghost use Rattle.price_table.specs.Values.{most_worth};
ghost use Rattle.price_bound.specs.Asked.{node_asked, claimed};
ghost use Rattle.price_bound.specs.Asks.{chamber_ask};
ghost use Rattle.price_bound.specs.Greatest.{IsGreatestReached};
ghost use Rattle.price_bound.specs.Keeping.{IsFound};
ghost use Rattle.price_bound.specs.Total.{HasNoLooseLine, IsAdded, IsNodeSum, AreLeastLines, AreLinesFound};

use crate::keeping::KeptLines;
use crate::priced_node::PricedNode;
use lock_model::{CHAMBERS, SHIPS};
use master_branch::arrival_order;
use price_groups::LineCase;
use price_terms::{ChamberCut, Limits, LooseLine, LooseLines, PriceError, Prices, append};

// A least line of one chamber, if it has a loose one.
fn chamber_least<'k>(
    kept: &'k mut KeptLines,
    asked: &PricedNode,
    held: &[u8],
    chamber: u8,
    limits: Limits,
) -> Result<&'k Option<LooseLine>, PriceError>
    requires chamber_in { chamber < length asked.now.instance.now.chambers }
    requires held { held.now ≡ first_ships asked.now.instance.now asked.now.node.now.depth }
    ensures { IfOk result (λ found. IsFound (chamber_ask (node_asked asked.now) chamber) found.now) }
{
    let case = LineCase {
        instance: asked.instance,
        cuts: asked.cuts,
        prices: asked.prices,
        depth: asked.node.depth(),
        held,
        index: chamber,
        chamber: &asked.instance.chambers.as_slice()[chamber as usize],
        line: asked.node.line(chamber),
    };
    kept.least(&case, limits)
}

// The least worths of all chambers, added; None where one has no loose line.
fn added(
    kept: &mut KeptLines,
    asked: &PricedNode,
    held: &[u8],
    limits: Limits,
) -> Result<Option<i64>, PriceError>
    requires { held.now ≡ first_ships asked.now.instance.now asked.now.node.now.depth }
    ensures value { IfOk result (IsAdded (node_asked asked.now)) }
    ensures low { IfOk result (λ sum. IfSome sum (λ v. neg_ℤ (pos 3264320000000000) ≤ℤ v)) }
    ensures high { IfOk result (λ sum. IfSome sum (λ v. v ≤ℤ pos (CHAMBERS * most_worth))) }
{
    let mut sum = 0;
    for chamber in 0..asked.instance.chambers.as_slice().len() as u8 {
        match chamber_least(kept, asked, held, chamber, limits)? {
            None => return Ok(None),
            Some(line) => sum += line.worth,
        }
    }
    Ok(Some(sum))
}

// Least lines of all chambers; None where one has no loose line.
fn listed(
    kept: &mut KeptLines,
    asked: &PricedNode,
    held: &[u8],
    limits: Limits,
) -> Result<Option<Vec<LooseLine>>, PriceError>
    requires { held.now ≡ first_ships asked.now.instance.now asked.now.node.now.depth }
    ensures none { IfOk result (λ found. IfNone found (HasNoLooseLine (node_asked asked.now))) }
    ensures some { IfOk result (λ found. IfSome found (λ lines. AreLeastLines (node_asked asked.now) (length asked.now.instance.now.chambers) lines.items)) }
{
    let alloc = kept.alloc();
    let mut lines = Vec::new(alloc);
    for chamber in 0..asked.instance.chambers.as_slice().len() as u8 {
        match chamber_least(kept, asked, held, chamber, limits)? {
            None => return Ok(None),
            Some(line) => append(&mut lines, line.copy(alloc)?)?,
        }
    }
    Ok(Some(lines))
}

// The prices of some ships, added.
fn prices_of(prices: &Prices, ships: &[u8]) -> u64
    requires { length ships.now ≤ SHIPS }
    ensures value { result ≡ sum_by (price_at prices.now) ships.now }
    ensures small { result ≤ SHIPS * 1000000 }
{
    let mut sum = 0;
    for &ship in ships {
        sum += prices.at(ship) as u64;
    }
    sum
}

// The prices of the triples, added.
fn triples_of(prices: &Prices) -> u64
    ensures value { result ≡ triple_prices prices.now }
    ensures small { result ≤ 255000000 }
{
    let mut sum = 0;
    for triple in prices.triples() {
        sum += triple.price as u64;
    }
    sum
}

/// The least of `100 * flow + charged - paid` over a loose line for each chamber, and the prices of the
/// missing ships less those of the triples, in hundredths of a minute; None where some chamber has no
/// loose line. Refuses as `reaches` does.
pub fn price_sum(
    kept: &mut KeptLines,
    asked: &PricedNode,
    limits: Limits,
) -> Result<Option<i64>, PriceError>
    ensures value { IfOk result (IsNodeSum (node_asked asked.now)) }
    ensures low { IfOk result (λ sum. IfSome sum (λ v. neg_ℤ (pos 4000000000000000) ≤ℤ v)) }
    ensures high { IfOk result (λ sum. IfSome sum (λ v. v ≤ℤ pos 400000000000000)) }
{
    let order = arrival_order(asked.instance);
    let (held, missing) = order.as_slice().split_at(asked.node.depth() as usize);
    match added(kept, asked, held, limits)? {
        None => Ok(None),
        Some(least) => {
            let missing = least + prices_of(asked.prices, missing) as i64;
            Ok(Some(missing - triples_of(asked.prices) as i64))
        }
    }
}

/// For each chamber a loose line of the least `100 * flow + charged - paid`, and the sum of `price_sum`,
/// in hundredths of a minute; None where some chamber has no loose line. A missing ship may stand in several of the groups, or in none.
/// Refuses as `reaches` does.
pub fn least_lines(
    kept: &mut KeptLines,
    asked: &PricedNode,
    limits: Limits,
) -> Result<Option<LooseLines>, PriceError>
    ensures value { IfOk result (AreLinesFound (node_asked asked.now)) }
    ensures low { IfOk result (λ found. IfSome found (λ lines. neg_ℤ (pos 4000000000000000) ≤ℤ lines.sum)) }
    ensures high { IfOk result (λ found. IfSome found (λ lines. lines.sum ≤ℤ pos 400000000000000)) }
{
    let Some(sum) = price_sum(kept, asked, limits)? else {
        return Ok(None);
    };
    let order = arrival_order(asked.instance);
    let (held, _) = order.as_slice().split_at(asked.node.depth() as usize);
    match listed(kept, asked, held, limits)? {
        None => Ok(None),
        Some(lines) => Ok(Some(LooseLines { lines, sum })),
    }
}

// Whether 100 times the cost is less than the sum and 100.
fn is_high(sum: i64, cost: u64) -> bool
    requires { sum ≤ℤ pos 400000000000000 }
    ensures { IsTrue result ↔ (pos (100 * cost) <ℤ (sum +ℤ pos 100)) }
{
    let room = sum + 100;
    room > 0 && cost <= (room as u64 - 1) / 100
}

/// Whether a node reaches a cost, in minutes, by prices and cuts: exactly, by the Lagrangian
/// relaxation of a set partition by chamber lines. Refused are only want of memory, and more uncut
/// groups or more turns than the limits allow for a line that isn't kept. It keeps what it works out.
pub fn reaches(
    kept: &mut KeptLines,
    asked: &PricedNode,
    cost: u64,
    limits: Limits,
) -> Result<bool, PriceError>
    ensures { IfOk result (λ reached. IsTrue reached ↔ IsReached (claimed asked.now cost)) }
{
    match price_sum(kept, asked, limits)? {
        None => Ok(true),
        Some(sum) => Ok(is_high(sum, cost)),
    }
}

// The greatest cost, in minutes, of which 100 times is less than the sum and 100; 0 where there is none.
fn cost_of(sum: i64) -> u64
    requires { sum ≤ℤ pos 400000000000000 }
    ensures known { (result ≡ 0) ⊎ (pos (100 * result) <ℤ (sum +ℤ pos 100)) }
    ensures greatest { (cost : ℕ) → pos (100 * cost) <ℤ (sum +ℤ pos 100) → cost ≤ result }
{
    (sum.max(0) as u64).div_ceil(100)
}

/// The greatest of the costs up to `most`, in minutes, that a node reaches by prices and cuts; 0 where
/// it reaches none of them. Refuses as `reaches` does.
pub fn greatest_cost(
    kept: &mut KeptLines,
    asked: &PricedNode,
    most: u64,
    limits: Limits,
) -> Result<u64, PriceError>
    ensures { IfOk result (IsGreatestReached (claimed asked.now) most) }
{
    match price_sum(kept, asked, limits)? {
        None => Ok(most),
        Some(sum) => Ok(cost_of(sum).min(most)),
    }
}
