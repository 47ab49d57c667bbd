//! Closed walks along the edges of a case.
ghost use Rattle.std.specs.Prelude.{◌≡◌, ◌≤◌, ◌↔◌, length, IsTrue, pos, neg_ℤ, ◌≤ℤ◌, ◌+ℤ◌, ◌^◌};
ghost use Rattle.diff_rules.specs.Differences.{IsPositiveCycle, LeadsTo, edge_at, total_of};

use diff_rules::Edge;

// An edge by its number, or one of weight 0 where there is none.
fn edge_at(edges: &[Edge], number: u32) -> Edge
    ensures { result ≡ edge_at edges.now number }
{
    match edges.get(number as usize) {
        Some(edge) => *edge,
        None => Edge::default(),
    }
}

// Whether the edges of these numbers lead from a variable to another, each from where the one
// before it ends.
#[tactic(auto, using(crate::proofs::WalkLemmas::of_leads))]
fn leads_to(edges: &[Edge], from: u8, numbers: &[u32], to: u8) -> bool
    ensures { IsTrue result ↔ LeadsTo edges.now from numbers.now to }
{
    let mut at = from;
    for &number in numbers {
        let edge = edge_at(edges, number);
        if number as usize >= edges.len() || edge.from != at {
            return false;
        }
        at = edge.to;
    }
    at == to
}

// A total and one weight more.
fn with_weight(total: i128, weight: i64) -> i128
    requires low { neg_ℤ (pos (2 ^ 96)) ≤ℤ total }
    requires high { total ≤ℤ pos (2 ^ 96) }
    ensures value { result ≡ total +ℤ weight }
    ensures low { neg_ℤ (pos 9223372036854775808) ≤ℤ weight }
    ensures high { weight ≤ℤ pos 9223372036854775808 }
{
    total + weight as i128
}

// The sum of the weights of the edges of these numbers.
#[tactic(auto, using(crate::proofs::WalkLemmas::total_more))]
fn total_of(edges: &[Edge], numbers: &[u32]) -> i128
    requires { length numbers.now ≤ 4294967296 }
    ensures { result ≡ total_of edges.now numbers.now }
{
    let mut total: i128 = 0;
    for &number in numbers {
        total = with_weight(total, edge_at(edges, number).weight);
    }
    total
}

/// Whether the edges of these numbers are a closed walk of positive total.
#[tactic(auto, using(crate::proofs::WalkLemmas::cycle_from, crate::proofs::WalkLemmas::cycle_leads, crate::proofs::WalkLemmas::cycle_total))]
pub(crate) fn is_positive_cycle(edges: &[Edge], numbers: &[u32]) -> bool
    requires some { 1 ≤ length numbers.now }
    requires few { length numbers.now ≤ 4294967296 }
    ensures { IsTrue result ↔ IsPositiveCycle edges.now numbers.now }
{
    let start = edge_at(edges, numbers[0]).from;
    leads_to(edges, start, numbers, start) && total_of(edges, numbers) > 0
}
