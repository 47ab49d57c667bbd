//! Rounds over the edges.
ghost use Rattle.std.specs.Prelude.{ℕ, pos, negsuc, ◌≤ℤ◌, ◌+ℤ◌, ◌≡◌, ◌≤◌, ◌<◌, ◌↔◌, length, IsTrue, IfErr, OnOk};
ghost use Rattle.diff_rules.specs.Differences.{edge_at, value_at, Obeys, IsSystem, IsSimpleCycle};
ghost use Rattle.diff_system.specs.PathTree.{IsPathTree, AreLongest};
ghost use Rattle.diff_system.specs.Rounds.{Raises, raised_by, IsRelaxed, IsRound};

use crate::climb::{cycle_by, is_above};
use crate::lists::{Edges, Numbers};
use crate::paths::LongestPaths;
use diff_rules::Edge;

/// What an edge asks of the value at its end.
fn asked(edge: &Edge, values: &[i64]) -> i64
    requires from { edge.now.from < length values.now }
    requires weight { (negsuc 999999 ≤ℤ edge.now.weight) × (edge.now.weight ≤ℤ pos 1000000) }
    requires low { pos 0 ≤ℤ value_at values.now edge.now.from }
    requires high { value_at values.now edge.now.from ≤ℤ pos 16000000 }
    ensures { result ≡ value_at values.now edge.now.from +ℤ edge.now.weight }
{
    values[edge.from as usize] + edge.weight
}

/// Whether an edge asks more of its end than the value there.
fn is_raising(edge: &Edge, values: &[i64]) -> bool
    requires from { edge.now.from < length values.now }
    requires to { edge.now.to < length values.now }
    requires weight { (negsuc 999999 ≤ℤ edge.now.weight) × (edge.now.weight ≤ℤ pos 1000000) }
    requires low { pos 0 ≤ℤ value_at values.now edge.now.from }
    requires high { value_at values.now edge.now.from ≤ℤ pos 16000000 }
    ensures { IsTrue result ↔ Raises values.now edge.now }
{
    if values[edge.to as usize] < asked(edge, values) {
        true
    } else {
        false
    }
}

/// Whether the edge of this number asks more of its end than the value there.
fn raises(edges: &Edges, vars: u8, paths: &LongestPaths, number: u8) -> bool
    requires system { IsSystem edges.now vars }
    requires tree { IsPathTree edges.now vars paths.now }
    requires known { number < length edges.now }
    ensures { IsTrue result ↔ Raises paths.now.values (edge_at edges.now number) }
{
    is_raising(
        &edges.as_slice()[number as usize],
        paths.values().as_slice(),
    )
}

/// Raises the end of an edge to what the edge asks.
fn raise(edges: &Edges, vars: u8, paths: &mut LongestPaths, number: u8)
    requires system { IsSystem edges.now vars }
    requires tree { IsPathTree edges.now vars paths.old }
    requires known { number < length edges.now }
    ensures { paths.new ≡ raised_by edges.now paths.old number }
{
    let edge = &edges.as_slice()[number as usize];
    let value = asked(edge, paths.values().as_slice());
    paths.put(edge.to, value, number);
}

/// Raises the end of an edge where it asks for more, and tells whether it did.
///
/// Where the end is above the edge's beginning, gives the closed walk and leaves the paths as they are.
fn relax(edges: &Edges, vars: u8, paths: &mut LongestPaths, number: u8) -> Result<bool, Numbers>
    requires system { IsSystem edges.now vars }
    requires tree { IsPathTree edges.now vars paths.old }
    requires known { number < length edges.now }
    ensures { IsRelaxed edges.now paths.old paths.new number result }
{
    if !raises(edges, vars, paths, number) {
        return Ok(false);
    }
    let edge = &edges.as_slice()[number as usize];
    if is_above(edges, vars, paths, edge.to, edge.from) {
        return Err(cycle_by(edges, vars, paths, number));
    }
    raise(edges, vars, paths, number);
    Ok(true)
}

/// Looks at each edge from `first` on, and tells whether a value rose.
fn round(edges: &Edges, vars: u8, paths: &mut LongestPaths, first: usize) -> Result<bool, Numbers>
    requires system { IsSystem edges.now vars }
    requires tree { IsPathTree edges.now vars paths.old }
    requires known { first ≤ length edges.now }
    ensures { IsRound edges.now vars paths.old paths.new first result }
{
    let mut raised = false;
    for number in first..edges.as_slice().len() {
        if relax(edges, vars, paths, number as u8)? {
            raised = true;
        }
    }
    Ok(raised)
}

/// Raises values until all edges are obeyed; those before `known` are already.
///
/// Each further round obeys the edges that begin one step deeper in the tree, so `vars` rounds do.
pub(crate) fn settle(
    edges: &Edges,
    vars: u8,
    paths: &mut LongestPaths,
    known: usize,
) -> Result<(), Numbers>
    requires system { IsSystem edges.now vars }
    requires tree { IsPathTree edges.now vars paths.old }
    requires known { known ≤ length edges.now }
    requires obeyed { (k : ℕ) → k < known → Obeys paths.old.values (edge_at edges.now k) }
    ensures longest { OnOk result (AreLongest edges.now vars paths.new) }
    ensures cycle { IfErr result (IsSimpleCycle edges.now) }
{
    let mut first = known;
    for _round in 0..vars {
        if !round(edges, vars, paths, first)? {
            return Ok(());
        }
        first = 0;
    }
    Ok(())
}
