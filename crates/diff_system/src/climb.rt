//! Climbing from a variable to the origin.
ghost use Rattle.std.specs.Prelude.{◌≡◌, ◌≢◌, ◌<◌, ◌↔◌, length, IsTrue};
ghost use Rattle.diff_rules.specs.Differences.{edge_at, IsSystem, IsSimpleCycle};
ghost use Rattle.diff_system.specs.PathTree.{IsPathTree, IsAbove, above, depth_of};
ghost use Rattle.diff_system.specs.Rounds.{Raises};

use crate::lists::{Edges, Numbers};
use crate::paths::LongestPaths;

/// The variable that the edge which gave a variable its value comes from.
fn variable_above(edges: &Edges, vars: u8, paths: &LongestPaths, variable: u8) -> u8
    requires system { IsSystem edges.now vars }
    requires tree { IsPathTree edges.now vars paths.now }
    requires below { variable < vars }
    requires away { variable ≢ 0 }
    ensures value { result ≡ above edges.now paths.now.parents variable }
    ensures below { result < vars }
    ensures shallower { depth_of edges.now paths.now.parents 17 result < depth_of edges.now paths.now.parents 17 variable }
{
    let parent = paths.parents()[variable as usize];
    edges.as_slice()[parent as usize].from
}

/// Whether `ancestor` is the variable or above it.
pub(crate) fn is_above(
    edges: &Edges,
    vars: u8,
    paths: &LongestPaths,
    ancestor: u8,
    variable: u8,
) -> bool
    requires system { IsSystem edges.now vars }
    requires tree { IsPathTree edges.now vars paths.now }
    requires below { variable < vars }
    ensures { IsTrue result ↔ IsAbove edges.now paths.now.parents ancestor variable }
{
    let mut at = variable;
    while at != ancestor {
        if at == 0 {
            return false;
        }
        at = variable_above(edges, vars, paths, at);
    }
    true
}

/// The edge numbers of the closed walk that a raising edge makes with the paths.
pub(crate) fn cycle_by(edges: &Edges, vars: u8, paths: &LongestPaths, number: u8) -> Numbers
    requires system { IsSystem edges.now vars }
    requires tree { IsPathTree edges.now vars paths.now }
    requires known { number < length edges.now }
    requires raises { Raises paths.now.values (edge_at edges.now number) }
    requires above { IsAbove edges.now paths.now.parents (edge_at edges.now number).to (edge_at edges.now number).from }
    ensures { IsSimpleCycle edges.now result }
{
    let last = &edges.as_slice()[number as usize];
    let mut numbers = Numbers::new();
    numbers.push(number);
    let mut at = last.from;
    while at != last.to {
        numbers.push(paths.parents()[at as usize]);
        at = variable_above(edges, vars, paths, at);
    }
    numbers.reverse();
    numbers
}
