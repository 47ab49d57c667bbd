//! The paths of one edge that a solver begins with.
ghost use Rattle.std.specs.Prelude.{◌≤◌, ◌<◌, ◌↔◌, length, IsTrue};
ghost use Rattle.diff_rules.specs.Differences.{edge_at, IsSystem};
ghost use Rattle.diff_system.specs.PathTree.{IsOriginEdge, IsPathTree};

use crate::lists::Edges;
use crate::paths::LongestPaths;
use diff_rules::Edge;

/// Whether an edge of weight 0 or more leads from the origin to the variable.
fn is_origin_edge(edge: &Edge, variable: u8) -> bool
    ensures { IsTrue result ↔ IsOriginEdge edge.now variable }
{
    edge.from == 0 && edge.to == variable && edge.weight >= 0
}

/// The number of the first edge of weight 0 or more from the origin to a variable.
fn origin_edge(edges: &Edges, vars: u8, variable: u8) -> u8
    requires system { IsSystem edges.now vars }
    requires some { 1 ≤ variable }
    requires below { variable < vars }
    ensures known { result < length edges.now }
    ensures edge { IsOriginEdge (edge_at edges.now result) variable }
{
    for number in 0..edges.as_slice().len() {
        if is_origin_edge(&edges.as_slice()[number], variable) {
            return number as u8;
        }
    }
    unreachable!()
}

/// For each variable an edge from the origin.
pub(crate) fn origin_paths(edges: &Edges, vars: u8) -> LongestPaths
    requires { IsSystem edges.now vars }
    ensures { IsPathTree edges.now vars result }
{
    let mut paths = LongestPaths::new();
    paths.push(0, 0);
    for variable in 1..vars {
        let number = origin_edge(edges, vars, variable);
        paths.push(edges.as_slice()[number as usize].weight, number);
    }
    paths
}
