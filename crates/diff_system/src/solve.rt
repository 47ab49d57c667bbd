//! The solver.
ghost use Rattle.diff_rules.specs.Differences.{IsSystem};
ghost use Rattle.diff_system.specs.Solving.{IsSolved};

use crate::lists::{Edges, Numbers, Values};
use crate::paths::LongestPaths;

/// The least solution, or the edge numbers of a closed walk of positive total, each once.
#[derive(Drop)]
pub enum Solved {
    Least(Values),
    Cycle(Numbers),
}

/// Solves a system of difference constraints.
///
/// `vars` counts the variables with the origin, 1 to 17. The ends of the edges are below it, their
/// weights lie between -1,000,000 and 1,000,000, and an edge of weight 0 or more leads from the
/// origin to each other variable. `Least` comes exactly where a solution exists.
/// Source: difference constraints and longest paths, as by Bellman and Ford.
pub fn least(edges: &Edges, vars: u8) -> Solved
    requires { IsSystem edges.now vars }
    ensures { IsSolved edges.now vars result }
{
    match LongestPaths::of(edges, vars) {
        Ok(paths) => Solved::Least(paths.into_values()),
        Err(numbers) => Solved::Cycle(numbers),
    }
}
