//! Longest paths from the origin.
ghost use Rattle.std.specs.Prelude.{◌≡◌, ◌≤◌, ◌<◌, [], ◌∷◌, ◌++◌, length, take, set, IfOk, IfErr};
ghost use Rattle.diff_rules.specs.Differences.{IsSystem, IsSimpleCycle};
ghost use Rattle.diff_system.specs.PathTree.{AreLongest};

use crate::lists::{Edges, Numbers, Values};
use crate::origin::origin_paths;
use crate::rounds::settle;
use arrayvec::ArrayVec;
use std::marker::Model;

/// The least solution of a system, and for each variable the edge that gave its value.
///
/// The edges form a tree of longest paths from the origin.
#[derive(Drop)]
pub struct LongestPaths {
    values: Values,
    parents: ArrayVec<u8, 17>,
}

impl Model for LongestPaths {
    ghost use Rattle.diff_system.specs.PathTree.{PathTree};

    ghost Value = { PathTree };

    ghost view = { λ a. record { values = a.values; parents = a.parents.items } };

    ghost inverse = { λ t. record { values = t.values; parents = record { items = t.parents } } };
}

impl LongestPaths {
    /// No variables yet.
    pub(crate) fn new() -> LongestPaths
        ensures { result ≡ record { values = []; parents = [] } }
    {
        LongestPaths {
            values: Values::new(),
            parents: ArrayVec::new(),
        }
    }

    /// The least solution.
    pub fn values(&self) -> &Values
        ensures { result.now ≡ self.now.values }
    {
        &self.values
    }

    /// The number of each variable's edge.
    pub(crate) fn parents(&self) -> &[u8]
        ensures { result.now ≡ self.now.parents }
    {
        self.parents.as_slice()
    }

    /// Appends a variable.
    pub(crate) fn push(&mut self, value: i64, parent: u8)
        requires values { length self.old.values < 17 }
        requires parents { length self.old.parents < 17 }
        ensures { self.new ≡ record { values = self.old.values ++ value ∷ []; parents = self.old.parents ++ parent ∷ [] } }
    {
        self.values.push(value);
        self.parents.push(parent);
    }

    /// Gives a variable another value and another edge.
    pub(crate) fn put(&mut self, variable: u8, value: i64, parent: u8)
        requires values { variable < length self.old.values }
        requires parents { variable < length self.old.parents }
        ensures { self.new ≡ record { values = set self.old.values variable value; parents = set self.old.parents variable parent } }
    {
        self.values.put(variable, value);
        self.parents.as_mut_slice()[variable as usize] = parent;
    }

    /// The same paths.
    pub fn copy(&self) -> LongestPaths
        ensures { result ≡ self.now }
    {
        let mut parents = ArrayVec::new();
        for &parent in self.parents.as_slice() {
            parents.push(parent);
        }
        LongestPaths {
            values: self.values.copy(),
            parents,
        }
    }

    /// Solves a system from nothing, or gives the edge numbers of a closed walk of positive total, each once.
    ///
    /// `vars` counts the variables with the origin, 1 to 17; `least` says what else is asked of the edges.
    pub fn of(edges: &Edges, vars: u8) -> Result<LongestPaths, Numbers>
        requires { IsSystem edges.now vars }
        ensures longest { IfOk result (AreLongest edges.now vars) }
        ensures cycle { IfErr result (IsSimpleCycle edges.now) }
    {
        let mut paths = origin_paths(edges, vars);
        settle(edges, vars, &mut paths, 0)?;
        Ok(paths)
    }

    /// Goes on to a system with more edges, of which `self` is the answer to the first `known`.
    ///
    /// Answers as `of` does for all the edges, from the values of `self` on, so it takes the less time
    /// the fewer values rise. A least solution of fewer edges is at most every solution of more, so
    /// nothing is lost. `self` stays, for when the edges are taken back.
    pub fn extended(&self, edges: &Edges, vars: u8, known: usize) -> Result<LongestPaths, Numbers>
        requires system { IsSystem edges.now vars }
        requires known { known ≤ length edges.now }
        requires longest { AreLongest (take known edges.now) vars self.now }
        ensures longest { IfOk result (AreLongest edges.now vars) }
        ensures cycle { IfErr result (IsSimpleCycle edges.now) }
    {
        let mut paths = self.copy();
        settle(edges, vars, &mut paths, known)?;
        Ok(paths)
    }

    /// The least solution alone.
    pub fn into_values(self) -> Values
        ensures { result ≡ self.values }
    {
        self.values
    }
}

impl Default for LongestPaths {
    /// No variables.
    fn default() -> LongestPaths
        ensures { result ≡ record { values = []; parents = [] } }
    {
        LongestPaths::new()
    }
}
