//! The edges of a case in order.
ghost use Rattle.std.specs.Prelude.{◌≡◌, ◌≤◌, [], length, take};

use arrayvec::ArrayVec;
use deck_cases::EdgeList;
use diff_rules::Edge;
use lock_model::{DECISIONS, MOST};
use std::marker::Model;

/// The edges of a case, at most: four for each ship and for each option.
pub(crate) const EDGES: usize = 4 * (MOST + DECISIONS);

/// The edges of a case in order.
#[derive(Drop)]
pub(crate) struct CaseEdges {
    items: ArrayVec<Edge, EDGES>,
}

impl Model for CaseEdges {
    ghost use Rattle.std.specs.Prelude.{List};
    ghost use Rattle.diff_rules.specs.declared.edges.Edge.{Edge};

    ghost Value = { List Edge };

    ghost view = { λ a. a.items.items };
}

impl CaseEdges {
    /// No edges.
    pub(crate) fn new() -> CaseEdges
        ensures { result ≡ [] }
    {
        CaseEdges {
            items: ArrayVec::new(),
        }
    }

    /// The edges in order.
    pub(crate) fn as_slice(&self) -> &[Edge]
        ensures { result.now ≡ self.now }
    {
        self.items.as_slice()
    }

    /// Keeps the first edges.
    pub(crate) fn truncate(&mut self, count: usize)
        requires { count ≤ length self.old }
        ensures { self.new ≡ take count self.old }
    {
        self.items.truncate(count);
    }
}

impl EdgeList for CaseEdges {
    ghost use Rattle.std.specs.Prelude.{List};
    ghost use Rattle.diff_rules.specs.declared.edges.Edge.{Edge as Told};
    ghost use Rattle.place_refute.specs.declared.edge_list.TheConstants.{EDGES};

    ghost edges = { λ (es : List Told). es };

    ghost most = { EDGES };

    fn push(&mut self, edge: Edge) {
        self.items.push(edge);
    }
}
