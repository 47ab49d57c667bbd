//! The edges of a case in order.
ghost use Rattle.std.specs.Prelude.{◌≡◌, ◌≤◌, [], length, take};
ghost use Rattle.refute_rules.specs.Edges.{choice_edges};

use deck_cases::{Berth, Choice, EdgeList};
use diff_system::{Edge, Edges};
use lock_model::{Deck, Moor};
use std::marker::Model;

/// The edges of a case, as the solver takes them.
#[derive(Drop)]
pub(crate) struct CaseEdges {
    edges: Edges,
}

impl Model for CaseEdges {
    ghost use Rattle.std.specs.Prelude.{List};
    ghost use Rattle.diff_rules.specs.declared.edges.Edge.{Edge};

    ghost Value = { List Edge };

    ghost view = { λ a. a.edges };
}

impl CaseEdges {
    /// No edges.
    pub(crate) fn new() -> CaseEdges
        ensures { result ≡ [] }
    {
        CaseEdges {
            edges: Edges::new(),
        }
    }

    /// The edges as the solver takes them.
    pub(crate) fn all(&self) -> &Edges
        ensures { result.now ≡ self.now }
    {
        &self.edges
    }

    /// How many edges there are.
    pub(crate) fn len(&self) -> usize
        ensures { result ≡ length self.now }
    {
        self.edges.as_slice().len()
    }

    /// Keeps the first edges.
    pub(crate) fn truncate(&mut self, count: usize)
        requires { count ≤ length self.old }
        ensures { self.new ≡ take count self.old }
    {
        self.edges.truncate(count);
    }
}

impl EdgeList for CaseEdges {
    ghost use Rattle.std.specs.Prelude.{List};
    ghost use Rattle.diff_rules.specs.declared.edges.Edge.{Edge as Told};

    ghost edges = { λ (es : List Told). es };

    ghost most = { 96 };

    fn push(&mut self, edge: Edge) {
        self.edges.push(edge);
    }
}

/// How many edges an option has.
pub(crate) fn edge_count(deck: &Deck, choice: &Choice) -> usize
    ensures { result ≡ length (choice_edges deck.now choice.now) }
{
    match choice {
        Choice::Lies(
            _,
            Berth {
                moor: Moor::Ship(_),
                ..
            },
        ) => 4,
        Choice::LiesAt(_, _) => 0,
        _ => 1,
    }
}
