//! A case: the options so far, and their edges behind those of the deck.
ghost use Rattle.std.specs.Prelude.{◌≡◌, ◌+◌, ◌<◌, ◌≤◌, [], ◌∷◌, ◌++◌, length, take};
ghost use Rattle.refute_rules.specs.Edges.{choice_edges};
ghost use Rattle.deck_cases.specs.Asked.{IsOfDeck};
ghost use Rattle.place_refute.specs.Drawn.{deck_edges};
ghost use Rattle.place_refute.specs.declared.edge_list.TheConstants.{EDGES};

use crate::edge_list::CaseEdges;
use arrayvec::ArrayVec;
use deck_cases::{Choice, push_choice, push_ship};
use diff_rules::Edge;
use lock_model::{DECISIONS, Deck};
use std::marker::Model;

/// A case that grows by options and shrinks again.
#[derive(Drop)]
pub(crate) struct Case {
    choices: ArrayVec<Choice, DECISIONS>,
    edges: CaseEdges,
}

impl Model for Case {
    ghost use Rattle.place_refute.specs.Drawn.{Drawn};

    ghost Value = { Drawn };

    ghost view = { λ a. record { choices = a.choices.items; edges = a.edges } };
}

// The edges that keep the ships of a deck inside.
#[tactic(auto, using(crate::proofs::DrawnLemmas::edges_more, crate::proofs::DrawnLemmas::edges_room))]
fn deck_edges(deck: &Deck) -> CaseEdges
    ensures { result ≡ deck_edges deck.now (length deck.now.ships) }
{
    let mut edges = CaseEdges::new();
    let count = deck.ships.as_slice().len() as u8;
    for ship in 0..count {
        push_ship(&mut edges, deck, ship);
    }
    edges
}

impl Case {
    /// The empty case of a deck.
    pub(crate) fn of(deck: &Deck) -> Case
        ensures { result ≡ record { choices = []; edges = deck_edges deck.now (length deck.now.ships) } }
    {
        Case {
            choices: ArrayVec::new(),
            edges: deck_edges(deck),
        }
    }

    /// How many options there are.
    pub(crate) fn len(&self) -> usize
        ensures { result ≡ length self.now.choices }
    {
        self.choices.len()
    }

    /// The options in order.
    pub(crate) fn choices(&self) -> &[Choice]
        ensures { result.now ≡ self.now.choices }
    {
        self.choices.as_slice()
    }

    /// The edges in order.
    pub(crate) fn edges(&self) -> &[Edge]
        ensures { result.now ≡ self.now.edges }
    {
        self.edges.as_slice()
    }

    /// Takes an option.
    pub(crate) fn push(&mut self, deck: &Deck, choice: Choice)
        requires room { length self.old.choices < DECISIONS }
        requires edges { length self.old.edges + 4 ≤ EDGES }
        requires known { IsOfDeck deck.now choice }
        ensures { self.new ≡ record { choices = self.old.choices ++ choice ∷ []; edges = self.old.edges ++ choice_edges deck.now choice } }
    {
        self.choices.push(choice);
        push_choice(&mut self.edges, deck, choice);
    }

    /// Goes back to the first options and edges.
    pub(crate) fn back(&mut self, choices: usize, edges: usize)
        requires choices { choices ≤ length self.old.choices }
        requires edges { edges ≤ length self.old.edges }
        ensures choices { self.new.choices ≡ take choices self.old.choices }
        ensures edges { self.new.edges ≡ take edges self.old.edges }
    {
        self.choices.truncate(choices);
        self.edges.truncate(edges);
    }
}
