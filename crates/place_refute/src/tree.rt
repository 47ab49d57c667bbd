//! Walks over the marks of a case tree or of a spot tree. No call goes deeper than the decisions
//! of the deck.
ghost use Rattle.std.specs.Prelude.{◌≡◌, ◌<◌, ◌≤◌, length, IfSome, IfNone};
ghost use Rattle.deck_cases.specs.Asked.{IsOfDeck};
ghost use Rattle.place_refute.specs.Drawn.{IsDrawn};
ghost use Rattle.place_refute.specs.Walking.{IsReading, IsTreeEnd, HasNoTreeEnd, IsChildrenEnd, HasNoChildrenEnd, IsChildEnd, HasNoChildEnd};

use crate::case::Case;
use crate::leaf::{Trees, leaf_end};
use deck_cases::{Choice, Decisions, option_at, option_count};
use lock_model::Deck;

/// What a tree is read for: its deck and decisions, the values of an x, and the marks.
#[derive(Drop)]
pub(crate) struct Reading<'a> {
    pub(crate) deck: &'a Deck,
    pub(crate) trees: Trees,
    pub(crate) decisions: &'a Decisions,
    pub(crate) values: &'a [u32],
    pub(crate) marks: &'a [u32],
}

/// Where the tree of a case ends that stands at a place of the marks, if one stands there.
#[cycle(tree)]
pub(crate) fn tree_end(reading: &Reading, case: &mut Case, at: usize) -> Option<usize>
    requires reading { IsReading reading.now.deck.now reading.now.trees reading.now.decisions.now reading.now.values.now }
    requires drawn { IsDrawn reading.now.deck.now case.old }
    requires room { length case.old.choices ≤ length reading.now.decisions.now }
    ensures kept { case.new ≡ case.old }
    ensures some { IfSome result (IsTreeEnd reading.now case.old.choices at) }
    ensures none { IfNone result (HasNoTreeEnd reading.now case.old.choices at) }
{
    if at >= reading.marks.len() {
        return None;
    }
    if reading.marks[at] != 0 {
        return leaf_end(reading.deck, case, reading.trees, reading.marks, at);
    }
    if case.len() >= reading.decisions.len() {
        return None;
    }
    children_end(reading, case, at + 1)
}

// Where the trees of all extensions by the options of the next decision end, in order.
#[cycle(tree)]
fn children_end(reading: &Reading, case: &mut Case, first: usize) -> Option<usize>
    requires reading { IsReading reading.now.deck.now reading.now.trees reading.now.decisions.now reading.now.values.now }
    requires drawn { IsDrawn reading.now.deck.now case.old }
    requires room { length case.old.choices < length reading.now.decisions.now }
    requires first { first ≤ length reading.now.marks.now }
    ensures kept { case.new ≡ case.old }
    ensures some { IfSome result (IsChildrenEnd reading.now case.old.choices first) }
    ensures none { IfNone result (HasNoChildrenEnd reading.now case.old.choices first) }
{
    let decision = reading.decisions.at(case.len());
    let count = option_count(reading.deck, reading.values, decision);
    let mut end = first;
    for number in 0..count {
        let choice = option_at(reading.deck, reading.values, decision, number);
        match child_end(reading, case, choice, end) {
            None => return None,
            Some(next) => end = next,
        }
    }
    Some(end)
}

// Where the tree of the extension by an option ends.
#[cycle(tree)]
fn child_end(reading: &Reading, case: &mut Case, choice: Choice, at: usize) -> Option<usize>
    requires reading { IsReading reading.now.deck.now reading.now.trees reading.now.decisions.now reading.now.values.now }
    requires drawn { IsDrawn reading.now.deck.now case.old }
    requires room { length case.old.choices < length reading.now.decisions.now }
    requires known { IsOfDeck reading.now.deck.now choice }
    ensures kept { case.new ≡ case.old }
    ensures some { IfSome result (IsChildEnd reading.now case.old.choices choice at) }
    ensures none { IfNone result (HasNoChildEnd reading.now case.old.choices choice at) }
{
    let choices = case.len();
    let edges = case.edges().len();
    case.push(reading.deck, choice);
    let end = tree_end(reading, case, at);
    case.back(choices, edges);
    end
}
