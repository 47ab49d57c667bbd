//! The edges of a case, and its longest paths or a fault.
ghost use Rattle.std.specs.Prelude.{ℕ, ◌≡◌, ◌≤◌, ◌<◌, ◌+◌, ◌*◌, ◌++◌, [], ◌∷◌, length, take, IfOk, IfErr, IfSome, IfNone};
ghost use Rattle.lock_model.specs.Deck.{IsDeck};
ghost use Rattle.diff_system.specs.PathTree.{AreLongest};
ghost use Rattle.refute_rules.specs.Choices.{decisions};
ghost use Rattle.refute_rules.specs.Edges.{case_edges};
ghost use Rattle.refute_rules.specs.Decided.{HasOtherRank};
ghost use Rattle.refute_rules.specs.Cases.{IsCaseFault, vars_of};
ghost use Rattle.chamber_place.specs.Faults.{fault_of};
ghost use Rattle.chamber_place.specs.OnItsWay.{AreChosen, IsSettled};

use crate::edges::CaseEdges;
use crate::faults::CaseFault;
use crate::ranks::first_other_rank;
use deck_cases::{Choice, push_ship};
use diff_system::{Edges, LongestPaths};
use lock_model::Deck;

// How many variables a deck has: the origin, and x and y of each ship.
fn var_count(deck: &Deck) -> u8
    ensures count { result ≡ vars_of deck.now }
    ensures limits { IsDeck deck.now }
{
    1 + 2 * deck.ships.as_slice().len() as u8
}

// The first ship whose host has the other rank, once the last option is taken. Only a berth can
// bring this about.
fn new_other_rank(deck: &Deck, choices: &[Choice], last: Choice) -> Option<u8>
    requires chosen { AreChosen deck.now (decisions (length deck.now.ships)) choices.now }
    requires last { (before : _) × (choices.now ≡ before ++ last ∷ []) × ((i : ℕ) → HasOtherRank before i → ⊥) }
    ensures some { IfSome result (HasOtherRank choices.now) }
    ensures none { IfNone result ((i : ℕ) → HasOtherRank choices.now i → ⊥) }
{
    match last {
        Choice::Lies(_, _) => first_other_rank(choices, deck.ships.as_slice().len() as u8),
        Choice::Before(_, _) => None,
        Choice::Below(_, _) => None,
        Choice::LiesAt(_, _) => None,
    }
}

/// Goes on from the longest paths of a case without its last option, or finds a fault.
pub(crate) fn solve(
    deck: &Deck,
    choices: &[Choice],
    last: Choice,
    edges: &Edges,
    known: usize,
    before: &LongestPaths,
) -> Result<LongestPaths, CaseFault>
    requires chosen { AreChosen deck.now (decisions (length deck.now.ships)) choices.now }
    requires last { (before : _) × (choices.now ≡ before ++ last ∷ []) × ((i : ℕ) → HasOtherRank before i → ⊥) }
    requires edges { edges.now ≡ case_edges deck.now choices.now }
    requires known { known ≤ length edges.now }
    requires longest { AreLongest (take known edges.now) (vars_of deck.now) before.now }
    ensures settled { IfOk result (IsSettled deck.now choices.now) }
    ensures fault { IfErr result (λ fault. IsCaseFault deck.now choices.now (fault_of fault)) }
{
    if let Some(ship) = new_other_rank(deck, choices, last) {
        return Err(CaseFault::OtherRank(ship));
    }
    match before.extended(edges, var_count(deck), known) {
        Ok(paths) => Ok(paths),
        Err(numbers) => Err(CaseFault::Walk(numbers)),
    }
}

/// The edges of the empty case.
pub(crate) fn first_edges(deck: &Deck) -> CaseEdges
    ensures { result ≡ case_edges deck.now [] }
{
    let mut edges = CaseEdges::new();
    for ship in 0..deck.ships.as_slice().len() as u8 {
        push_ship(&mut edges, deck, ship);
    }
    edges
}

/// The longest paths of the empty case, or a fault.
pub(crate) fn solve_first(deck: &Deck, edges: &Edges) -> Result<LongestPaths, CaseFault>
    requires { edges.now ≡ case_edges deck.now [] }
    ensures settled { IfOk result (IsSettled deck.now []) }
    ensures fault { IfErr result (λ fault. IsCaseFault deck.now [] (fault_of fault)) }
{
    match LongestPaths::of(edges, var_count(deck)) {
        Ok(paths) => Ok(paths),
        Err(numbers) => Err(CaseFault::Walk(numbers)),
    }
}
