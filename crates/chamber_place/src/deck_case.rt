//! The case of a deck that the search holds.

use crate::edges::{CaseEdges, edge_count};
use crate::faults::{CaseFault, write_fault};
use crate::parts::ship_count;
use crate::solving::{first_edges, solve, solve_first};
use crate::spotting::spots_of;
use arrayvec::ArrayVec;
use case_search::Track;
use deck_cases::{Choice, Decisions, case_decisions, option_at, option_count, push_choice};
use diff_system::LongestPaths;
use lock_model::{DECISIONS, Deck, Spots};
use refute_rules::Marks;
use std::alloc::AllocError;
use std::marker::Model;

/// A case of berths and relations on its way through the decisions of a deck.
///
/// It keeps the longest paths of each beginning of the case, so that each option goes on from those
/// before it and is taken back for free. It takes no memory.
#[derive(Drop)]
pub(crate) struct DeckCase {
    deck: Deck,
    decisions: Decisions,
    choices: ArrayVec<Choice, DECISIONS>,
    edges: CaseEdges,
    paths: ArrayVec<LongestPaths, 37>,
    fault: Option<CaseFault>,
}

impl Model for DeckCase {
    ghost use Rattle.chamber_place.specs.OnItsWay.{Progress, IsOnItsWay};

    ghost Value = { Progress };

    ghost view = { λ a. record { deck = a.deck; case = a.choices.items } };

    ghost invariant = { λ a. IsOnItsWay a.deck a.decisions a.choices.items a.edges a.paths.items a.fault };
}

impl DeckCase {
    ghost use Rattle.std.specs.Prelude.{◌≡◌, []};
    ghost use Rattle.chamber_place.specs.OnItsWay.{Progress};

    /// The empty case of a deck.
    pub(crate) fn new(deck: &Deck) -> DeckCase
        ensures { result ≡ record { deck = deck.now; case = [] } }
    {
        let deck = deck.copy();
        let decisions = case_decisions(deck.ships.as_slice().len() as u8);
        let edges = first_edges(&deck);
        let mut paths = ArrayVec::new();
        match solve_first(&deck, edges.all()) {
            Ok(first) => {
                paths.push(first);
                DeckCase {
                    deck,
                    decisions,
                    choices: ArrayVec::new(),
                    edges,
                    paths,
                    fault: None,
                }
            }
            Err(fault) => DeckCase {
                deck,
                decisions,
                choices: ArrayVec::new(),
                edges,
                paths,
                fault: Some(fault),
            },
        }
    }
}

impl DeckCase {
    ghost use Rattle.std.specs.Prelude.{ℕ, ◌<◌, length};
    ghost use Rattle.refute_rules.specs.Cases.{IsConsistent, AreSpotsOf};
    ghost use Rattle.chamber_place.specs.OnItsWay.{Progress};
    ghost use Rattle.chamber_place.specs.Spotting.{IsBerthDecided};

    /// The least solution of a good case that decides all berths.
    pub(crate) fn spots(&self) -> Spots
        requires good { IsConsistent self.now.deck self.now.case }
        requires decided { (i : ℕ) → i < length self.now.deck.ships → IsBerthDecided self.now.case i }
        ensures { AreSpotsOf self.now.deck self.now.case result }
    {
        let choices = self.choices.as_slice();
        let paths = &self.paths.as_slice()[choices.len()];
        spots_of(choices, paths.values().as_slice(), ship_count(&self.deck))
    }
}

impl Track for DeckCase {
    ghost use Rattle.chamber_place.specs.OnItsWay.{Progress, case_rules};
    ghost use Rattle.chamber_place.specs.CaseLaws.{case_laws};

    type Fault = CaseFault;

    ghost deck = { λ t. t.deck };

    ghost case = { λ t. t.case };

    ghost rules = { case_rules };

    fn counts_faulty(&self) -> bool {
        false
    }

    fn judge(&self) -> Option<CaseFault> {
        match &self.fault {
            Some(fault) => Some(fault.copy()),
            None => None,
        }
    }

    fn write_fault(&self, fault: &CaseFault, marks: &mut Marks) -> Result<(), AllocError> {
        write_fault(fault, marks)
    }

    fn is_whole(&self) -> bool {
        self.choices.len() == self.decisions.len()
    }

    fn count(&self) -> u32 {
        let taken = self.choices.len();
        if taken < self.decisions.len() {
            let decision = self.decisions.at(taken);
            option_count(&self.deck, &[], decision) as u32
        } else {
            0
        }
    }

    fn enter(&mut self, option: u32) {
        let taken = self.choices.len();
        let decision = self.decisions.at(taken);
        let last = option_at(&self.deck, &[], decision, option as usize);
        let known = self.edges.len();
        push_choice(&mut self.edges, &self.deck, last);
        self.choices.push(last);
        let solved = solve(
            &self.deck,
            self.choices.as_slice(),
            last,
            self.edges.all(),
            known,
            &self.paths.as_slice()[taken],
        );
        match solved {
            Ok(paths) => self.paths.push(paths),
            Err(fault) => self.fault = Some(fault),
        }
    }

    fn leave(&mut self) {
        let left = self.choices.len() - 1;
        let count = edge_count(&self.deck, &self.choices.as_slice()[left]);
        self.edges.truncate(self.edges.len() - count);
        self.choices.truncate(left);
        self.paths.truncate(left + 1);
        self.fault = None;
    }

    ghost lawful = { case_laws };
}
