//! The cases whose trees are still to be read: the case at hand, and those after it.
ghost use Rattle.std.specs.Prelude.{◌≡◌, [], ◌∷◌, ◌++◌, IfOk, OnOk};
ghost use Rattle.refute_rules.specs.BerthTrees.{OfBerth, OfOrder};
ghost use Rattle.berth_check.specs.Pending.{extensions, host_cases, all_host_cases, with_berth, IsAdvanced};

use crate::case::BerthCase;
use deck_cases::{Berth, Choice};
use lock_model::{Deck, Moor, Rank};
use no_memory::NoMemory;
use std::alloc::Global;
use std::marker::Model;

/// An option that is still to be read, behind the first so many options of the case at hand.
#[derive(Clone, Copy)]
pub(crate) struct Branch {
    kept: usize,
    choice: Choice,
}

/// The case at hand, and a stack of the cases after it, each kept as its last option alone.
#[derive(Drop)]
pub(crate) struct Pending {
    case: BerthCase,
    branches: Vec<Branch>,
}

impl Model for Pending {
    ghost use Rattle.std.specs.Prelude.{length, reverse};
    ghost use Rattle.berth_check.specs.Pending.{Ahead, AreKept, cases_after};

    ghost Value = { Ahead };

    ghost view = { λ a. record { case = a.case; others = cases_after a.case (reverse a.branches.items) } };

    ghost invariant = { λ a. AreKept (length a.case) (reverse a.branches.items) };
}

impl Pending {
    /// The case that decides nothing, and none after it.
    pub(crate) fn new(alloc: Global) -> Pending
        ensures { result ≡ record { case = []; others = [] } }
    {
        Pending {
            case: BerthCase::new(alloc),
            branches: Vec::new(alloc),
        }
    }

    /// The options of the case at hand.
    pub(crate) fn choices(&self) -> &[Choice]
        ensures { result.now ≡ self.now.case }
    {
        self.case.choices()
    }

    /// Puts the case at hand with one option more before the others.
    #[tactic(auto, using(crate::proofs::PendingLemmas::branch_put))]
    fn push(&mut self, choice: Choice) -> Result<(), NoMemory>
        ensures case { OnOk result (self.new.case ≡ self.old.case) }
        ensures others { OnOk result (self.new.others ≡ (self.old.case ++ choice ∷ []) ∷ self.old.others) }
    {
        let kept = self.case.len();
        match self.branches.push(Branch { kept, choice }) {
            Ok(()) => Ok(()),
            Err(_) => Err(NoMemory),
        }
    }

    /// Puts the case at hand with a ship at a berth before the others.
    fn push_berth(&mut self, ship: u8, rank: Rank, moor: Moor) -> Result<(), NoMemory>
        ensures case { OnOk result (self.new.case ≡ self.old.case) }
        ensures others { OnOk result (self.new.others ≡ with_berth self.old.case ship rank moor ∷ self.old.others) }
    {
        self.push(Choice::Lies(ship, Berth { rank, moor }))
    }

    /// Goes on to the next case, and tells whether there is one.
    pub(crate) fn advance(&mut self) -> Result<bool, NoMemory>
        ensures { IfOk result (IsAdvanced self.old self.new) }
    {
        match self.branches.pop() {
            None => Ok(false),
            Some(branch) => {
                self.case.truncate(branch.kept);
                self.case.push(branch.choice)?;
                Ok(true)
            }
        }
    }
}

// Puts the cases with a ship at another one, left and right, before the others.
fn push_host(pending: &mut Pending, ship: u8, host: u8) -> Result<(), NoMemory>
    ensures case { OnOk result (pending.new.case ≡ pending.old.case) }
    ensures others { OnOk result (pending.new.others ≡ host_cases pending.old.case ship host ++ pending.old.others) }
{
    if host == ship {
        return Ok(());
    }
    let moor = Moor::Ship(host);
    pending.push_berth(ship, Rank::Right, moor)?;
    pending.push_berth(ship, Rank::Left, moor)
}

// Puts the cases with a ship at each other ship before the others.
#[tactic(auto, using(crate::proofs::PendingLemmas::hosts_begun, crate::proofs::PendingLemmas::hosts_more, crate::proofs::PendingLemmas::hosts_done))]
fn push_hosts(pending: &mut Pending, deck: &Deck, ship: u8) -> Result<(), NoMemory>
    ensures case { OnOk result (pending.new.case ≡ pending.old.case) }
    ensures others { OnOk result (pending.new.others ≡ all_host_cases deck.now pending.old.case ship ++ pending.old.others) }
{
    let mut host = deck.ships.as_slice().len() as u8;
    while host > 0 {
        host = host - 1;
        push_host(pending, ship, host)?;
    }
    Ok(())
}

/// Puts the case at hand with each berth of a ship before the others.
#[tactic(auto, using(crate::proofs::PendingLemmas::berths_pushed))]
pub(crate) fn push_berths(pending: &mut Pending, deck: &Deck, ship: u8) -> Result<(), NoMemory>
    ensures { OnOk result (pending.new.others ≡ extensions deck.now pending.old.case (OfBerth ship) ++ pending.old.others) }
{
    push_hosts(pending, deck, ship)?;
    pending.push_berth(ship, Rank::Right, Moor::Quay)?;
    pending.push_berth(ship, Rank::Left, Moor::Quay)?;
    Ok(())
}

/// Puts the case at hand with both orders of two ships before the others.
pub(crate) fn push_orders(pending: &mut Pending, deck: &Deck, i: u8, j: u8) -> Result<(), NoMemory>
    ensures { OnOk result (pending.new.others ≡ extensions deck.now pending.old.case (OfOrder i j) ++ pending.old.others) }
{
    pending.push(Choice::Before(j, i))?;
    pending.push(Choice::Before(i, j))?;
    Ok(())
}
