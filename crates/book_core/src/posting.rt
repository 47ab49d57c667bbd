//! The event that keeps a cut.
ghost use Rattle.std.specs.Prelude.{◌≡◌, ◌<◌, length, nat_lt, All, IsTrue, IfOk, IfErr};
ghost use Rattle.std.specs.List.{list_all};
ghost use Rattle.refute_rules.specs.Cuts.{IsCut};
ghost use Rattle.book_rules.specs.Events.{post};
ghost use Rattle.book_rules.specs.Tests.{is_own_cut};
ghost use Rattle.book_core.specs.Growing.{kept_cut};
ghost use Rattle.book_core.specs.Keeps.{IsSound};
ghost use Rattle.book_core.specs.Replies.{Does};

use crate::book::Book;
use crate::decks::same_deck;
use crate::growing::widen;
use crate::reply::{Refusal, Reply};
use book_rules::Entry;
use deck_cuts::Cut;
use lock_model::{Instance, deck_of};
use mooring_rules::has_ships;
use no_memory::NoMemory;

// Whether the instance has all ships of a cut.
fn has_its_ships(instance: &Instance, cut: &Cut) -> bool
    ensures value { result ≡ list_all (λ s. nat_lt s (length instance.now.ships)) cut.now.ships }
    ensures known { IsTrue result → All (λ s. s < length instance.now.ships) cut.now.ships }
{
    has_ships(instance, cut.ships.as_slice())
}

// Whether a cut is about a chamber and ships of the instance, and its deck is theirs.
fn is_own(instance: &Instance, cut: &Cut) -> bool
    ensures { result ≡ is_own_cut instance.now cut.now }
{
    (cut.chamber as usize) < instance.chambers.as_slice().len()
        && has_its_ships(instance, cut)
        && same_deck(&cut.deck, &deck_of(instance, cut.chamber, &cut.ships))
}

// What the type of cuts keeps.
fn known_cut(cut: &Cut)
    ensures { IsCut cut.now }
{
    let _ = &cut.chamber;
}

impl Book {
    // Appends a cut.
    fn keep_cut(&mut self, cut: Cut) -> Result<(), NoMemory>
        requires { IsSound (kept_cut self.old cut) }
        ensures some { IfOk result (λ _. self.new ≡ kept_cut self.old cut) }
        ensures none { IfErr result (λ _. self.new ≡ self.old) }
    {
        let needed = self.entries_needed()?;
        widen(&mut self.history, needed)?;
        self.cuts.push(cut)?;
        self.history.push_reserved(Entry::Post);
        Ok(())
    }

    // How many cuts are kept.
    fn cuts_len(&self) -> u64
        ensures value { result ≡ length self.now.cuts }
        ensures sound { IsSound self.now }
    {
        self.cuts.len() as u64
    }

    /// Keeps a cut of this instance: its number is the count of cuts before. Refuses `OtherDeck`,
    /// and `NoMemory`, after which the book is as it was; a refused cut is dropped.
    pub fn post(&mut self, cut: Cut) -> Reply
        ensures { Does self.old (post cut) result self.new }
    {
        if !is_own(self.instance(), &cut) {
            return Reply::Refused(Refusal::OtherDeck);
        }
        known_cut(&cut);
        let number = self.cuts_len();
        match self.keep_cut(cut) {
            Ok(()) => Reply::Posted(number),
            Err(NoMemory) => Reply::Refused(Refusal::NoMemory),
        }
    }
}
