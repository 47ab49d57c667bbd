//! The event that parks a slot.
ghost use Rattle.std.specs.Prelude.{◌≡◌, true};
ghost use Rattle.refute_rules.specs.Spots.{IsSpotHard};
ghost use Rattle.book_rules.specs.Book.{slot_at, is_held};
ghost use Rattle.book_rules.specs.Events.{park};
ghost use Rattle.book_core.specs.Parking.{names_lent};
ghost use Rattle.book_core.specs.Replies.{Answers};

use crate::book::Book;
use crate::decks::{deck_clashes, same_deck};
use crate::reply::{Refusal, Reply};
use book_rules::{Entry, SlotState};
use deck_cuts::Hard;
use lock_model::deck_of;

impl Book {
    // Whether the deck of the named group of a held slot's node is the lent value's, and its turns are
    // at least the case's.
    fn names_lent(&self, id: u32, chamber: u8, place: u8, hard: &Hard) -> bool
        requires { is_held (slot_at self.now id).state ≡ true }
        ensures { result ≡ names_lent self.now id chamber place hard.now.deck hard.now.turns }
    {
        let node = self.held_node(id);
        if chamber as usize >= self.instance().chambers.as_slice().len() {
            return false;
        }
        let line = node.line(chamber);
        if place as usize >= line.len() {
            return false;
        }
        let deck = deck_of(self.instance(), chamber, &line[place as usize].ships);
        same_deck(&deck, &hard.deck) && self.turns() <= hard.turns
    }

    /// Parks a held slot whose group `place` of this chamber spent its turns: the lent value's deck
    /// is hard and spot-hard for its turns. Refuses `NotHeld`, then `OtherDeck` where there is no
    /// such group, its deck is another one or the lent turns are below the case's, then `Clashes`
    /// where two of its ships clash. Takes no memory.
    pub fn park(&mut self, id: u32, chamber: u8, place: u8, hard: &Hard) -> Reply
        requires { IsSpotHard hard.now.deck hard.now.turns }
        ensures { Answers self.old (park id chamber place hard.now.deck hard.now.turns) result self.new }
    {
        if !self.is_held(id) {
            return Reply::Refused(Refusal::NotHeld(id));
        }
        if !self.names_lent(id, chamber, place, hard) {
            return Reply::Refused(Refusal::OtherDeck);
        }
        if deck_clashes(&hard.deck) {
            return Reply::Refused(Refusal::Clashes(id));
        }
        let parked = SlotState::Parked(chamber, place);
        self.settle(id, parked, Entry::Park(id, chamber, place));
        Reply::Parked
    }
}
