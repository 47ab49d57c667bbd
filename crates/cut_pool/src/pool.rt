//! The pool.
ghost use Rattle.std.specs.Prelude.{◌≡◌, ◌<◌, length, All, IfOk, IfErr, IfSome, IfNone};
ghost use Rattle.boxcar.specs.Table.{Shows};
ghost use Rattle.cut_pool.specs.Hitting.{IsHit, HasHit};

use crate::entry::{Back, Entry, Token};
use crate::tokens::Tokens;
use deck_cuts::{Cut, cut_hits};
use lock_model::{Instance, Ships};
use no_memory::NoMemory;
use std::alloc::Global;
use std::marker::Model;
use std::sync::Wait;

/// Cuts that workers post and read through a shared reference.
#[derive(Drop)]
pub struct Pool {
    entries: boxcar::Vec<Entry>,
}

impl Model for Pool {
    ghost use Rattle.boxcar.specs.Table.{Shelves};

    ghost Value = { Shelves };

    ghost view = { λ p. p.entries };
}

impl Pool {
    /// An empty pool. Refuses want of memory alone.
    pub fn new(alloc: Global) -> Result<Pool, NoMemory> {
        let entries = boxcar::Vec::new(alloc)?;
        Ok(Pool { entries })
    }

    /// Posts a cut with its number in the book, and gives a token of this pool for the entry. Refuses
    /// want of memory alone, and hands the cut back then. It may wait for another thread that posts
    /// at the same time.
    pub fn post<W: Wait>(&self, rt: &W, cut: Cut, number: u64) -> Result<Token, Back>
        ensures token { IfOk result (λ token. Shows self.now token) }
        ensures entry { IfOk result (λ token. token.value ≡ record { cut = cut; number = number }) }
        ensures back { IfErr result (λ back. back.cut ≡ cut) }
    {
        match self.entries.push_shown(rt, Entry { cut, number }) {
            Ok(token) => Ok(token),
            Err(entry) => {
                let Entry { cut, number: _ } = entry;
                Err(Back { cut })
            }
        }
    }

    /// The entry that was posted with a token of this pool, by whatever thread. Takes no memory.
    pub fn get<'a>(&'a self, token: &Token) -> &'a Entry
        requires { Shows self.now token.now }
        ensures { result.now ≡ token.now.value }
    {
        self.entries.value(token)
    }

    /// The number of an entry whose cut hits a chamber with these ships. It looks at the entries of the
    /// tokens first, which are of this pool, and then at all that it meets. None only where no entry of
    /// the tokens hits. Takes no memory.
    pub fn find(
        &self,
        mine: &Tokens,
        instance: &Instance,
        chamber: u8,
        ships: &Ships,
    ) -> Option<u64>
        requires tokens { All (λ token. Shows self.now token) mine.now }
        requires chamber_in { chamber < length instance.now.chambers }
        requires ships_in { All (λ s. s < length instance.now.ships) ships.now }
        ensures some { IfSome result (λ number. HasHit self.now instance.now chamber ships.now number) }
        ensures none { IfNone result (All (λ token. IsHit token.value instance.now chamber ships.now → ⊥) mine.now) }
    {
        match self.find_known(mine.as_slice(), instance, chamber, ships) {
            Some(number) => Some(number),
            None => self.find_any(instance, chamber, ships),
        }
    }

    // The number of a token's entry, where its cut hits.
    fn hit_by(&self, token: &Token, instance: &Instance, chamber: u8, ships: &Ships) -> Option<u64>
        requires token { Shows self.now token.now }
        requires chamber_in { chamber < length instance.now.chambers }
        requires ships_in { All (λ s. s < length instance.now.ships) ships.now }
        ensures some { IfSome result (λ number. HasHit self.now instance.now chamber ships.now number) }
        ensures none { IfNone result (IsHit token.now.value instance.now chamber ships.now → ⊥) }
    {
        let entry = self.get(token);
        if cut_hits(&entry.cut, instance, chamber, ships) {
            Some(entry.number)
        } else {
            None
        }
    }

    // Looks at the entries of tokens.
    fn find_known(
        &self,
        tokens: &[Token],
        instance: &Instance,
        chamber: u8,
        ships: &Ships,
    ) -> Option<u64>
        requires tokens { All (λ token. Shows self.now token) tokens.now }
        requires chamber_in { chamber < length instance.now.chambers }
        requires ships_in { All (λ s. s < length instance.now.ships) ships.now }
        ensures some { IfSome result (λ number. HasHit self.now instance.now chamber ships.now number) }
        ensures none { IfNone result (All (λ token. IsHit token.value instance.now chamber ships.now → ⊥) tokens.now) }
    {
        for token in tokens {
            if let Some(number) = self.hit_by(token, instance, chamber, ships) {
                return Some(number);
            }
        }
        None
    }

    // Walks the whole pool, as far as it is seen from here.
    fn find_any(&self, instance: &Instance, chamber: u8, ships: &Ships) -> Option<u64>
        requires chamber_in { chamber < length instance.now.chambers }
        requires ships_in { All (λ s. s < length instance.now.ships) ships.now }
        ensures { IfSome result (λ number. HasHit self.now instance.now chamber ships.now number) }
    {
        for (index, _) in self.entries.iter() {
            if let Some(token) = self.entries.witness(index) {
                if let Some(number) = self.hit_by(&token, instance, chamber, ships) {
                    return Some(number);
                }
            }
        }
        None
    }
}
