//! Answers of the placers by chamber and ships.
ghost use Rattle.std.specs.Prelude.{◌≡◌, OnOk, OnErr, IfSome};
ghost use Rattle.std.specs.HashMap.{values, get, Updates, IsEmpty, IsUnchanged};
ghost use Rattle.std.specs.List.{IsAmong};
ghost use Rattle.std.specs.Option.{option_copied};
ghost use Rattle.placed_groups.specs.Said.{key_of, are_same};

use crate::group_key::GroupKey;
use deck_cuts::{Hard, HardSpots};
use lock_model::{Ships, Spots};
use no_memory::NoMemory;
use std::alloc::Global;
use std::collections::HashMap;

/// What the placers said of the ships of a chamber.
#[derive(Drop)]
pub enum Said {
    /// The ships fit; these are legal spots.
    Fits(Spots),
    /// Neither placer came to an end within the turns.
    Spent(Hard, HardSpots),
}

/// What was said, by chamber and ships.
#[derive(Drop)]
pub struct Memory {
    said: HashMap<GroupKey, Said>,
}

impl Memory {
    /// Nothing was said yet.
    pub fn new(alloc: Global) -> Memory
        ensures { IsEmpty result.said }
    {
        Memory {
            said: HashMap::new(alloc),
        }
    }

    /// What was said last of these ships of this chamber.
    pub fn find(&self, chamber: u8, ships: &Ships) -> Option<&Said>
        ensures value { option_copied result ≡ get are_same self.now.said (key_of chamber ships.now) }
        ensures member { IfSome result (λ said. IsAmong (values self.now.said) said.now) }
    {
        self.said.get(&GroupKey::of(chamber, ships))
    }

    /// Keeps what was said of these ships of this chamber, in the place of what was said before, and
    /// all that was said of others. After want of memory all is as before.
    pub fn keep(&mut self, chamber: u8, ships: &Ships, said: Said) -> Result<(), NoMemory>
        ensures ok { OnOk result (Updates are_same self.old.said self.new.said (key_of chamber ships.now) (Some said)) }
        ensures err { OnErr result (IsUnchanged self.old.said self.new.said) }
    {
        match self.said.insert(GroupKey::of(chamber, ships), said) {
            Ok(_) => Ok(()),
            Err(_) => Err(NoMemory),
        }
    }
}
