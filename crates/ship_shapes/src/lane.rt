//! Lanes: what each ship of a deck needs across and along it.
ghost use Rattle.std.specs.Prelude.{◌≡◌, ◌+◌, ◌<◌, ◌≤◌, ◌^◌, ◌↔◌, false, length, IsTrue};
ghost use Rattle.ship_shapes.specs.Lanes.{AreCrowded, along_at};

use arrayvec::ArrayVec;
use lock_model::MOST;
use std::marker::Model;

/// What a ship needs of a lane, in decimetres: across it, and along it with the gap behind.
#[derive(Clone, Copy, Default)]
pub(crate) struct Need {
    pub(crate) across: u32,
    pub(crate) along: u32,
}

/// What the ships of a deck need of a lane. Two ships are crowded where their needs across with
/// the gap between them are above the width; ships are too long where their needs along with the
/// spare are above the reach.
#[derive(Drop)]
pub(crate) struct Lane {
    pub(crate) needs: ArrayVec<Need, MOST>,
    pub(crate) width: u32,
    pub(crate) between: u32,
    pub(crate) reach: u32,
    pub(crate) spare: u32,
}

impl Model for Lane {
    ghost use Rattle.ship_shapes.specs.Lanes.{Passage};

    ghost Value = { Passage };

    ghost view = { λ a. record { needs = a.needs.items; width = a.width; between = a.between; reach = a.reach; spare = a.spare } };
}

impl Lane {
    /// How many ships there are.
    pub(crate) fn count(&self) -> u8
        ensures value { result ≡ length self.now.needs }
        ensures few { result ≤ MOST }
    {
        self.needs.len() as u8
    }

    /// What a ship needs along the lane.
    pub(crate) fn along(&self, ship: u8) -> u64
        requires { ship < length self.now.needs }
        ensures value { result ≡ along_at self.now ship }
        ensures few { result < 2 ^ 32 }
        ensures room { length self.now.needs ≤ MOST }
    {
        self.needs.as_slice()[ship as usize].along as u64
    }

    /// Whether two ships have no room beside each other.
    pub(crate) fn are_crowded(&self, first: u8, second: u8) -> bool
        requires first { first < length self.now.needs }
        requires second { second < length self.now.needs }
        ensures { IsTrue result ↔ AreCrowded self.now first second }
    {
        let needs = self.needs.as_slice();
        let one = &needs[first as usize];
        let other = &needs[second as usize];
        one.across as u64 + self.between as u64 + other.across as u64 > self.width as u64
    }

    /// Whether this much along the lane is too long.
    pub(crate) fn is_long(&self, along: u64) -> bool
        requires { along ≤ 2 ^ 40 }
        ensures yes { IsTrue result ↔ self.now.reach < along + self.now.spare }
        ensures no { result ≡ false ↔ along + self.now.spare ≤ self.now.reach }
    {
        along + self.spare as u64 > self.reach as u64
    }
}
