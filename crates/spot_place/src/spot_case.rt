//! A spot case on its way through the spot decisions.
ghost use Rattle.std.specs.Prelude.{◌≡◌, ◌<◌, ◌≤◌, ◌↔◌, ◌-◌, [], ◌∷◌, ◌++◌, length, suc, take, Some, IfSome, IsTrue, false};
ghost use Rattle.refute_rules.specs.Values.{spot_values};
ghost use Rattle.refute_rules.specs.SpotFaults.{IsFaultless};
ghost use Rattle.refute_rules.specs.Decided.{berth_in, x_in};
ghost use Rattle.refute_rules.specs.Known.{y_in, host_of};
ghost use Rattle.refute_rules.specs.Choices.{IsKnownMoor};
ghost use Rattle.spot_place.specs.SpotCase.{case_on, IsOnWay};

use crate::berths::host_of;
use crate::geometry::ship_count;
use crate::heights::{Heights, heights_of};
use arrayvec::ArrayVec;
use deck_cases::Berth;
use deck_laws::SpotList;
use lock_model::{Deck, MOST};
use std::marker::Model;

// The heights of a deck's ships after each berth, and before the first.
const LEVELS: usize = MOST + 1;

/// The berths of the first ships of a deck, and the x of these or of all of them but the last. The
/// case without its last option has no fault: it is one that takes a turn.
#[derive(Drop)]
pub(crate) struct SpotCase {
    pub(crate) deck: Deck,
    pub(crate) values: SpotList,
    pub(crate) berths: ArrayVec<Berth, MOST>,
    pub(crate) places: ArrayVec<u32, MOST>,
    pub(crate) levels: ArrayVec<Heights, LEVELS>,
}

impl Model for SpotCase {
    ghost use Rattle.spot_place.specs.SpotCase.{OnWay, KeepsSpotCase};

    ghost Value = { OnWay };

    ghost view = { λ a. record { deck = a.deck; berths = a.berths.items; places = a.places.items } };

    ghost invariant = { λ a. KeepsSpotCase a.deck a.values a.berths.items a.places.items a.levels.items };
}

impl SpotCase {
    /// The empty case of a deck with these spot values.
    pub(crate) fn new(deck: Deck, values: SpotList) -> SpotCase
        requires { values ≡ spot_values deck }
        ensures { result ≡ record { deck = deck; berths = []; places = [] } }
    {
        let berths = ArrayVec::new();
        let mut levels = ArrayVec::new();
        levels.push(heights_of(&deck, berths.as_slice()));
        SpotCase {
            deck,
            values,
            berths,
            places: ArrayVec::new(),
            levels,
        }
    }

    /// How many ships the deck has.
    pub(crate) fn ships(&self) -> u8
        ensures value { result ≡ length self.now.deck.ships }
        ensures few { result ≤ MOST }
    {
        ship_count(&self.deck)
    }

    /// Whether the ship that was moored last has no x yet.
    pub(crate) fn wants_place(&self) -> bool
        ensures way { IsOnWay self.now.deck self.now.berths self.now.places }
        ensures wants { IsTrue result ↔ (length self.now.berths ≡ suc (length self.now.places)) }
        ensures even { result ≡ false → length self.now.berths ≡ length self.now.places }
    {
        self.berths.len() > self.places.len()
    }

    /// The y of a ship of the deck, where it is known.
    pub(crate) fn height(&self, ship: u8) -> Option<i32>
        requires { ship < length self.now.deck.ships }
        ensures { result ≡ y_in self.now.deck (case_on self.now) ship }
    {
        let level = &self.levels[self.berths.len()];
        level.as_slice()[ship as usize]
    }

    /// The x of a ship that has one.
    pub(crate) fn x_of(&self, ship: u8) -> u32
        requires { ship < length self.now.places }
        ensures decided { x_in (case_on self.now) ship ≡ Some result }
        ensures ship { ship < length self.now.deck.ships }
    {
        self.places[ship as usize]
    }

    /// The host of a ship, where its berth is decided and it has one.
    pub(crate) fn host(&self, ship: u8) -> Option<u8>
        ensures host { result ≡ host_of (berth_in (case_on self.now) ship) }
        ensures known { IfSome result (λ host. host < length self.now.deck.ships) }
    {
        host_of(self.berths.as_slice(), ship)
    }

    /// Puts the next ship at a berth.
    pub(crate) fn moor(&mut self, berth: Berth)
        requires room { length self.old.berths < length self.old.deck.ships }
        requires step { length self.old.berths ≡ length self.old.places }
        requires known { IsKnownMoor self.old.deck berth.moor }
        requires good { IsFaultless self.old.deck (case_on self.old) }
        ensures { self.new ≡ record { deck = self.old.deck; berths = self.old.berths ++ berth ∷ []; places = self.old.places } }
    {
        self.berths.push(berth);
        let heights = heights_of(&self.deck, self.berths.as_slice());
        self.levels.push(heights);
    }

    /// Puts the ship that was moored last at an x.
    pub(crate) fn place(&mut self, x: u32)
        requires step { length self.old.berths ≡ suc (length self.old.places) }
        requires good { IsFaultless self.old.deck (case_on self.old) }
        ensures { self.new ≡ record { deck = self.old.deck; berths = self.old.berths; places = self.old.places ++ x ∷ [] } }
    {
        self.places.push(x);
    }

    /// Takes the last berth back.
    pub(crate) fn unmoor(&mut self)
        requires { length self.old.berths ≡ suc (length self.old.places) }
        ensures { self.new ≡ record { deck = self.old.deck; berths = take (length self.old.places) self.old.berths; places = self.old.places } }
    {
        let count = self.places.len();
        self.berths.truncate(count);
        self.levels.truncate(count + 1);
    }

    /// Takes the last x back.
    pub(crate) fn unplace(&mut self)
        requires some { 0 < length self.old.places }
        requires step { length self.old.berths ≡ length self.old.places }
        ensures { self.new ≡ record { deck = self.old.deck; berths = self.old.berths; places = take (length self.old.places - 1) self.old.places } }
    {
        let count = self.places.len() - 1;
        self.places.truncate(count);
    }
}
