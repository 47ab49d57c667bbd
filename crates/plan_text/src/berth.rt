//! The lines of a lockage as they were read.
ghost use Rattle.std.specs.Prelude.{◌≡◌, ◌<◌, ◌≤◌, [], ◌∷◌, ◌++◌, length};

use arrayvec::ArrayVec;
use lock_model::{MOST, Rank, Way};
use std::marker::Model;

/// What a lockage line says: the chamber by its number, and the minute of the start.
#[derive(Clone, Copy)]
pub struct Head {
    pub chamber: u8,
    pub way: Way,
    pub start: u32,
}

/// What a ship is moored to: the quay of its rank, or a ship by its number in the instance.
#[derive(Clone, Copy, Default)]
pub enum Host {
    #[default]
    Quay,
    Ship(u8),
}

/// What a berth line says, with its number in the text. The ship is numbered as in the instance,
/// and x and y are decimetres.
#[derive(Clone, Copy, Default)]
pub struct Berth {
    pub line: u64,
    pub ship: u8,
    pub x: u32,
    pub y: u32,
    pub rank: Rank,
    pub host: Host,
}

/// Up to eight berths in the order of their lines.
#[derive(Drop)]
pub struct Berths {
    items: ArrayVec<Berth, MOST>,
}

impl Model for Berths {
    ghost use Rattle.std.specs.Prelude.{List};
    ghost use Rattle.plan_text.specs.declared.berth.Berth.{Berth};

    ghost Value = { List Berth };

    ghost view = { λ a. a.items.items };

    ghost inverse = { λ xs. record { items = record { items = xs } } };
}

impl Berths {
    /// No berths.
    pub fn new() -> Berths
        ensures { result ≡ [] }
    {
        Berths {
            items: ArrayVec::new(),
        }
    }

    /// The berths in order.
    pub fn as_slice(&self) -> &[Berth]
        ensures value { result.now ≡ self.now }
        ensures fits { length result.now ≤ MOST }
    {
        self.items.as_slice()
    }

    /// Appends a berth.
    pub fn push(&mut self, berth: Berth)
        requires { length self.old < MOST }
        ensures { self.new ≡ self.old ++ berth ∷ [] }
    {
        self.items.push(berth);
    }
}
