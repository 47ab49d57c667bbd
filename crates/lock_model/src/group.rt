//! Ships that are served together, and the line of groups of a chamber.
ghost use Rattle.std.specs.Prelude.{◌≡◌, ◌<◌, ◌≤◌, [], ◌∷◌, ◌++◌, length, All, insert, slice_set, nat_eq};
ghost use Rattle.std.specs.Cmp.{partial_equiv_from_equiv};
ghost use Rattle.std.specs.Cmp.Lexicographic.{pointwise, nat_list_eq_equiv};
ghost use Rattle.std.specs.List.Sorted.{IsStrictlyIncreasing};

use crate::limits::{MOST, SHIPS};
use crate::way::Way;
use arrayvec::ArrayVec;
use std::marker::Model;

/// Up to `MOST` ship numbers, rising.
#[derive(Drop)]
pub struct Ships {
    count: u8,
    // the numbers, and then zeros, so that sets are compared as numbers of eight bytes
    bytes: [u8; MOST],
}

impl Model for Ships {
    ghost use Rattle.std.specs.Prelude.{ℕ, List, ◌≡◌, ◌≤◌, ◌-◌, take, drop, replicate};
    ghost use Rattle.std.specs.List.Sorted.{IsStrictlyIncreasing};
    ghost use Rattle.lock_model.specs.declared.limits.TheConstants.{MOST};

    ghost Value = { List ℕ };

    ghost view = { λ a. take a.count a.bytes };

    ghost invariant = { λ a. (a.count ≤ MOST) × IsStrictlyIncreasing (take a.count a.bytes) × (drop a.count a.bytes ≡ replicate (MOST - a.count) 0) };
}

impl Ships {
    /// No ships.
    pub fn new() -> Ships
        ensures { result ≡ [] }
    {
        Ships {
            bytes: [0; MOST],
            count: 0,
        }
    }

    /// One ship.
    pub fn single(ship: u8) -> Ships
        ensures { result ≡ ship ∷ [] }
    {
        let mut ships = Ships::new();
        ships.push(ship);
        ships
    }

    /// How many ships there are.
    pub fn len(&self) -> usize
        ensures value { result ≡ length self.now }
        ensures fits { result ≤ MOST }
    {
        self.count as usize
    }

    /// The ships in rising order.
    pub fn as_slice(&self) -> &[u8]
        ensures value { result.now ≡ self.now }
        ensures fits { length result.now ≤ MOST }
        ensures rising { IsStrictlyIncreasing result.now }
    {
        &self.bytes[..self.count as usize]
    }

    /// Appends a ship that is greater than those before.
    pub fn push(&mut self, ship: u8)
        requires room { length self.old < MOST }
        requires rising { All (λ s. s < ship) self.old }
        ensures { self.new ≡ self.old ++ ship ∷ [] }
    {
        self.bytes[self.count as usize] = ship;
        self.count += 1;
    }

    /// The same ships.
    pub fn copy(&self) -> Ships
        ensures { result ≡ self.now }
    {
        Ships {
            bytes: self.bytes,
            count: self.count,
        }
    }
}

impl Default for Ships {
    fn default() -> Ships
        ensures { result ≡ [] }
    {
        Ships::new()
    }
}

// Whether eight bytes are others.
fn same_bytes(one: [u8; MOST], others: [u8; MOST]) -> bool
    ensures { result ≡ pointwise nat_eq one others }
{
    u64::from_le_bytes(one) == u64::from_le_bytes(others)
}

impl PartialEq for Ships {
    ghost eq = { pointwise nat_eq };

    ghost laws = { partial_equiv_from_equiv nat_list_eq_equiv };

    fn eq(&self, other: &Self) -> bool {
        self.count == other.count && same_bytes(self.bytes, other.bytes)
    }
}

impl Eq for Ships {
    ghost laws = { nat_list_eq_equiv };
}

/// Ships of one way that share a lockage, by their numbers in the instance.
#[derive(PartialEq, Eq, Drop)]
pub struct Group {
    pub way: Way,
    pub ships: Ships,
}

// The bytes that a group takes: a node of a search copies many.
const _: () = prove!(size_of::<Group>() == 10);

impl Group {
    /// The same group.
    pub fn copy(&self) -> Group
        ensures { result ≡ self.now }
    {
        Group {
            way: self.way,
            ships: self.ships.copy(),
        }
    }
}

impl Default for Group {
    fn default() -> Group
        ensures { result ≡ record { way = Way.Up; ships = [] } }
    {
        Group {
            way: Way::Up,
            ships: Ships::new(),
        }
    }
}

/// Up to `SHIPS` groups of one chamber in order of service.
#[derive(Drop)]
pub struct Line {
    items: ArrayVec<Group, SHIPS>,
}

impl Model for Line {
    ghost use Rattle.std.specs.Prelude.{List};
    ghost use Rattle.lock_model.specs.declared.group.Group.{Group};

    ghost Value = { List Group };

    ghost view = { λ a. a.items.items };

    ghost inverse = { λ xs. record { items = record { items = xs } } };
}

impl Line {
    /// No groups.
    pub fn new() -> Line
        ensures { result ≡ [] }
    {
        Line {
            items: ArrayVec::new(),
        }
    }

    /// The groups in order of service.
    pub fn as_slice(&self) -> &[Group]
        ensures value { result.now ≡ self.now }
        ensures fits { length result.now ≤ SHIPS }
    {
        self.items.as_slice()
    }

    /// Appends a group.
    pub fn push(&mut self, group: Group)
        requires { length self.old < SHIPS }
        ensures { self.new ≡ self.old ++ group ∷ [] }
    {
        self.items.push(group);
    }

    /// Puts a group before group `i`, or behind the last one where `i` is their number.
    pub fn insert(&mut self, i: usize, group: Group)
        requires place { i ≤ length self.old }
        requires room { length self.old < SHIPS }
        ensures { self.new ≡ insert self.old i group }
    {
        self.items.insert(i, group);
    }

    /// Puts a group in the place of group `i`.
    pub fn set(&mut self, i: usize, group: Group)
        requires { i < length self.old }
        ensures { self.new ≡ slice_set self.old i group }
    {
        self.items[i] = group;
    }

    /// The same line.
    pub fn copy(&self) -> Line
        ensures { result ≡ self.now }
    {
        let mut items = ArrayVec::new();
        for group in self.items.as_slice() {
            items.push(group.copy());
        }
        Line { items }
    }
}

impl Default for Line {
    fn default() -> Line
        ensures { result ≡ [] }
    {
        Line::new()
    }
}
