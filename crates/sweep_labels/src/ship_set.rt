//! Sets of ships as numbers.
ghost use Rattle.std.specs.Prelude.{ℕ, ◌≡◌, ◌||◌, ◌<◌, ◌≤◌, ◌↔◌, false, IsTrue};
ghost use Rattle.sweep_labels.specs.Ships.{is_in, AreApart, HoldsAll, IsWith};

use lock_model::SHIPS;

// How many sets the lower half of the bits tells apart.
const HALF: u128 = 1 << 64;

/// A set of ships below `SHIPS`: the bits of a number.
#[derive(Clone, Copy, PartialEq, Eq)]
pub struct ShipSet {
    pub bits: u128,
}

impl ShipSet {
    /// No ship.
    pub fn new() -> ShipSet
        ensures { (s : ℕ) → is_in result.bits s ≡ false }
    {
        ShipSet { bits: 0 }
    }

    /// Whether a ship is in the set.
    #[inline(always)]
    pub fn has(&self, ship: u8) -> bool
        requires { ship < SHIPS }
        ensures { result ≡ is_in self.now.bits ship }
    {
        self.bits >> ship & 1 == 1
    }

    /// Whether no ship is in both sets.
    #[inline(always)]
    pub fn misses(&self, other: &ShipSet) -> bool
        ensures { IsTrue result ↔ AreApart self.now.bits other.now.bits }
    {
        self.bits & other.bits == 0
    }

    /// Whether all ships of a set are among these.
    pub fn holds(&self, other: &ShipSet) -> bool
        ensures { IsTrue result ↔ HoldsAll self.now.bits other.now.bits }
    {
        self.bits & other.bits == other.bits
    }

    /// The ships of both sets.
    #[inline(always)]
    pub fn joined(&self, other: &ShipSet) -> ShipSet
        ensures { (s : ℕ) → is_in result.bits s ≡ (is_in self.now.bits s || is_in other.now.bits s) }
    {
        ShipSet {
            bits: self.bits | other.bits,
        }
    }

    /// The set and one ship more.
    pub fn with(&self, ship: u8) -> ShipSet
        requires { ship < SHIPS }
        ensures { IsWith self.now.bits ship result.bits }
    {
        ShipSet {
            bits: self.bits | 1 << ship,
        }
    }

    /// A number below so many that spreads sets among them; 0 where there is none.
    #[inline(always)]
    pub fn spread(&self, places: usize) -> usize
        ensures { 0 < places → result < places }
    {
        if places == 0 {
            return 0;
        }
        let low = (self.bits % HALF) as u64;
        let high = (self.bits / HALF) as u64;
        let mixed = high.wrapping_mul(0xC2B2_AE3D_27D4_EB4F).wrapping_add(low);
        (mixed.wrapping_mul(0x9E37_79B9_7F4A_7C15) >> 32) as usize % places
    }
}
