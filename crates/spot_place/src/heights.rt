//! The y of each ship, where its berth and those of its hosts lead down to a quay.
ghost use Rattle.std.specs.Prelude.{ℤ, pos, ◌+ℤ◌, ◌≤ℤ◌, ◌≡◌, ◌+◌, ◌<◌, ◌≤◌, [], ◌∷◌, ◌++◌, length};
ghost use Rattle.lock_model.specs.Deck.{IsDeck};
ghost use Rattle.refute_rules.specs.Reasons.{width_at};
ghost use Rattle.refute_rules.specs.Known.{quay_y, guest_y, y_within};
ghost use Rattle.spot_place.specs.OnWay.{AreKnown, lying};
ghost use Rattle.spot_place.specs.Heights.{AreHeights};

use arrayvec::ArrayVec;
use deck_cases::Berth;
use lock_model::{Deck, MOST, Moor, Rank};
use std::marker::Model;

/// The known y of each ship of a deck, in decimetres; below 0 where a ship of the right rank has no room.
#[derive(Drop)]
pub(crate) struct Heights {
    items: ArrayVec<Option<i32>, MOST>,
}

impl Model for Heights {
    ghost use Rattle.std.specs.Prelude.{ℤ, List};
    ghost use Rattle.std.specs.declared.option.Option.{Option};

    ghost Value = { List (Option ℤ) };

    ghost view = { λ a. a.items.items };
}

impl Heights {
    /// No ships yet.
    fn new() -> Heights
        ensures { result ≡ [] }
    {
        Heights {
            items: ArrayVec::new(),
        }
    }

    /// The y of each ship in order.
    pub(crate) fn as_slice(&self) -> &[Option<i32>]
        ensures { result.now ≡ self.now }
    {
        self.items.as_slice()
    }

    /// Appends the y of a ship.
    fn push(&mut self, height: Option<i32>)
        requires { length self.old < MOST }
        ensures { self.new ≡ self.old ++ height ∷ [] }
    {
        self.items.push(height);
    }
}

impl Default for Heights {
    fn default() -> Heights
        ensures { result ≡ [] }
    {
        Heights::new()
    }
}

/// The width of a ship and the gap at its side.
pub(crate) fn across(deck: &Deck, ship: u8) -> i32
    requires { ship < length deck.now.ships }
    ensures value { result ≡ pos (width_at deck.now ship + deck.now.side) }
    ensures small { width_at deck.now ship + deck.now.side ≤ 110000 }
{
    (deck.ships.as_slice()[ship as usize].width + deck.side) as i32
}

/// The y of a ship at the quay of a rank.
fn quay_y(deck: &Deck, ship: u8, rank: Rank) -> i32
    requires { ship < length deck.now.ships }
    ensures { result ≡ quay_y deck.now ship rank }
{
    match rank {
        Rank::Left => 0,
        Rank::Right => deck.width as i32 - deck.ships.as_slice()[ship as usize].width as i32,
    }
}

/// The y of a ship of a rank at the side of a host that lies at `y`.
fn guest_y(deck: &Deck, ship: u8, host: u8, rank: Rank, y: i32) -> i32
    requires ship { ship < length deck.now.ships }
    requires host { host < length deck.now.ships }
    requires low { pos 0 ≤ℤ (y +ℤ pos 2000000) }
    requires high { y ≤ℤ pos 2000000 }
    ensures { result ≡ guest_y deck.now ship host rank y }
{
    match rank {
        Rank::Left => y + across(deck, host),
        Rank::Right => y - across(deck, ship),
    }
}

/// The y of a ship, where its berth and those of its hosts are decided down to a quay, by at most
/// so many ships.
fn height(deck: &Deck, berths: &[Berth], steps: u8, ship: u8) -> Option<i32>
    requires deck { IsDeck deck.now }
    requires few { length berths.now ≤ length deck.now.ships }
    requires known { AreKnown deck.now berths.now }
    requires steps { steps ≤ MOST }
    ensures { result ≡ y_within deck.now (lying berths.now) steps ship }
{
    if steps == 0 {
        return None;
    }
    if ship as usize >= berths.len() {
        return None;
    }
    let own = &berths[ship as usize];
    match own.moor {
        Moor::Quay => Some(quay_y(deck, ship, own.rank)),
        Moor::Ship(host) => match height(deck, berths, steps - 1, host) {
            None => None,
            Some(y) => Some(guest_y(deck, ship, host, own.rank, y)),
        },
    }
}

/// The y of each ship of the deck.
pub(crate) fn heights_of(deck: &Deck, berths: &[Berth]) -> Heights
    requires few { length berths.now ≤ length deck.now.ships }
    requires known { AreKnown deck.now berths.now }
    ensures { AreHeights deck.now (lying berths.now) result }
{
    let count = deck.ships.as_slice().len() as u8;
    let mut heights = Heights::new();
    for ship in 0..count {
        heights.push(height(deck, berths, count, ship));
    }
    heights
}
