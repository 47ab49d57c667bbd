//! Instances made from a number.
ghost use Rattle.std.specs.Prelude.{◌≡◌, ◌+◌, ◌*◌, ◌<◌, ◌≤◌, ◌++◌, [], length, take, codes, decimal, slice_index_or};
ghost use Rattle.lock_model.specs.Fleet.{no_chamber};
ghost use Rattle.instance_text.specs.Lot.{next_state, after_draws, draw, lot_way, lot_ship, lot_ships, lot_chamber, lot_chambers};

use crate::name::copy_name;
use itoa::Buffer;
use lock_model::{
    CHAMBERS, Chamber, Chambers, Closures, Instance, Name, SHIPS, Ship, ShipList, Stand, Way,
};

/// The state from which numbers are drawn.
#[derive(Drop)]
struct Draws {
    state: u32,
}

impl Draws {
    /// The next number below `n`.
    #[tactic(auto, unfolding(crate::specs::Lot::draw, crate::specs::Lot::next_state))]
    fn below(&mut self, n: u32) -> u32
        requires { 0 < n }
        ensures value { result ≡ draw self.old.state 1 n }
        ensures state { self.new.state ≡ next_state self.old.state }
        ensures within { result < n }
    {
        let state = u64::from(self.state) * 1_103_515_245 + 12_345;
        self.state = (state % 2_147_483_648) as u32;
        self.state / 65_536 % n
    }
}

/// The name of ship `i`, from 1.
fn ship_name(i: u8) -> Name
    requires { i ≤ SHIPS }
    ensures { result ≡ codes "s" ++ decimal i }
{
    let mut buffer = Buffer::new();
    let digits = buffer.format(i).as_bytes();
    let mut name = Name::new();
    name.push(b's');
    for digit in digits {
        name.push(*digit);
    }
    name
}

/// The way that a draw gives.
fn way_of(draw: u32) -> Way
    ensures { result ≡ lot_way draw }
{
    if draw == 0 { Way::Up } else { Way::Down }
}

/// Ship `i`, from 1, which arrives after the ship before it.
#[tactic(auto, unfolding(crate::specs::Lot::lot_ship, crate::specs::Lot::draw))]
fn draw_ship(draws: &mut Draws, i: u8, arrival: u32) -> Ship
    requires number { i ≤ SHIPS }
    requires early { arrival ≤ SHIPS * 40 }
    ensures ship { result ≡ lot_ship i draws.old.state arrival }
    ensures later { result.arrival ≤ arrival + 39 }
    ensures state { draws.new.state ≡ after_draws 5 draws.old.state }
{
    let way = way_of(draws.below(2));
    let length = 380 + 10 * draws.below(73);
    let width = 50 + draws.below(65);
    let arrival = arrival + draws.below(40);
    let handling = 3 + draws.below(6);
    Ship {
        name: ship_name(i),
        way,
        length,
        width,
        arrival,
        handling,
        cargo: 0,
    }
}

/// The ships of a lot.
fn lot_ships(number: u32, count: u8) -> ShipList
    requires { count ≤ SHIPS }
    ensures { result ≡ lot_ships count 1 number 0 }
{
    let mut draws = Draws { state: number };
    let mut arrival = 0;
    let mut ships = ShipList::new();
    for i in 0..count {
        let ship = draw_ship(&mut draws, i + 1, arrival);
        arrival = ship.arrival;
        ships.push(ship);
    }
    ships
}

/// A chamber of a lot.
fn chamber(
    name: Name,
    length: u32,
    width: u32,
    most: u8,
    pass: u32,
    turn: u32,
    stands: Stand,
) -> Chamber
    ensures { result ≡ lot_chamber name length width most pass turn stands }
{
    Chamber {
        name,
        length,
        width,
        end: 10,
        gap: 20,
        side: 5,
        most,
        pass,
        turn,
        stands,
        opens: 0,
        closures: Closures::new(),
    }
}

/// Chamber `i` of a lot, from 0.
#[tactic(auto, unfolding(crate::specs::Lot::lot_chambers))]
fn chamber_at(i: u8) -> Chamber
    requires { i < CHAMBERS }
    ensures { result ≡ slice_index_or lot_chambers i no_chamber }
{
    match i {
        0 => chamber(copy_name(b"c1"), 2000, 240, 6, 30, 15, Stand::Low),
        1 => chamber(copy_name(b"c2"), 1360, 160, 4, 20, 10, Stand::High),
        2 => chamber(copy_name(b"c3"), 1900, 180, 4, 25, 12, Stand::Low),
        _ => chamber(copy_name(b"c4"), 1200, 125, 2, 20, 10, Stand::High),
    }
}

/// The chambers of a lot.
fn first_chambers(count: u8) -> Chambers
    requires { count ≤ CHAMBERS }
    ensures { result ≡ take count lot_chambers }
{
    let mut chambers = Chambers::new();
    for i in 0..count {
        chambers.push(chamber_at(i));
    }
    chambers
}

/// The instance that a number makes, of 1 to `SHIPS` ships and 1 to `CHAMBERS` chambers, without closures and
/// cargo. Takes no memory.
#[tactic(auto, using(crate::proofs::LotLemmas::lot_limits))]
pub fn make_lot(number: u32, ships: u8, chambers: u8) -> Instance
    requires some_ships { 1 ≤ ships }
    requires few_ships { ships ≤ SHIPS }
    requires some_chambers { 1 ≤ chambers }
    requires few_chambers { chambers ≤ CHAMBERS }
    ensures chambers { result.chambers ≡ take chambers lot_chambers }
    ensures ships { result.ships ≡ lot_ships ships 1 number 0 }
{
    Instance {
        chambers: first_chambers(chambers),
        ships: lot_ships(number, ships),
    }
}
