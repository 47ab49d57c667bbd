//! Chambers, ships and instances.
use lock_model::{Chamber, Chambers, Closures, Instance, Name, Ship, ShipList, Stand, Way};

/// A name of one letter.
fn named(letter: u8) -> Name {
    let mut name = Name::new();
    name.push(letter);
    name
}

/// The base chamber, but for its width in decimetres: it stands low, an empty turn takes 15
/// minutes, up to four ships share a passage, and it is never closed.
pub(crate) fn chamber(letter: u8, width: u32) -> Chamber {
    Chamber {
        name: named(letter),
        length: 2000,
        width,
        end: 10,
        gap: 20,
        side: 5,
        most: 4,
        pass: 30,
        turn: 15,
        stands: Stand::Low,
        opens: 0,
        closures: Closures::new(),
    }
}

/// The base ship that arrives at this minute: five minutes of handling, and no cargo.
pub(crate) fn ship(letter: u8, way: Way, arrival: u32) -> Ship {
    Ship {
        name: named(letter),
        way,
        length: 1100,
        width: 114,
        arrival,
        handling: 5,
        cargo: 0,
    }
}

/// An instance of one chamber and two ships; None where a limit fails.
pub(crate) fn one_chamber(only: Chamber, first: Ship, second: Ship) -> Option<Instance> {
    let mut chambers = Chambers::new();
    chambers.push(only);
    let mut ships = ShipList::new();
    ships.push(first);
    ships.push(second);
    Instance::new(chambers, ships)
}

/// Two base ships that go up from minute 0, and the base chamber but for its width in decimetres.
pub(crate) fn two_ships(width: u32) -> Option<Instance> {
    let (first, second) = (ship(b's', Way::Up, 0), ship(b't', Way::Up, 0));
    one_chamber(chamber(b'c', width), first, second)
}
