//! Worked singles plans.
use crate::worked::ship;
use first_plan::singles_plan;
use lock_model::{Chamber, Chambers, Instance, ShipList, Stand, Way};
use mooring_rules::first_unfit;

// Where two equal chambers stand, and which way the second ship goes, from when on; the first one goes up
// from minute 0.
type Lock = (Stand, Stand, Way, u32);

fn chamber(letter: u8, stands: Stand) -> Chamber {
    let mut chamber = crate::worked::chamber(letter, 240);
    chamber.stands = stands;
    chamber
}

fn instance((first, second, way, arrival): Lock) -> Option<Instance> {
    let mut chambers = Chambers::new();
    chambers.push(chamber(b'a', first));
    chambers.push(chamber(b'b', second));
    let mut fleet = ShipList::new();
    fleet.push(ship(b's', Way::Up, 0));
    fleet.push(ship(b't', way, arrival));
    Instance::new(chambers, fleet)
}

// The chamber and the start of each of both ships.
fn served(lock: Lock) -> Option<(u8, u32, u8, u32)> {
    let instance = instance(lock)?;
    if first_unfit(&instance).is_some() {
        return None;
    }
    match singles_plan(&instance).lockages.as_slice() {
        [one, other] => Some((one.chamber, one.start, other.chamber, other.start)),
        _ => None,
    }
}

const SERVED: &[(Lock, (u8, u32, u8, u32))] = &[
    ((Stand::Low, Stand::Low, Way::Down, 0), (0, 0, 1, 15)),
    ((Stand::Low, Stand::High, Way::Down, 0), (0, 0, 1, 0)),
    ((Stand::Low, Stand::High, Way::Up, 0), (0, 0, 1, 15)),
    ((Stand::High, Stand::High, Way::Up, 0), (0, 15, 1, 15)),
    ((Stand::Low, Stand::Low, Way::Up, 90), (0, 0, 0, 90)),
];

// The starts are worked out by hand: 30 minutes of passage, 5 of handling, and 15 of
// an empty turn where the chamber stands on the other side.
#[test]
fn ships_are_served_alone_by_the_chamber_that_ends_first(rt: HostRuntime) {
    for &(lock, places) in SERVED {
        assert!(rt; served(lock) == Some(places));
    }
}
