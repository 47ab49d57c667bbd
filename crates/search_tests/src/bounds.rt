//! Worked bounds, throughputs and probes of two ships.
ghost use Rattle.master_branch.specs.Node.{IsNodeOf};

use crate::walk::node_at;
use crate::worked::{chamber, one_chamber};
use flow_bounds::{bound, is_missing, probe, throughput};
use lock_model::{Instance, Ship, Way};
use master_branch::Node;

// What differs from one lock of two equal ships to the next.
#[derive(Clone, Copy)]
struct Lock {
    most: u8,
    turn: u32,
    handling: u32,
    second: Way,
}

const UP: Lock = Lock {
    most: 4,
    turn: 15,
    handling: 5,
    second: Way::Up,
};

const UP_AND_DOWN: Lock = Lock {
    most: 1,
    turn: 0,
    handling: 0,
    second: Way::Down,
};

const UP_THEN_DOWN: Lock = Lock {
    second: Way::Down,
    ..UP
};

const TWO_WAYS_AT_ONCE: Lock = Lock {
    most: 2,
    turn: 0,
    handling: 0,
    second: Way::Down,
};

fn ship(letter: u8, way: Way, handling: u32) -> Ship {
    let mut ship = crate::worked::ship(letter, way, 0);
    ship.handling = handling;
    ship
}

// A chamber that stands low and passes in 30 minutes, and two ships that arrive at minute 0.
fn instance(lock: Lock) -> Option<Instance> {
    let mut only = chamber(b'c', 240);
    only.most = lock.most;
    only.turn = lock.turn;
    let first = ship(b's', Way::Up, lock.handling);
    let second = ship(b't', lock.second, lock.handling);
    one_chamber(only, first, second)
}

// The probe of a ship, if the node lacks it.
fn probe_at(instance: &Instance, node: &Node, ship: u8) -> Option<u64>
    requires { IsNodeOf instance.now node.now }
{
    if is_missing(instance, node, ship) {
        Some(probe(instance, node, ship))
    } else {
        None
    }
}

// The throughput, the bound of a node, and the probes there of two ships and of one that isn't in the instance.
type Found = (u64, u64, Option<u64>, Option<u64>, Option<u64>);

fn found(lock: Lock, path: &[u32]) -> Option<Found> {
    let instance = instance(lock)?;
    let node = node_at(&instance, path)?;
    Some((
        throughput(&instance),
        bound(&instance, &node),
        probe_at(&instance, &node, 0),
        probe_at(&instance, &node, 1),
        probe_at(&instance, &node, 2),
    ))
}

// The path of a node, and what is found there. Children of the first ship's node: together, the second ship
// first, the second ship second.
const BOUNDED: &[(Lock, &'static [u32], Found)] = &[
    (UP, &[], (70, 70, Some(70), Some(70), None)),
    (UP, &[0], (70, 70, None, Some(80), None)),
    (UP, &[0, 0], (70, 80, None, None, None)),
    (UP, &[0, 1], (70, 120, None, None, None)),
    (UP, &[0, 2], (70, 120, None, None, None)),
    (UP_AND_DOWN, &[], (90, 60, Some(60), Some(60), None)),
    (UP_THEN_DOWN, &[], (70, 85, Some(85), Some(85), None)),
    (TWO_WAYS_AT_ONCE, &[], (60, 60, Some(60), Some(60), None)),
];

#[test]
fn bounds_and_probes_count_what_is_certain(rt: HostRuntime) {
    for &(lock, path, told) in BOUNDED {
        assert!(rt; found(lock, path) == Some(told));
    }
}
