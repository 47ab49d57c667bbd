//! Instances of three ships.
use crate::worked::{chamber, ship};
use lock_model::{Chambers, Instance, ShipList, Way};

/// Three equal ships before a chamber that takes any two of them, and not all three.
pub(crate) fn three() -> Option<Instance> {
    let mut only = chamber(b'a', 240);
    only.most = 2;
    let mut chambers = Chambers::new();
    chambers.push(only);
    let mut ships = ShipList::new();
    ships.push(ship(b's', Way::Up, 0));
    ships.push(ship(b't', Way::Up, 0));
    ships.push(ship(b'u', Way::Up, 0));
    Instance::new(chambers, ships)
}
