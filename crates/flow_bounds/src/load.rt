//! What the service of a group depends on.
ghost use Rattle.std.specs.Prelude.{◌≡◌, ◌<◌, length, All};
ghost use Rattle.lock_model.specs.Fleet.{ship_at};
ghost use Rattle.lock_rules.specs.Children.{single};
ghost use Rattle.flow_bounds.specs.Load.{no_load, with_one, IsLoad, IsLoadOf};

use lock_model::{Group, Instance, MOST, Way};

/// The way of a group, how many ships it has, their handling times added, the last of their arrivals,
/// and their arrivals added, in minutes.
#[derive(Clone, Copy)]
pub struct Load {
    pub way: Way,
    pub count: u8,
    pub handling: u32,
    pub latest: u32,
    pub arrivals: u32,
}

impl Default for Load {
    fn default() -> Load
        ensures { result ≡ no_load Way.Up }
    {
        no_load(Way::Up)
    }
}

// No ship of this way.
#[inline]
fn no_load(way: Way) -> Load
    ensures { result ≡ no_load way }
{
    Load {
        way,
        count: 0,
        handling: 0,
        latest: 0,
        arrivals: 0,
    }
}

// The load with one ship more.
#[inline]
pub(crate) fn with_one(instance: &Instance, load: &Load, ship: u8) -> Load
    requires ship_in { ship < length instance.now.ships }
    requires load { IsLoad load.now }
    requires room { load.now.count < MOST }
    ensures value { result ≡ with_one load.now (ship_at instance.now ship) }
    ensures kept { IsLoad result }
{
    let ship = &instance.ships.as_slice()[ship as usize];
    Load {
        way: load.way,
        count: load.count + 1,
        handling: load.handling + ship.handling,
        latest: load.latest.max(ship.arrival),
        arrivals: load.arrivals + ship.arrival,
    }
}

// The load of a ship alone.
#[inline]
pub(crate) fn load_alone(instance: &Instance, ship: u8) -> Load
    requires { ship < length instance.now.ships }
    ensures value { IsLoadOf instance.now (single (ship_at instance.now ship).way ship) result }
    ensures kept { IsLoad result }
{
    let way = instance.ships.as_slice()[ship as usize].way;
    with_one(instance, &no_load(way), ship)
}

// The load of a group.
pub(crate) fn load_of(instance: &Instance, group: &Group) -> Load
    requires { All (λ s. s < length instance.now.ships) group.now.ships }
    ensures value { IsLoadOf instance.now group.now result }
    ensures kept { IsLoad result }
{
    let mut load = no_load(group.way);
    for &ship in group.ships.as_slice() {
        load = with_one(instance, &load, ship);
    }
    load
}
