//! Which ship lies at a place of a lockage, and how it is moored.
ghost use Rattle.std.specs.Prelude.{◌≡◌, ◌≤◌, ◌<◌, ◌++◌, length, All, OnOk, slice_index_or};
ghost use Rattle.picture_page.specs.Berths.{ship_of, spot_of, moor_text, berth_text};

use lock_model::{Instance, Lockage, MOST, Moor, Ship, Spot};
use no_memory::NoMemory;
use plain_text::put;
use plan_print::rank_word;

/// The number of the ship at a place, or 0 where the lockage has none there.
fn number_at(lockage: &Lockage, place: u8) -> u8
    ensures value { result ≡ slice_index_or lockage.now.ships place 0 }
    ensures few { length lockage.now.ships ≤ MOST }
{
    let ships = lockage.ships.as_slice();
    if (place as usize) < ships.len() {
        ships[place as usize]
    } else {
        0
    }
}

/// The ship at a place.
#[tactic(auto, using(crate::proofs::BerthLemmas::of_berths))]
pub(crate) fn ship_of<'a>(instance: &'a Instance, lockage: &Lockage, place: u8) -> &'a Ship
    requires { All (λ s. s < length instance.now.ships) lockage.now.ships }
    ensures value { result.now ≡ ship_of instance.now lockage.now place }
    ensures few { length lockage.now.ships ≤ MOST }
{
    &instance.ships.as_slice()[number_at(lockage, place) as usize]
}

/// Where the ship at a place lies.
pub(crate) fn spot_of(lockage: &Lockage, place: u8) -> Spot
    ensures { result ≡ spot_of lockage.now place }
{
    let spots = lockage.spots.as_slice();
    if (place as usize) < spots.len() {
        spots[place as usize]
    } else {
        Spot::default()
    }
}

/// Appends what a ship is moored to.
fn put_moor(
    out: &mut Vec<u8>,
    instance: &Instance,
    lockage: &Lockage,
    moor: Moor,
) -> Result<(), NoMemory>
    requires { All (λ s. s < length instance.now.ships) lockage.now.ships }
    ensures { OnOk result (out.new.items ≡ out.old.items ++ moor_text instance.now lockage.now moor) }
{
    match moor {
        Moor::Quay => put(out, b" quay"),
        Moor::Ship(host) => {
            put(out, b" at ")?;
            put(out, ship_of(instance, lockage, host).name.as_slice())
        }
    }
}

/// Appends the rank of the ship at a place, and what it is moored to.
#[tactic(auto, unfolding(crate::specs::Berths::berth_text))]
pub(crate) fn put_berth(
    out: &mut Vec<u8>,
    instance: &Instance,
    lockage: &Lockage,
    place: u8,
) -> Result<(), NoMemory>
    requires { All (λ s. s < length instance.now.ships) lockage.now.ships }
    ensures { OnOk result (out.new.items ≡ out.old.items ++ berth_text instance.now lockage.now place) }
{
    let spot = spot_of(lockage, place);
    put(out, rank_word(spot.rank))?;
    put_moor(out, instance, lockage, spot.moor)
}
