//! The minutes before which a chamber can't have ended its ships, as they come one by one.
ghost use Rattle.std.specs.Prelude.{◌≡◌, ◌≤◌, ◌<◌, ◌∷◌, ℕ, suc, length};
ghost use Rattle.lock_rules.specs.Throughput.{first_arrival, places_on};
ghost use Rattle.flow_bounds.specs.Places.{minutes_of, IsEnough};

use lock_model::Instance;

// The minutes of a chamber that are still to come: `left` times `minute`, and then for each of
// `later` lockages `most` times a minute that is `pass` later than those before.
#[derive(Clone, Copy)]
pub(crate) struct Places {
    pub(crate) minute: u64,
    pub(crate) left: u8,
    pub(crate) later: u8,
    pub(crate) most: u8,
    pub(crate) pass: u64,
}

impl Default for Places {
    fn default() -> Places
        ensures { result ≡ record { minute = 0; left = 0; later = 0; most = 0; pass = 0 } }
    {
        Places {
            minute: 0,
            left: 0,
            later: 0,
            most: 0,
            pass: 0,
        }
    }
}

// All minutes of a chamber, where no ship arrives before `first`.
pub(crate) fn places_on(instance: &Instance, chamber: u8, first: u64) -> Places
    requires chamber_in { chamber < length instance.now.chambers }
    requires first { first ≡ first_arrival instance.now }
    requires first_small { first ≤ 1000000 }
    ensures value { minutes_of result ≡ places_on instance.now chamber }
    ensures enough { IsEnough (length instance.now.ships) result }
{
    let lock = &instance.chambers.as_slice()[chamber as usize];
    let pass = lock.pass as u64;
    Places {
        minute: first.max(lock.opens as u64) + pass,
        left: lock.most,
        later: instance.ships.as_slice().len() as u8 - 1,
        most: lock.most,
        pass,
    }
}

// The places without the first one.
pub(crate) fn without_first(places: Places) -> Places
    requires enough { IsEnough 1 places }
    ensures value { minutes_of places ≡ places.minute ∷ minutes_of result }
    ensures enough { (n : ℕ) → IsEnough (suc n) places → IsEnough n result }
{
    if places.left > 1 {
        Places {
            left: places.left - 1,
            ..places
        }
    } else if places.later > 0 {
        Places {
            minute: places.minute + places.pass,
            left: places.most,
            later: places.later - 1,
            ..places
        }
    } else {
        Places { left: 0, ..places }
    }
}
