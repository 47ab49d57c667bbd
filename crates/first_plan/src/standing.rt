//! Where the chambers stand while ships are appended to their lines.
ghost use Rattle.std.specs.Prelude.{◌≡◌, ◌<◌, ◌≤◌, [], ◌∷◌, ◌++◌, length, slice_set};
ghost use Rattle.lock_rules.specs.Singles.{first_standings, standing_at};

use arrayvec::ArrayVec;
use lock_model::{CHAMBERS, Instance, Stand};
use std::marker::Model;

/// The side where a chamber stands, and the minute at which it is done with all before.
#[derive(Clone, Copy, Default)]
pub struct Standing {
    pub stand: Stand,
    pub from: u64,
}

impl Model for Standing {
    ghost use Rattle.lock_rules.specs.Singles.{Standing as Stood};

    ghost Value = { Stood };

    ghost view = { λ a. record { stand = a.stand; from = a.from } };

    ghost inverse = { λ s. record { stand = s.stand; from = s.from } };
}

/// One standing for each chamber.
#[derive(Drop)]
pub struct Standings {
    items: ArrayVec<Standing, CHAMBERS>,
}

impl Model for Standings {
    ghost use Rattle.std.specs.Prelude.{List};
    ghost use Rattle.lock_rules.specs.Singles.{Standing as Stood};

    ghost Value = { List Stood };

    ghost view = { λ a. a.items.items };

    ghost inverse = { λ xs. record { items = record { items = xs } } };
}

impl Standings {
    /// How the chambers stand at first.
    pub fn first(instance: &Instance) -> Standings
        ensures { result ≡ first_standings instance.now }
    {
        let mut items = ArrayVec::new();
        for chamber in instance.chambers.as_slice() {
            items.push(Standing {
                stand: chamber.stands,
                from: chamber.opens as u64,
            });
        }
        Standings { items }
    }

    /// The standings by chamber.
    pub fn as_slice(&self) -> &[Standing]
        ensures value { result.now ≡ self.now }
        ensures fits { length result.now ≤ CHAMBERS }
    {
        self.items.as_slice()
    }

    /// How chamber `c` stands.
    pub fn get(&self, c: usize) -> Standing
        requires { c < length self.now }
        ensures { result ≡ standing_at self.now c }
    {
        self.items[c]
    }

    /// Sets the standing of chamber `c`.
    pub fn set(&mut self, c: usize, standing: Standing)
        requires { c < length self.old }
        ensures { self.new ≡ slice_set self.old c standing }
    {
        self.items[c] = standing;
    }
}
