//! What the ships of a deck cover.
ghost use Rattle.std.specs.Prelude.{◌≡◌, ◌<◌, ◌^◌, length, All};
ghost use Rattle.picture_page.specs.Hulls.{covers, hull_of, hull_width, hull_length, bow_of, hull_middle};

use crate::berths::{ship_of, spot_of};
use crate::scales::{DeckScale, units_of};
use lock_model::{Instance, Lockage, Ship, Spot};

/// What a ship covers, in units: along the chamber and across it.
#[derive(Clone, Copy)]
pub(crate) struct Hull {
    pub(crate) near: u32,
    pub(crate) far: u32,
    pub(crate) top: u32,
    pub(crate) bottom: u32,
}

impl Hull {
    /// Its width.
    pub(crate) fn width(&self) -> u64
        ensures value { result ≡ hull_width self.now }
        ensures small { result < 2 ^ 32 }
    {
        self.bottom.saturating_sub(self.top) as u64
    }

    /// Its length.
    pub(crate) fn length(&self) -> u64
        ensures value { result ≡ hull_length self.now }
        ensures small { result < 2 ^ 32 }
    {
        self.far.saturating_sub(self.near) as u64
    }

    /// The length of its bow.
    pub(crate) fn bow(&self) -> u64
        ensures value { result ≡ bow_of self.now }
        ensures small { result < 2 ^ 32 }
    {
        (self.width() / 2).min(self.length() / 5)
    }

    /// The middle of its width.
    pub(crate) fn middle(&self) -> u64
        ensures value { result ≡ hull_middle self.now }
        ensures small { result < 2 ^ 32 }
    {
        (self.top as u64 + self.bottom as u64) / 2
    }
}

/// What a ship covers at a spot.
fn covers(scale: &DeckScale, ship: &Ship, spot: &Spot) -> Hull
    ensures { result ≡ covers scale.now ship.now spot.now }
{
    Hull {
        near: 96 + units_of(scale, spot.x as u64),
        far: 96 + units_of(scale, spot.x as u64 + ship.length as u64),
        top: 32 + units_of(scale, spot.y as u64),
        bottom: 32 + units_of(scale, spot.y as u64 + ship.width as u64),
    }
}

/// What the ship at a place of a lockage covers.
#[tactic(auto, unfolding(crate::specs::Hulls::hull_of))]
pub(crate) fn hull_of(scale: &DeckScale, instance: &Instance, lockage: &Lockage, place: u8) -> Hull
    requires { All (λ s. s < length instance.now.ships) lockage.now.ships }
    ensures { result ≡ hull_of scale.now instance.now lockage.now place }
{
    let spot = spot_of(lockage, place);
    covers(scale, ship_of(instance, lockage, place), &spot)
}
