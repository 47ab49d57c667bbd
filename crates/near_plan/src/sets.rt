//! Ships with one fewer.
ghost use Rattle.std.specs.Prelude.{◌<◌};

use lock_model::Ships;

/// These ships but one.
pub(crate) fn without(ships: &Ships, gone: u8) -> Ships {
    let mut fewer = Ships::new();
    for &ship in ships.as_slice() {
        if ship != gone {
            fewer.push(ship);
        }
    }
    fewer
}
