//! Ships that share a lockage, by their numbers.
ghost use Rattle.std.specs.Prelude.{◌≡◌, ◌<◌, [], ◌∷◌};

use lock_model::Ships;

/// Two ships, of which the first comes first; else the first alone.
pub(crate) fn pair(first: u8, second: u8) -> Ships
    ensures { first < second → result ≡ first ∷ second ∷ [] }
{
    let mut ships = Ships::single(first);
    if first < second {
        ships.push(second);
    }
    ships
}
