//! The words for ways and stands.
ghost use Rattle.std.specs.Prelude.{◌≡◌};
ghost use Rattle.instance_text.specs.Words.{way_of, way, stand};

use crate::bad::Kind;
use lock_model::{Stand, Way};

/// The way that a word names.
#[tactic(auto, unfolding(crate::specs::Words::way_of))]
pub fn way_of(word: &[u8]) -> Option<Way>
    ensures { result ≡ way_of word.now }
{
    match word {
        b"up" => Some(Way::Up),
        b"down" => Some(Way::Down),
        _ => None,
    }
}

/// The way of a ship. Refuses with `Word` another word than `up` and `down`.
pub fn way(word: &[u8]) -> Result<Way, Kind>
    ensures { result ≡ way word.now }
{
    way_of(word).ok_or(Kind::Word)
}

/// The side where a chamber stands. Refuses with `Word` another word than `low` and `high`.
#[tactic(auto, unfolding(crate::specs::Words::stand))]
pub fn stand(word: &[u8]) -> Result<Stand, Kind>
    ensures { result ≡ stand word.now }
{
    match word {
        b"low" => Ok(Stand::Low),
        b"high" => Ok(Stand::High),
        _ => Err(Kind::Word),
    }
}
