//! What single words mean.
ghost use Rattle.std.specs.Prelude.{◌≡◌, ◌<◌};
ghost use Rattle.plan_text.specs.Words.{number, way, rank};

use crate::kinds::PlanKind;
use instance_text::way_of;
use lock_model::{Rank, Way};

/// A number up to `high`. Refuses with `Number` a word that is not all digits, and with `Range` a
/// greater number.
pub fn number(word: &[u8], high: u32) -> Result<u32, PlanKind>
    requires { high < 4294967295 }
    ensures { result ≡ number high word.now }
{
    line_text::number(word, 0, high, PlanKind::Number, PlanKind::Range)
}

/// The way of a lockage. Refuses with `Word` another word than `up` and `down`.
pub fn way(word: &[u8]) -> Result<Way, PlanKind>
    ensures { result ≡ way word.now }
{
    way_of(word).ok_or(PlanKind::Word)
}

/// The rank of a ship. Refuses with `Word` another word than `left` and `right`.
#[tactic(auto, unfolding(crate::specs::Words::rank))]
pub fn rank(word: &[u8]) -> Result<Rank, PlanKind>
    ensures { result ≡ rank word.now }
{
    if word == b"left".as_slice() {
        Ok(Rank::Left)
    } else if word == b"right".as_slice() {
        Ok(Rank::Right)
    } else {
        Err(PlanKind::Word)
    }
}
