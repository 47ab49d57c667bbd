//! Numbers.
ghost use Rattle.std.specs.Prelude.{◌≡◌, ◌<◌, IfOk};
ghost use Rattle.lock_model.specs.Limits.{Within};
ghost use Rattle.instance_text.specs.Words.{number};

use crate::bad::Kind;

/// A number from low to high. Refuses with `Number` a word that is not all digits, and with
/// `Range` a number outside the limits.
pub fn number(word: &[u8], low: u32, high: u32) -> Result<u32, Kind>
    requires { high < 4294967295 }
    ensures value { result ≡ number low high word.now }
    ensures within { IfOk result (Within low high) }
{
    line_text::number(word, low, high, Kind::Number, Kind::Range)
}
