//! Ships at hosts of the other rank.
ghost use Rattle.std.specs.Prelude.{ℕ, ◌<◌, IfSome, IfNone};
ghost use Rattle.refute_rules.specs.Decided.{HasOtherRank};

use deck_cases::{Choice, has_other_rank};

/// The first of so many ships whose host is decided and has the other rank.
pub(crate) fn first_other_rank(choices: &[Choice], ships: u8) -> Option<u8>
    ensures some { IfSome result (HasOtherRank choices.now) }
    ensures none { IfNone result ((i : ℕ) → i < ships → HasOtherRank choices.now i → ⊥) }
{
    for ship in 0..ships {
        if has_other_rank(choices, ship as u32) {
            return Some(ship);
        }
    }
    None
}
