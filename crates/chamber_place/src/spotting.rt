//! The spots of a whole case.
ghost use Rattle.std.specs.Prelude.{ℕ, ◌≡◌, ◌≤◌, ◌<◌, ◌+◌, ◌*◌, pos, length};
ghost use Rattle.diff_rules.specs.Differences.{value_at};
ghost use Rattle.diff_system.specs.PathTree.{IsSmall};
ghost use Rattle.chamber_place.specs.Spotting.{IsBerthDecided, IsSpotOf, AreFirstSpots};

use deck_cases::{Choice, berth_of, x_var, y_var};
use lock_model::{MOST, Spot, Spots};

// A value that is known to be small.
fn small(values: &[i64], variable: u8) -> u32
    requires known { variable < length values.now }
    requires small { (v : ℕ) → v < length values.now → IsSmall values.now v }
    ensures { value_at values.now variable ≡ pos result }
{
    values[variable as usize] as u32
}

// The spot of a ship whose berth is decided.
fn spot_of(choices: &[Choice], values: &[i64], ship: u8) -> Spot
    requires few { ship < MOST }
    requires known { 2 + 2 * ship < length values.now }
    requires decided { IsBerthDecided choices.now ship }
    requires small { (v : ℕ) → v < length values.now → IsSmall values.now v }
    ensures { IsSpotOf choices.now values.now ship result }
{
    match berth_of(choices, ship as u32) {
        Some(berth) => Spot {
            x: small(values, x_var(ship)),
            y: small(values, y_var(ship)),
            rank: berth.rank,
            moor: berth.moor,
        },
        None => unreachable!(),
    }
}

/// The spots of so many ships whose berths are decided, where the values put them.
pub(crate) fn spots_of(choices: &[Choice], values: &[i64], ships: u8) -> Spots
    requires few { ships ≤ MOST }
    requires known { length values.now ≡ 1 + 2 * ships }
    requires decided { (i : ℕ) → i < ships → IsBerthDecided choices.now i }
    requires small { (v : ℕ) → v < length values.now → IsSmall values.now v }
    ensures { AreFirstSpots choices.now values.now ships result }
{
    let mut spots = Spots::new();
    for ship in 0..ships {
        spots.push(spot_of(choices, values, ship));
    }
    spots
}
