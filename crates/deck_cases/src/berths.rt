//! The berths that a ship has to choose from.
ghost use Rattle.std.specs.Prelude.{◌≡◌, ◌+◌, ◌-◌, ◌*◌, ◌/◌, ◌%◌, ◌<◌, ◌≤◌, slice_index_or, if◌then◌else◌, nat_lt, nat_eq};
ghost use Rattle.lock_model.specs.declared.placement.Rank.TheVariants.{Left, Right};
ghost use Rattle.refute_rules.specs.Choices.{berths_of};
ghost use Rattle.deck_cases.specs.Berths.{first_berth};

use lock_model::{MOST, Moor, Rank};
use refute_rules::Berth;

// Left and right take turns.
fn rank_of(option: u32) -> Rank
    ensures { result ≡ (if nat_eq (option % 2) 0 then Left else Right) }
{
    if option % 2 == 0 {
        Rank::Left
    } else {
        Rank::Right
    }
}

// The other ships in order, from number 0 on.
fn other_ship(ship: u8, number: u8) -> u8
    requires { number < MOST }
    ensures { result ≡ (if nat_lt number ship then number else (number + 1)) }
{
    if number < ship { number } else { number + 1 }
}

/// Berth number `option` of a ship in a deck of so many ships, at most 8: left quay, right quay,
/// then left and right at each other ship. There are two for each ship of the deck.
pub fn berth_option(ships: u8, ship: u8, option: u32) -> Berth
    requires few { ships ≤ MOST }
    requires ship { ship < ships }
    requires option { option < 2 * ships }
    ensures { result ≡ slice_index_or (berths_of ships ship) option first_berth }
{
    let rank = rank_of(option);
    if option < 2 {
        return Berth {
            rank,
            moor: Moor::Quay,
        };
    }
    let host = other_ship(ship, (option / 2 - 1) as u8);
    Berth {
        rank,
        moor: Moor::Ship(host),
    }
}
