//! What a group that has grown pays and is charged.
ghost use Rattle.std.specs.Prelude.{◌≡◌, ◌+◌, ◌<◌, ◌≤◌, length, All, sum_by};
ghost use Rattle.price_groups.specs.Asked.{line_asked, group_asked};
ghost use Rattle.price_groups.specs.Sums.{rate_of, AreSumsIn};
ghost use Rattle.price_successors.specs.Successors.{AreSums};

use crate::successor::Successor;
use chamber_times::duration;
use lock_model::MOST;
use price_groups::{Extension, GrownGroup, charge};

// What a ship counts, as it was worked out before.
fn known_rate(extension: &Extension, ship: u8) -> u32
    requires { ship < length extension.now.case.now.instance.now.ships }
    ensures value { result ≡ rate_of extension.now.case.now.instance.now extension.now.case.now.depth extension.now.case.now.prices.now ship }
    ensures small { result ≤ 101000000 }
{
    extension.rates[ship as usize]
}

// What some ships count, added.
fn paid(extension: &Extension, ships: &[u8]) -> u32
    requires known { All (λ s. s < length extension.now.case.now.instance.now.ships) ships.now }
    requires few { length ships.now ≤ MOST }
    ensures value { result ≡ sum_by (rate_of extension.now.case.now.instance.now extension.now.case.now.depth extension.now.case.now.prices.now) ships.now }
    ensures small { result ≤ 808000000 }
{
    let mut sum = 0;
    for &ship in ships {
        sum += known_rate(extension, ship);
    }
    sum
}

/// A group that has grown as a successor, with what it pays and is charged.
pub(crate) fn weighed(extension: &Extension, grown: &GrownGroup, joins: Option<u8>) -> Successor
    requires known { All (λ s. s < length extension.now.case.now.instance.now.ships) grown.now.group.ships }
    requires few { length grown.now.group.ships ≤ MOST }
    requires sums { AreSumsIn (group_asked extension.now) grown.now.group.ships grown.now.sums }
    ensures group { result.group ≡ grown.now.group }
    ensures joins { result.joins ≡ joins }
    ensures sums { AreSums (line_asked extension.now.case.now) result }
{
    Successor {
        group: grown.group.copy(),
        joins,
        duration: grown.sums.duration,
        last: grown.sums.last,
        pays: paid(extension, grown.group.ships.as_slice()),
        charged: charge(extension.case.prices, grown.sums.mask),
    }
}
