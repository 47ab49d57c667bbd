//! The uncut groups of a way.
ghost use Rattle.std.specs.Prelude.{◌≡◌, ◌+◌, ◌≤◌, min, length, IsTrue, IfOk};
ghost use Rattle.lock_model.specs.declared.limits.TheConstants.{SHIPS};
ghost use Rattle.price_terms.specs.Cuts.{plain_cuts};
ghost use Rattle.price_groups.specs.Asked.{line_asked};
ghost use Rattle.price_groups.specs.Growing.{AreBelow};
ghost use Rattle.price_groups.specs.Masks.{AreAllCompletable};
ghost use Rattle.price_groups.specs.Sparing.{AreForbidden};
ghost use Rattle.sweep_arcs.specs.Ways.{AreCeilings, AreBefore, IsBrief, AreWayGroups, AreJoined, IsWayOf};

use lock_model::{Group, Instance, MOST, SHIPS, Ships, Way};
use price_groups::{
    CompletableSets, Extension, GrownGroup, LineCase, completable_by_ship, forbidden_sets,
    list_for, rates,
};
use price_terms::{PriceError, Prices};
use std::alloc::Global;
use sweep_labels::ShipSet;

// No ship that is served before this minute gains nothing at the greatest price.
const LONG: u64 = 10_000;

/// Two minutes: the last arrival, and the longest handling.
#[derive(Clone, Copy)]
pub(crate) struct Latest {
    pub(crate) arrival: u32,
    pub(crate) handling: u32,
}

/// What groups are grown for: a way, a spread in hundredths of a minute, and how many there may be.
#[derive(Clone, Copy)]
pub(crate) struct Growth {
    pub(crate) way: Way,
    pub(crate) spread: u64,
    pub(crate) most: usize,
}

/// The groups of a way that a chamber may serve and no cut hits, the empty one among them, but for those of
/// which a ship gains no more than what it costs and the spread; and the ships of all.
#[derive(Drop)]
pub(crate) struct WayGroups {
    pub(crate) groups: Vec<GrownGroup>,
    pub(crate) ships: ShipSet,
    pub(crate) spread: u64,
}

// A price raised by more than the spread, as far as prices may be.
fn ceiling(price: u32, spread: u64) -> u32
    requires { price ≤ 1000000 }
    ensures { result ≡ min 1000000 (price + spread + 1) }
{
    spread.saturating_add(price as u64 + 1).min(1_000_000) as u32
}

// The prices of all ships, raised by more than the spread.
#[tactic(auto, using(crate::proofs::GroupLemmas::ceilings_first))]
fn raised(prices: &Prices, spread: u64) -> [u32; SHIPS]
    ensures long { length result ≡ SHIPS }
    ensures are { AreCeilings prices.now spread SHIPS result }
{
    let mut high = [0; SHIPS];
    for ship in 0..SHIPS {
        high[ship] = ceiling(prices.at(ship as u8), spread);
    }
    high
}

// The same as prices.
fn ceilings_of(prices: &Prices, spread: u64) -> Prices
    ensures each { AreCeilings prices.now spread SHIPS result.ships }
    ensures below { AreBelow prices.now result }
{
    let own = prices.as_slice();
    prove!(own.len() <= SHIPS);
    Prices::capped(&raised(prices, spread))
}

// The last arrival and the longest handling of the ships of an instance.
#[tactic(auto, using(crate::proofs::GroupLemmas::before_first, crate::proofs::GroupLemmas::before_next))]
fn latest_of(instance: &Instance) -> Latest
    ensures { AreBefore instance.now result (length instance.now.ships) }
{
    let mut arrival = 0;
    let mut handling = 0;
    for ship in instance.ships.as_slice() {
        arrival = ship.arrival.max(arrival);
        handling = ship.handling.max(handling);
    }
    Latest { arrival, handling }
}

// Whether whatever ships lie in the chamber together may be served by a minute before the long one.
fn is_brief(case: &LineCase) -> bool
    ensures { IsTrue result → IsBrief (line_asked case.now) }
{
    let latest = latest_of(case.instance);
    let handling = latest.handling as u64 * MOST as u64;
    latest.arrival as u64 + case.chamber.pass as u64 + handling < LONG
}

// The ships of all groups.
#[tactic(auto, using(crate::proofs::GroupLemmas::joined_first, crate::proofs::GroupLemmas::joined_next))]
fn ships_of(groups: &[GrownGroup]) -> ShipSet
    ensures { AreJoined groups.now (length groups.now) result.bits }
{
    let mut ships = ShipSet::new();
    for one in groups {
        ships = ships.joined(&ShipSet {
            bits: one.sums.mask,
        });
    }
    ships
}

// The groups, grown ship by ship where no ship gains nothing at the ceilings.
fn grown(
    alloc: Global,
    case: &LineCase,
    sets: &[Ships],
    completable: &[CompletableSets],
    growth: &Growth,
) -> Result<Vec<GrownGroup>, PriceError>
    requires sets { AreForbidden case.now.instance.now case.now.index (plain_cuts case.now.instance.now case.now.cuts.now) sets.now }
    requires completable { AreAllCompletable case.now.instance.now case.now.depth sets.now (length case.now.instance.now.ships) completable.now }
    requires root { case.now.depth ≡ 0 }
    requires brief { IsBrief (line_asked case.now) }
    ensures { IfOk result (λ groups. AreWayGroups (line_asked case.now) growth.now.way growth.now.spread groups.items) }
{
    let ceilings = ceilings_of(case.prices, growth.spread);
    let own_rates = rates(alloc, case, case.prices)?;
    let high_rates = rates(alloc, case, &ceilings)?;
    let extension = Extension {
        case,
        sets,
        completable,
        rates: &own_rates,
        ceilings: &ceilings,
        high_rates: &high_rates,
        most: growth.most,
    };
    let ships = Ships::new();
    let base = Group {
        way: growth.way,
        ships,
    };
    let mut lists = Vec::new(alloc);
    let place = list_for(alloc, &mut lists, &extension, &base)?;
    Ok(lists.swap_remove(place).groups)
}

impl WayGroups {
    /// The groups of a way. An instance whose groups may take 10,000 minutes is refused, and more groups
    /// than the most.
    pub(crate) fn new(
        alloc: Global,
        case: &LineCase,
        growth: &Growth,
    ) -> Result<WayGroups, PriceError>
        requires { case.now.depth ≡ 0 }
        ensures { IfOk result (IsWayOf (line_asked case.now) growth.now.way) }
    {
        if !is_brief(case) {
            return Err(PriceError::TooMany);
        }
        let sets = forbidden_sets(alloc, case)?;
        let completable = completable_by_ship(alloc, case, &sets)?;
        let groups = grown(alloc, case, &sets, &completable, growth)?;
        let ships = ships_of(&groups);
        Ok(WayGroups {
            groups,
            ships,
            spread: growth.spread,
        })
    }
}
