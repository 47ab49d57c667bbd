//! What is worked out of chambers whatever the prices are, kept for later calls.
ghost use Rattle.std.specs.Prelude.{ℕ, ◌≡◌, ◌<◌, ◌≤◌, List, [], ◌++◌, length, slice_index_or, IsTrue, IfOk, IfSome, OnOk};
ghost use Rattle.lock_model.specs.declared.instance.Instance.{Instance as PlainInstance};
ghost use Rattle.price_rules.specs.Prices.{PriceList};
ghost use Rattle.price_terms.specs.declared.cut.ChamberCut.{ChamberCut};
ghost use Rattle.price_bound.specs.declared.kept_groups.ChamberGroups.{ChamberGroups as Plain};
ghost use Rattle.price_groups.specs.Asked.{line_asked};
ghost use Rattle.price_groups.specs.Growing.{AreBelow};
ghost use Rattle.price_bound.specs.Keeping.{IsFound};
ghost use Rattle.price_bound.specs.KeptGroups.{IsPutSpared, IsSparedList, AreSparedLists, AreGroupsFor, StayGroupsFor, AreAllGroupsFor, AreGroupsWith};

use lock_model::{SHIPS, Ships};
use price_groups::{
    CompletableSets, Extension, GrownGroup, GrownList, LineCase, ShipMask, completable_by_ship,
    forbidden_sets, marks, misses_all_of, rates,
};
use price_table::least_line;
use price_terms::{Limits, LooseLine, PriceError, Prices, append};
use std::alloc::Global;

/// What is kept of a chamber: how many of the cuts were looked at, the ship sets that these forbid, for
/// each ship those that it may complete, and the groups that have grown from some bases.
#[derive(Drop)]
pub(crate) struct ChamberGroups {
    pub(crate) chamber: u8,
    pub(crate) seen: usize,
    pub(crate) sets: Vec<Ships>,
    pub(crate) completable: Vec<CompletableSets>,
    pub(crate) lists: Vec<GrownList>,
}

/// Groups of chambers that have grown at ceilings of the prices. By prices that are no higher, those that
/// were left out gain nothing either.
#[derive(Drop)]
pub(crate) struct KeptGroups {
    pub(crate) ceilings: Prices,
    pub(crate) chambers: Vec<ChamberGroups>,
}

// Prices that are higher by a sixteenth and a minute, so that prices which are raised step by step stay
// below them for a while. The higher they are, the more groups grow where ships arrive far apart.
fn ceilings_of(prices: &Prices) -> Prices {
    let mut high = [0; SHIPS];
    for (ship, &price) in prices.as_slice().iter().enumerate() {
        high[ship] = price.saturating_add(price / 16 + 100);
    }
    Prices::capped(&high[..prices.as_slice().len()])
}

// Whether no price is above its ceiling.
fn are_below(prices: &Prices, ceilings: &Prices) -> bool
    ensures { IsTrue result → AreBelow prices.now ceilings.now }
{
    for ship in 0..prices.as_slice().len() as u8 {
        if prices.at(ship) > ceilings.at(ship) {
            return false;
        }
    }
    true
}

// Appends a group that has grown, where none of the sets of these masks is among its ships.
fn put_spared(
    groups: &mut Vec<GrownGroup>,
    one: &GrownGroup,
    masks: &[ShipMask],
) -> Result<(), PriceError>
    ensures { OnOk result (IsPutSpared masks.now one.now groups.old.items groups.new.items) }
{
    if misses_all_of(masks, one.sums.mask) {
        return append(groups, one.copy());
    }
    Ok(())
}

// What has grown from a base, without the groups that hold one of the sets of these masks.
fn spared_list(alloc: Global, list: &GrownList, masks: &[ShipMask]) -> Result<GrownList, PriceError>
    ensures { IfOk result (IsSparedList masks.now list.now) }
{
    let mut groups = Vec::new(alloc);
    for one in &list.groups {
        put_spared(&mut groups, one, masks)?;
    }
    Ok(GrownList {
        base: list.base.copy(),
        groups,
    })
}

// The same of all bases.
fn spared_lists(
    alloc: Global,
    lists: &[GrownList],
    masks: &[ShipMask],
) -> Result<Vec<GrownList>, PriceError>
    ensures { IfOk result (λ spared. AreSparedLists masks.now lists.now (length lists.now) spared.items) }
{
    let mut spared = Vec::new(alloc);
    for list in lists {
        append(&mut spared, spared_list(alloc, list, masks)?)?;
    }
    Ok(spared)
}

// Appends sets.
fn append_sets(sets: &mut Vec<Ships>, more: &[Ships]) -> Result<(), PriceError>
    ensures { OnOk result (sets.new.items ≡ sets.old.items ++ more.now) }
{
    for set in more {
        append(sets, set.copy())?;
    }
    Ok(())
}

// Nothing yet of the chamber of a case.
fn fresh(alloc: Global, case: &LineCase) -> Result<ChamberGroups, PriceError>
    ensures chamber { IfOk result (λ own. own.chamber ≡ case.now.index) }
    ensures right { (ceilings : PriceList) → IfOk result (AreGroupsFor case.now.instance.now case.now.depth case.now.cuts.now ceilings) }
{
    Ok(ChamberGroups {
        chamber: case.index,
        seen: 0,
        sets: Vec::new(alloc),
        completable: completable_by_ship(alloc, case, &[])?,
        lists: Vec::new(alloc),
    })
}

// Looks at the cuts of a case that weren't looked at yet.
fn update(alloc: Global, own: &mut ChamberGroups, case: &LineCase) -> Result<(), PriceError>
    requires chamber { own.old.chamber ≡ case.now.index }
    requires seen { own.old.seen ≤ length case.now.cuts.now }
    ensures chamber { own.new.chamber ≡ own.old.chamber }
    ensures seen { OnOk result (own.new.seen ≡ length case.now.cuts.now) }
    ensures right { OnOk result (StayGroupsFor case.now.instance.now case.now.depth case.now.cuts.now own.old own.new) }
{
    if own.seen == case.cuts.len() {
        return Ok(());
    }
    let added = forbidden_sets(alloc, &case.after(own.seen))?;
    let masks = marks(alloc, case.instance, &added)?;
    own.lists = spared_lists(alloc, &own.lists, &masks)?;
    append_sets(&mut own.sets, &added)?;
    own.completable = completable_by_ship(alloc, case, &own.sets)?;
    own.seen = case.cuts.len();
    Ok(())
}

// The place of what is kept of the chamber of a case, if it is there.
fn place_of(chambers: &[ChamberGroups], case: &LineCase) -> Option<usize>
    ensures place { IfSome result (λ place. place < length chambers.now) }
    ensures is { IfSome result (λ place. (default : Plain) → (slice_index_or chambers.now place default).chamber ≡ case.now.index) }
{
    for (place, own) in chambers.iter().enumerate() {
        if own.chamber == case.index {
            return Some(place);
        }
    }
    None
}

// A loose line of the chamber of a case of the least worth, if there is a loose one, by what is kept of
// the chamber, where no price is above its ceiling.
fn least_of(
    alloc: Global,
    own: &mut ChamberGroups,
    ceilings: &Prices,
    case: &LineCase,
    limits: Limits,
) -> Result<Option<LooseLine>, PriceError>
    requires below { AreBelow case.now.prices.now ceilings.now }
    requires chamber { own.old.chamber ≡ case.now.index }
    requires seen { own.old.seen ≡ length case.now.cuts.now }
    requires right { AreGroupsFor case.now.instance.now case.now.depth case.now.cuts.now ceilings.now own.old }
    ensures right { AreGroupsFor case.now.instance.now case.now.depth case.now.cuts.now ceilings.now own.new }
    ensures found { IfOk result (IsFound (line_asked case.now)) }
{
    let own_rates = rates(alloc, case, case.prices)?;
    let high_rates = rates(alloc, case, ceilings)?;
    let extension = Extension {
        case,
        sets: &own.sets,
        completable: &own.completable,
        rates: &own_rates,
        ceilings,
        high_rates: &high_rates,
        most: limits.groups,
    };
    least_line(alloc, &extension, &mut own.lists, limits.turns)
}

impl KeptGroups {
    /// Nothing yet.
    pub(crate) fn new(alloc: Global) -> KeptGroups
        ensures { result.chambers.items ≡ [] }
    {
        KeptGroups {
            ceilings: Prices::capped(&[]),
            chambers: Vec::new(alloc),
        }
    }

    /// Forgets all.
    pub(crate) fn clear(&mut self)
        ensures { self.new.chambers.items ≡ [] }
    {
        self.chambers.clear();
    }

    // Takes these ceilings; what has grown at others is forgotten.
    fn go_to(&mut self, ceilings: Prices)
        ensures ceilings { self.new.ceilings ≡ ceilings }
        ensures none { self.new.chambers.items ≡ [] }
    {
        self.ceilings = ceilings;
        self.chambers.clear();
    }

    // Sees to it that no price is above its ceiling.
    fn rise_to(&mut self, prices: &Prices)
        ensures below { AreBelow prices.now self.new.ceilings }
        ensures keeps { (I : PlainInstance) (k : ℕ) (cuts : List ChamberCut) → AreAllGroupsFor I k cuts self.old → AreAllGroupsFor I k cuts self.new }
    {
        if are_below(prices, &self.ceilings) {
            return;
        }
        self.go_to(ceilings_of(prices));
        if !are_below(prices, &self.ceilings) {
            self.go_to(prices.copy());
        }
    }

    // Takes out what is kept of the chamber of a case; where nothing is, it begins.
    fn removed(&mut self, alloc: Global, case: &LineCase) -> Result<ChamberGroups, PriceError>
        requires { AreAllGroupsFor case.now.instance.now case.now.depth case.now.cuts.now self.old }
        ensures ceilings { self.new.ceilings ≡ self.old.ceilings }
        ensures keeps { AreAllGroupsFor case.now.instance.now case.now.depth case.now.cuts.now self.new }
        ensures chamber { IfOk result (λ own. own.chamber ≡ case.now.index) }
        ensures right { IfOk result (AreGroupsFor case.now.instance.now case.now.depth case.now.cuts.now self.old.ceilings) }
    {
        if let Some(place) = place_of(&self.chambers, case) {
            return Ok(self.chambers.swap_remove(place));
        }
        fresh(alloc, case)
    }

    // The same, once all cuts were looked at.
    fn taken(&mut self, alloc: Global, case: &LineCase) -> Result<ChamberGroups, PriceError>
        requires { AreAllGroupsFor case.now.instance.now case.now.depth case.now.cuts.now self.old }
        ensures ceilings { self.new.ceilings ≡ self.old.ceilings }
        ensures keeps { AreAllGroupsFor case.now.instance.now case.now.depth case.now.cuts.now self.new }
        ensures chamber { IfOk result (λ own. own.chamber ≡ case.now.index) }
        ensures seen { IfOk result (λ own. own.seen ≡ length case.now.cuts.now) }
        ensures right { IfOk result (AreGroupsFor case.now.instance.now case.now.depth case.now.cuts.now self.old.ceilings) }
    {
        let mut own = self.removed(alloc, case)?;
        update(alloc, &mut own, case)?;
        Ok(own)
    }

    // Keeps what was taken out. Where memory is wanting it is forgotten, which costs time alone.
    fn put_back(&mut self, own: ChamberGroups)
        ensures ceilings { self.new.ceilings ≡ self.old.ceilings }
        ensures keeps { AreGroupsWith self.old own self.new }
    {
        let _ = self.chambers.push(own);
    }

    // A loose line of the chamber of a case of the least worth, if there is a loose one, where no price
    // is above its ceiling.
    fn least_by(
        &mut self,
        alloc: Global,
        case: &LineCase,
        limits: Limits,
    ) -> Result<Option<LooseLine>, PriceError>
        requires below { AreBelow case.now.prices.now self.old.ceilings }
        requires keeps { AreAllGroupsFor case.now.instance.now case.now.depth case.now.cuts.now self.old }
        ensures ceilings { self.new.ceilings ≡ self.old.ceilings }
        ensures keeps { AreAllGroupsFor case.now.instance.now case.now.depth case.now.cuts.now self.new }
        ensures found { IfOk result (IsFound (line_asked case.now)) }
    {
        let mut own = self.taken(alloc, case)?;
        let found = least_of(alloc, &mut own, &self.ceilings, case, limits);
        self.put_back(own);
        found
    }

    /// A loose line of the chamber of a case of the least worth, if there is a loose one. Where at the
    /// ceilings too many groups grow, these are lowered to the prices.
    pub(crate) fn least(
        &mut self,
        alloc: Global,
        case: &LineCase,
        limits: Limits,
    ) -> Result<Option<LooseLine>, PriceError>
        requires { AreAllGroupsFor case.now.instance.now case.now.depth case.now.cuts.now self.old }
        ensures keeps { AreAllGroupsFor case.now.instance.now case.now.depth case.now.cuts.now self.new }
        ensures found { IfOk result (IsFound (line_asked case.now)) }
    {
        self.rise_to(case.prices);
        match self.least_by(alloc, case, limits) {
            Err(PriceError::TooMany) if self.ceilings.as_slice() != case.prices.as_slice() => {
                self.go_to(case.prices.copy());
                self.least_by(alloc, case, limits)
            }
            found => found,
        }
    }
}
