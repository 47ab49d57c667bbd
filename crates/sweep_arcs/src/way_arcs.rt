//! The groups of a way of a chamber, and by minute lists of their arcs.
ghost use Rattle.std.specs.Prelude.{◌≡◌, pos, ◌+ℤ◌, ◌≤ℤ◌, length, IfOk, OnOk, IfSome};
ghost use Rattle.price_groups.specs.Asked.{line_asked};
ghost use Rattle.sweep_arcs.specs.Lanes.{gains_ask, AreGainsKept, HasArcs};
ghost use Rattle.sweep_arcs.specs.Ways.{IsWayOf, IsWayArcs, IsAskedList, IsListKept, IsWide, IsPutAsked, AreRising, AreWithin};

use crate::arc_list::ArcList;
use crate::asked::ArcsAsked;
use crate::gains::Gains;
use crate::listing::{Range, listed};
use crate::way_groups::{Growth, WayGroups};
use price_groups::LineCase;
use price_terms::{PriceError, append};
use std::alloc::Global;
use sweep_labels::{Arc, MinuteRow};

/// The uncut groups of a way of a chamber, and by minute the place of a list of their arcs.
#[derive(Drop)]
pub(crate) struct WayArcs {
    pub(crate) all: WayGroups,
    pub(crate) places: MinuteRow<usize>,
    pub(crate) lists: Vec<ArcList>,
}

// Appends an arc by ships that aren't served.
#[tactic(auto, using(crate::proofs::ListLemmas::asked_shared, crate::proofs::ListLemmas::asked_put))]
fn put_asked(arcs: &mut Vec<Arc>, arc: &Arc, asked: &ArcsAsked) -> Result<(), PriceError>
    ensures { OnOk result (IsPutAsked asked.now arc.now arcs.old.items arcs.new.items) }
{
    if !arc.ships.misses(&asked.served) {
        return Ok(());
    }
    append(arcs, *arc)?;
    Ok(())
}

// Those arcs of a list that are asked for.
#[tactic(auto, using(crate::proofs::ListLemmas::within_first, crate::proofs::ListLemmas::within_next, crate::proofs::ListLemmas::within_early))]
fn within(alloc: Global, list: &ArcList, asked: &ArcsAsked) -> Result<Vec<Arc>, PriceError>
    requires { AreRising list.now.arcs.items }
    ensures { IfOk result (λ arcs. AreWithin asked.now list.now.arcs.items (length list.now.arcs.items) arcs.items) }
{
    let mut arcs = Vec::new(alloc);
    for arc in &list.arcs {
        if arc.worth > asked.room {
            return Ok(arcs);
        }
        put_asked(&mut arcs, arc, asked)?;
    }
    Ok(arcs)
}

// How far arcs are listed for what is asked, by the gain from its minute on; as far as the room at least.
fn range_of(asked: &ArcsAsked, spread: u64, gain: u64) -> Result<Range, PriceError>
    ensures way { IfOk result (λ range. range.way ≡ asked.now.way) }
    ensures minute { IfOk result (λ range. range.minute ≡ asked.now.minute) }
    ensures reach { IfOk result (λ range. asked.now.room ≤ℤ range.limit) }
    ensures most { IfOk result (λ range. (range.limit +ℤ pos gain) ≤ℤ pos spread) }
{
    let Ok(high) = i64::try_from(spread) else {
        return Err(PriceError::TooMany);
    };
    let Ok(low) = i64::try_from(gain) else {
        return Err(PriceError::TooMany);
    };
    let limit = high - low;
    if limit < asked.room {
        return Err(PriceError::TooMany);
    }
    Ok(Range {
        way: asked.way,
        minute: asked.minute,
        limit,
    })
}

// A list of arcs for a minute that reaches as far as the room.
#[tactic(auto, using(crate::proofs::ListLemmas::asked_list))]
fn list_asked(
    alloc: Global,
    case: &LineCase,
    gains: &mut Gains,
    all: &WayGroups,
    asked: &ArcsAsked,
) -> Result<ArcList, PriceError>
    requires kept { AreGainsKept gains.old }
    requires asked { gains_ask gains.old ≡ line_asked case.now }
    requires all { IsWayOf (line_asked case.now) asked.now.way all.now }
    ensures same { gains_ask gains.new ≡ gains_ask gains.old }
    ensures kept { OnOk result (AreGainsKept gains.new) }
    ensures list { IfOk result (IsAskedList (line_asked case.now) asked.now) }
{
    let gain = gains.at(asked.way, asked.minute as u64)?;
    let range = range_of(asked, all.spread, gain)?;
    let list = listed(alloc, case, gains, all, &range)?;
    Ok(list)
}

impl WayArcs {
    /// The groups of a way, of which no arcs are listed yet.
    #[tactic(auto, using(crate::proofs::ListLemmas::lists_none))]
    pub(crate) fn new(
        alloc: Global,
        case: &LineCase,
        growth: &Growth,
    ) -> Result<WayArcs, PriceError>
        requires { case.now.depth ≡ 0 }
        ensures { IfOk result (IsWayArcs (line_asked case.now) growth.now.way) }
    {
        Ok(WayArcs {
            all: WayGroups::new(alloc, case, growth)?,
            places: MinuteRow::new(alloc),
            lists: Vec::new(alloc),
        })
    }

    // The place of the list of a minute, if it reaches as far as the room.
    fn place_of(&self, asked: &ArcsAsked) -> Option<usize>
        ensures { IfSome result (IsWide asked.now self.now) }
    {
        let Some(place) = self.places.find(asked.minute as u64) else {
            return None;
        };
        if place < self.lists.len() && self.lists[place].limit >= asked.room {
            Some(place)
        } else {
            None
        }
    }

    // Keeps a list for a minute; its place.
    fn keep(&mut self, minute: u32, list: ArcList) -> Result<usize, PriceError>
        ensures { IfOk result (IsListKept minute list self.old self.new) }
    {
        let place = self.lists.len();
        append(&mut self.lists, list)?;
        self.places.keep(minute as u64, place)?;
        Ok(place)
    }

    // The place of the list of a minute that reaches as far as the room, which is made where there is none.
    #[tactic(auto, using(crate::proofs::ListLemmas::lists_kept, crate::proofs::ListLemmas::kept_wide))]
    fn place_for(
        &mut self,
        alloc: Global,
        case: &LineCase,
        gains: &mut Gains,
        asked: &ArcsAsked,
    ) -> Result<usize, PriceError>
        requires lane { IsWayArcs (line_asked case.now) asked.now.way self.old }
        requires kept { AreGainsKept gains.old }
        requires asked { gains_ask gains.old ≡ line_asked case.now }
        ensures lane { OnOk result (IsWayArcs (line_asked case.now) asked.now.way self.new) }
        ensures same { gains_ask gains.new ≡ gains_ask gains.old }
        ensures kept { OnOk result (AreGainsKept gains.new) }
        ensures place { IfOk result (IsWide asked.now self.new) }
    {
        if let Some(place) = self.place_of(asked) {
            return Ok(place);
        }
        let list = list_asked(alloc, case, gains, &self.all, asked)?;
        let place = self.keep(asked.minute, list)?;
        Ok(place)
    }

    /// The arcs that are asked for: each uncut group of the way by ships that aren't served has one, unless
    /// it is worth more than the room.
    #[tactic(auto, using(crate::proofs::ListLemmas::within_done, crate::proofs::ListLemmas::served_none))]
    pub(crate) fn arcs(
        &mut self,
        alloc: Global,
        case: &LineCase,
        gains: &mut Gains,
        asked: &ArcsAsked,
    ) -> Result<Vec<Arc>, PriceError>
        requires lane { IsWayArcs (line_asked case.now) asked.now.way self.old }
        requires kept { AreGainsKept gains.old }
        requires asked { gains_ask gains.old ≡ line_asked case.now }
        ensures lane { OnOk result (IsWayArcs (line_asked case.now) asked.now.way self.new) }
        ensures same { gains_ask gains.new ≡ gains_ask gains.old }
        ensures kept { OnOk result (AreGainsKept gains.new) }
        ensures arcs { IfOk result (λ arcs. HasArcs (line_asked case.now) asked.now arcs.items) }
    {
        if asked.served.holds(&self.all.ships) {
            return Ok(Vec::new(alloc));
        }
        let place = self.place_for(alloc, case, gains, asked)?;
        let arcs = within(alloc, &self.lists[place], asked)?;
        Ok(arcs)
    }
}
