//! A way of a chamber.
ghost use Rattle.std.specs.Prelude.{◌≡◌, IfOk, OnOk};
ghost use Rattle.lock_model.specs.declared.way.Way.{Way};
ghost use Rattle.price_groups.specs.Asked.{line_asked};
ghost use Rattle.price_groups.specs.Asks.{LineAsk};
ghost use Rattle.sweep_arcs.specs.Lanes.{gains_ask, AreGainsKept, HasArcs};
ghost use Rattle.sweep_arcs.specs.Ways.{IsWayLane};

use crate::asked::ArcsAsked;
use crate::gains::Gains;
use crate::way_arcs::WayArcs;
use crate::way_groups::Growth;
use price_groups::LineCase;
use price_terms::PriceError;
use std::alloc::Global;
use sweep_labels::Arc;

/// A way of a chamber: how many groups there may be, and these and their arcs, once they were asked for.
#[derive(Drop)]
pub(crate) struct WayLane {
    pub(crate) most: usize,
    pub(crate) made: Option<WayArcs>,
}

impl WayLane {
    /// The way of a chamber of which nothing is asked yet.
    pub(crate) fn new(most: usize) -> WayLane
        ensures { (L : LineAsk) (way : Way) → IsWayLane L way result }
    {
        WayLane { most, made: None }
    }

    // Whether the groups were grown for a spread.
    fn reaches(&self, spread: u64) -> bool {
        match &self.made {
            Some(arcs) => arcs.all.spread >= spread,
            None => false,
        }
    }

    // Grows the groups for the spread that is asked, where they weren't.
    fn grow(&mut self, alloc: Global, case: &LineCase, asked: &ArcsAsked) -> Result<(), PriceError>
        requires root { case.now.depth ≡ 0 }
        requires lane { IsWayLane (line_asked case.now) asked.now.way self.old }
        ensures { OnOk result (IsWayLane (line_asked case.now) asked.now.way self.new) }
    {
        let spread = asked.spread.max(0).unsigned_abs();
        if self.reaches(spread) {
            return Ok(());
        }
        let growth = Growth {
            way: asked.way,
            spread,
            most: self.most,
        };
        self.made = Some(WayArcs::new(alloc, case, &growth)?);
        Ok(())
    }

    /// The arcs that are asked for: each uncut group of the way by ships that aren't served has one, unless
    /// it is worth more than the room. Refused is a room that, with the gain from the minute on, is above
    /// the spread.
    pub(crate) fn arcs(
        &mut self,
        alloc: Global,
        case: &LineCase,
        gains: &mut Gains,
        asked: &ArcsAsked,
    ) -> Result<Vec<Arc>, PriceError>
        requires root { case.now.depth ≡ 0 }
        requires lane { IsWayLane (line_asked case.now) asked.now.way self.old }
        requires kept { AreGainsKept gains.old }
        requires asked { gains_ask gains.old ≡ line_asked case.now }
        ensures lane { OnOk result (IsWayLane (line_asked case.now) asked.now.way self.new) }
        ensures same { gains_ask gains.new ≡ gains_ask gains.old }
        ensures kept { OnOk result (AreGainsKept gains.new) }
        ensures arcs { IfOk result (λ arcs. HasArcs (line_asked case.now) asked.now arcs.items) }
    {
        self.grow(alloc, case, asked)?;
        match &mut self.made {
            None => Err(PriceError::TooMany),
            Some(made) => made.arcs(alloc, case, gains, asked),
        }
    }
}
