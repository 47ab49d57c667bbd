//! One chamber of a sweep: what it may gain from any minute on, and its arcs.
ghost use Rattle.std.specs.Prelude.{◌≡◌, [], IfOk, OnOk};
ghost use Rattle.price_groups.specs.Asked.{line_asked};
ghost use Rattle.sweep_labels.specs.Coming.{ArriveIn};
ghost use Rattle.sweep_arcs.specs.Lanes.{ask_of, IsLane, IsSameLane, HasGain, HasArcs};

use crate::arrivals::coming_ships;
use crate::asked::{ArcLimits, ArcsAsked};
use crate::gains::Gains;
use crate::way_lane::WayLane;
use lock_model::{Ships, Way};
use price_groups::{LineCase, forbidden_sets};
use price_terms::PriceError;
use std::alloc::Global;
use sweep_labels::{Arc, Arrivals, ReadyTimes};

/// A chamber without a line: the ship sets that its cuts forbid, its gains, and both of its ways.
#[derive(Drop)]
pub struct Lane<'a> {
    alloc: Global,
    case: &'a LineCase<'a>,
    sets: Vec<Ships>,
    gains: Gains<'a>,
    up: WayLane,
    down: WayLane,
}

impl<'a> Lane<'a> {
    /// The chamber of a case that has no line, of which nothing is asked yet. Refused is want of memory.
    pub fn new(
        alloc: Global,
        case: &'a LineCase<'a>,
        limits: ArcLimits,
    ) -> Result<Lane<'a>, PriceError>
        requires root { case.now.depth ≡ 0 }
        requires empty { case.now.line.now ≡ [] }
        ensures is { IfOk result IsLane }
        ensures asked { IfOk result (λ lane. ask_of lane ≡ line_asked case.now) }
    {
        let sets = forbidden_sets(alloc, case)?;
        let gains = Gains::new(alloc, case, &limits)?;
        let up = WayLane::new(limits.groups);
        let down = WayLane::new(limits.groups);
        Ok(Lane {
            alloc,
            case,
            sets,
            gains,
            up,
            down,
        })
    }

    /// The gain of the chamber behind a label that has these minutes of it: no way to go on by missing ships
    /// pays more than that beyond 100 times its flow time and what it is charged. Refused are want of memory
    /// and more turns than the limits allow.
    #[inline(always)]
    pub fn gain(&mut self, times: &ReadyTimes) -> Result<u64, PriceError>
        requires { IsLane self.old }
        ensures same { OnOk result (IsSameLane self.old self.new) }
        ensures gain { IfOk result (HasGain (ask_of self.old) times.now) }
    {
        let up = self.gains.at(Way::Up, times.up as u64)?;
        let down = self.gains.at(Way::Down, times.down as u64)?;
        Ok(up.max(down))
    }

    /// The arcs that are asked for: each uncut group of the way by ships that aren't served has one, unless
    /// it is worth more than the room. Refused are want of memory, more groups or turns than the limits
    /// allow, and a room that with the gain from the minute on is above the spread.
    pub fn arcs(&mut self, asked: &ArcsAsked) -> Result<Vec<Arc>, PriceError>
        requires { IsLane self.old }
        ensures same { OnOk result (IsSameLane self.old self.new) }
        ensures arcs { IfOk result (λ arcs. HasArcs (ask_of self.old) asked.now arcs.items) }
    {
        match asked.way {
            Way::Up => self.up.arcs(self.alloc, self.case, &mut self.gains, asked),
            Way::Down => self
                .down
                .arcs(self.alloc, self.case, &mut self.gains, asked),
        }
    }

    /// The ships that the chamber waits for, by rising arrival.
    pub fn arrivals(&self, alloc: Global) -> Result<Arrivals, PriceError>
        requires { IsLane self.now }
        ensures { IfOk result (ArriveIn (ask_of self.now).instance (ask_of self.now).cuts (ask_of self.now).chamber) }
    {
        let up = coming_ships(alloc, self.case, &self.sets, Way::Up)?;
        let down = coming_ships(alloc, self.case, &self.sets, Way::Down)?;
        Ok(Arrivals { up, down })
    }
}
