//! How much a chamber's ways to go on may gain from any minute on.
ghost use Rattle.std.specs.Prelude.{◌≡◌, ◌≤◌, [], pos, ◌+ℤ◌, ◌≤ℤ◌, IfOk, IfSome, OnOk};
ghost use Rattle.lock_rules.specs.Lawful.{stand_after, stand_before};
ghost use Rattle.price_groups.specs.Asked.{line_asked};
ghost use Rattle.sweep_arcs.specs.Lanes.{gains_ask, AreGainsKept, IsGainAt};

use crate::asked::ArcLimits;
use lock_model::{Stand, Way};
use price_groups::{Extension, LineCase, completable_by_ship, forbidden_sets, rates};
use price_table::EndValues;
use price_terms::PriceError;
use std::alloc::Global;
use sweep_labels::MinuteRow;

/// The values behind a chamber's groups, and by minute the gains that were worked out, where the chamber
/// stands for a way.
#[derive(Drop)]
pub(crate) struct Gains<'a> {
    pub(crate) values: EndValues<'a>,
    pub(crate) up: MinuteRow<u64>,
    pub(crate) down: MinuteRow<u64>,
}

/// Where a chamber stands before a lockage of a way.
pub(crate) fn stand_before(way: Way) -> Stand
    ensures { result ≡ stand_before way }
{
    match way {
        Way::Up => Stand::Low,
        Way::Down => Stand::High,
    }
}

/// The other way.
pub(crate) fn other_way(way: Way) -> Way
    ensures { stand_before result ≡ stand_after way }
{
    match way {
        Way::Up => Way::Down,
        Way::Down => Way::Up,
    }
}

// What is gained where the least worth of ways to go on is this.
fn gain_of(least: i64) -> u64
    ensures { pos 0 ≤ℤ (least +ℤ pos result) }
{
    if least < 0 { least.unsigned_abs() } else { 0 }
}

impl<'a> Gains<'a> {
    /// The gains of a chamber without a line, of which none is asked yet.
    pub(crate) fn new(
        alloc: Global,
        case: &'a LineCase<'a>,
        limits: &ArcLimits,
    ) -> Result<Gains<'a>, PriceError>
        requires root { case.now.depth ≡ 0 }
        requires empty { case.now.line.now ≡ [] }
        ensures kept { IfOk result AreGainsKept }
        ensures asked { IfOk result (λ gains. gains_ask gains ≡ line_asked case.now) }
    {
        let sets = forbidden_sets(alloc, case)?;
        let completable = completable_by_ship(alloc, case, &sets)?;
        let rates = rates(alloc, case, case.prices)?;
        let extension = Extension {
            case: &*case,
            sets: &sets,
            completable: &completable,
            rates: &rates,
            ceilings: case.prices,
            high_rates: &rates,
            most: limits.groups,
        };
        let mut lists = Vec::new(alloc);
        let values = EndValues::new(alloc, case, &extension, &mut lists, limits.turns)?;
        Ok(Gains {
            values,
            up: MinuteRow::new(alloc),
            down: MinuteRow::new(alloc),
        })
    }

    // What is kept for a way and a minute.
    #[inline(always)]
    fn kept(&self, way: Way, minute: u64) -> Option<u64>
        requires { AreGainsKept self.now }
        ensures { IfSome result (IsGainAt (gains_ask self.now) way minute) }
    {
        match way {
            Way::Up => self.up.find(minute),
            Way::Down => self.down.find(minute),
        }
    }

    // Keeps a gain for a way and a minute.
    fn keep(&mut self, way: Way, minute: u64, gain: u64) -> Result<(), PriceError>
        requires kept { AreGainsKept self.old }
        requires gain { IsGainAt (gains_ask self.old) way minute gain }
        ensures same { gains_ask self.new ≡ gains_ask self.old }
        ensures kept { OnOk result (AreGainsKept self.new) }
    {
        match way {
            Way::Up => self.up.keep(minute, gain),
            Way::Down => self.down.keep(minute, gain),
        }
    }

    // Works out the gain of a way and a minute.
    fn worked(&mut self, way: Way, minute: u64) -> Result<u64, PriceError>
        requires kept { AreGainsKept self.old }
        requires minute { minute ≤ 14000000 }
        ensures same { gains_ask self.new ≡ gains_ask self.old }
        ensures kept { OnOk result (AreGainsKept self.new) }
        ensures gain { IfOk result (IsGainAt (gains_ask self.old) way minute) }
    {
        let gain = gain_of(self.values.least(stand_before(way), minute)?);
        self.keep(way, minute, gain)?;
        Ok(gain)
    }

    // The gain of a way and a minute that isn't past the horizon.
    #[inline(always)]
    fn early(&mut self, way: Way, minute: u64) -> Result<u64, PriceError>
        requires kept { AreGainsKept self.old }
        requires minute { minute ≤ 14000000 }
        ensures same { gains_ask self.new ≡ gains_ask self.old }
        ensures kept { OnOk result (AreGainsKept self.new) }
        ensures gain { IfOk result (IsGainAt (gains_ask self.old) way minute) }
    {
        match self.kept(way, minute) {
            Some(gain) => Ok(gain),
            None => self.worked(way, minute),
        }
    }

    /// The gain where the chamber stands for a way and is free at a minute: no way to go on pays more than
    /// that beyond 100 times its flow time and what it is charged. Past the horizon it is what it is there.
    #[inline(always)]
    pub(crate) fn at(&mut self, way: Way, minute: u64) -> Result<u64, PriceError>
        requires { AreGainsKept self.old }
        ensures same { gains_ask self.new ≡ gains_ask self.old }
        ensures kept { OnOk result (AreGainsKept self.new) }
        ensures gain { IfOk result (IsGainAt (gains_ask self.old) way minute) }
    {
        let early = minute.min(self.values.horizon());
        self.early(way, early)
    }
}
