//! The axis.
ghost use Rattle.std.specs.Prelude.{◌≡◌, ◌≤◌, ◌+◌, ◌-◌, ◌/◌, min, IfOk};
ghost use Rattle.picture_page.specs.Axis.{axis_of_spans, axis_of, x_of, first_minute, last_minute, shows, clear_end};
ghost use Rattle.picture_page.specs.Present.{has_begun, present_x};

use crate::breaks::{TORN, clear_end, put_breaks};
use crate::making::{breaks_in, gap_for, pieces_of, step_of};
use crate::pieces::{LEFT, Piece, RIGHT, first_minute, last_minute, shows, x_among};
use crate::spans::{Span, spans_of};
use crate::times::{Clock, Dial};
use std::alloc::{AllocError, Global};
use std::marker::Model;

/// Where each minute lies, in pixels from 20 to 788: pieces of time at one scale, with breaks of one
/// width between them.
#[derive(Drop)]
pub(crate) struct Axis {
    pieces: Vec<Piece>,
    breaks: Vec<u16>,
    gap: u16,
    step: u64,
    dial: Dial,
}

impl Model for Axis {
    ghost use Rattle.picture_page.specs.Axis.{Drawn};

    ghost Value = { Drawn };

    ghost view = { λ a. record {
      pieces = a.pieces.items;
      breaks = a.breaks.items;
      gap = a.gap;
      step = a.step;
      clock = a.dial.clock;
      present = a.dial.present;
    } };
}

/// The axis that spans make.
#[tactic(auto, unfolding(crate::specs::Axis::axis_of_spans))]
fn axis_of_spans(alloc: Global, dial: Dial, spans: &[Span]) -> Result<Axis, AllocError>
    ensures { IfOk result (λ axis. axis ≡ axis_of_spans dial spans.now) }
{
    let pieces = pieces_of(alloc, dial.clock, spans)?;
    let mut breaks = Vec::new(alloc);
    put_breaks(&mut breaks, pieces.as_slice())?;
    Ok(Axis {
        pieces,
        breaks,
        gap: gap_for(breaks_in(spans)) as u16,
        step: step_of(spans),
        dial,
    })
}

impl Axis {
    /// The axis on which these events lie, with a dial. The only refusal is want of memory.
    #[tactic(auto, unfolding(crate::specs::Axis::axis_of))]
    pub(crate) fn new(alloc: Global, dial: Dial, events: &[u64]) -> Result<Axis, AllocError>
        ensures { IfOk result (λ axis. axis ≡ axis_of dial events.now) }
    {
        let spans = spans_of(alloc, events)?;
        axis_of_spans(alloc, dial, spans.as_slice())
    }

    /// Where a minute lies.
    #[tactic(auto, unfolding(crate::specs::Axis::x_of))]
    pub(crate) fn x(&self, minute: u64) -> u16
        ensures value { result ≡ x_of self.now minute }
        ensures small { result ≤ 788 }
    {
        x_among(self.pieces.as_slice(), 0, LEFT, minute).min(RIGHT) as u16
    }

    /// How its minutes are told.
    pub(crate) fn clock(&self) -> Clock
        ensures { result ≡ self.now.clock }
    {
        self.dial.clock
    }

    /// The minute that it is, where the page shows it.
    pub(crate) fn present(&self) -> Option<u32>
        ensures { result ≡ self.now.present }
    {
        self.dial.present
    }

    /// Where that minute lies.
    pub(crate) fn present_x(&self) -> Option<u16>
        ensures { result ≡ present_x self.now }
    {
        match self.dial.present {
            None => None,
            Some(minute) => Some(self.x(minute as u64)),
        }
    }

    /// Whether what begins at a minute has begun before the minute that it is.
    pub(crate) fn has_begun(&self, minute: u32) -> bool
        ensures { result ≡ has_begun self.now.present minute }
    {
        match self.dial.present {
            None => false,
            Some(present) => minute < present,
        }
    }

    /// The minutes from tick to tick.
    pub(crate) fn step(&self) -> u64
        ensures { result ≡ self.now.step }
    {
        self.step
    }

    /// Its pieces, from left to right.
    pub(crate) fn pieces(&self) -> &[Piece]
        ensures { result.now ≡ self.now.pieces }
    {
        self.pieces.as_slice()
    }

    /// Where its breaks begin.
    pub(crate) fn breaks(&self) -> &[u16]
        ensures { result.now ≡ self.now.breaks }
    {
        self.breaks.as_slice()
    }

    /// Half the width of a break.
    pub(crate) fn half_gap(&self) -> u64
        ensures value { result ≡ self.now.gap / 2 }
        ensures small { result ≤ 40000 }
    {
        self.gap as u64 / 2
    }

    /// Half the width of the white part of a break.
    pub(crate) fn half_torn(&self) -> u64
        ensures value { result ≡ min self.now.gap 10 / 2 }
        ensures small { result ≤ 5 }
    {
        (self.gap as u64).min(TORN) / 2
    }

    /// The first minute.
    pub(crate) fn first(&self) -> u64
        ensures { result ≡ first_minute self.now.pieces }
    {
        first_minute(self.pieces.as_slice())
    }

    /// The last minute.
    pub(crate) fn last(&self) -> u64
        ensures { result ≡ last_minute self.now.pieces }
    {
        last_minute(self.pieces.as_slice())
    }

    /// Whether a span, its end not included, has a minute that isn't left out.
    pub(crate) fn shows(&self, from: u64, to: u64) -> bool
        ensures { result ≡ shows self.now.pieces from to }
    {
        shows(self.pieces.as_slice(), from, to)
    }

    /// The end of the part of the pixels from `from` to `to` that no break cuts.
    pub(crate) fn clear_end(&self, from: u16, to: u16) -> u64
        ensures value { result ≡ clear_end self.now.breaks self.now.gap from to }
        ensures small { result ≤ 100000 }
    {
        clear_end(self.breaks.as_slice(), self.gap, from, to)
    }
}
