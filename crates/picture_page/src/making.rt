//! How an axis is made.
ghost use Rattle.std.specs.Prelude.{◌≡◌, ◌≤◌, IfOk};
ghost use Rattle.picture_page.specs.Axis.{gap_for, room_for, breaks_in, step_of, framed, axis_scale, pieces_of};

use crate::pieces::{AxisScale, LEFT, Piece, put_pieces};
use crate::spans::{Span, first_of, last_of, put_with_ends, total_of};
use crate::steps::{round_down, round_up, step_for};
use crate::times::Clock;
use std::alloc::{AllocError, Global};

/// The pixels of the axis.
const WIDE: u64 = 768;

/// The least minutes of an axis.
const LEAST: u64 = 60;

/// The greatest width of a break.
const BREAK: u64 = 28;

/// The greatest width of all breaks together.
const BREAKS: u64 = 400;

/// The width of each of so many breaks.
pub(crate) fn gap_for(breaks: u64) -> u64
    ensures value { result ≡ gap_for breaks }
    ensures small { result ≤ 28 }
{
    BREAK.min(BREAKS / breaks.max(1))
}

/// What so many breaks leave of the axis.
fn room_for(breaks: u64) -> u64
    ensures { result ≡ room_for breaks }
{
    WIDE.saturating_sub(gap_for(breaks).saturating_mul(breaks))
}

/// The breaks between spans.
pub(crate) fn breaks_in(spans: &[Span]) -> u64
    ensures { result ≡ breaks_in spans.now }
{
    (spans.len() as u64).saturating_sub(1)
}

/// The step from tick to tick.
pub(crate) fn step_of(spans: &[Span]) -> u64
    ensures { result ≡ step_of spans.now }
{
    step_for(total_of(spans).max(LEAST), room_for(breaks_in(spans)))
}

/// The spans from a multiple of the step to a multiple of the step.
#[tactic(auto, unfolding(crate::specs::Axis::framed))]
fn framed(alloc: Global, clock: Clock, spans: &[Span]) -> Result<Vec<Span>, AllocError>
    ensures { IfOk result (λ out. out.items ≡ framed clock spans.now) }
{
    let step = step_of(spans);
    let last = last_of(spans).saturating_add(LEAST.saturating_sub(total_of(spans)));
    let mut out = Vec::new(alloc);
    put_with_ends(
        &mut out,
        round_down(clock.offset(), step, first_of(spans)),
        round_up(clock.offset(), step, last),
        spans,
    )?;
    Ok(out)
}

/// The scale of spans with so many breaks.
fn axis_scale(breaks: u64, spans: &[Span]) -> AxisScale
    ensures { result ≡ axis_scale breaks spans.now }
{
    AxisScale {
        total: total_of(spans),
        room: room_for(breaks),
        gap: gap_for(breaks),
    }
}

/// The pieces that spans make.
#[tactic(auto, unfolding(crate::specs::Axis::pieces_of))]
pub(crate) fn pieces_of(
    alloc: Global,
    clock: Clock,
    spans: &[Span],
) -> Result<Vec<Piece>, AllocError>
    ensures { IfOk result (λ pieces. pieces.items ≡ pieces_of clock spans.now) }
{
    let framed = framed(alloc, clock, spans)?;
    let scale = axis_scale(breaks_in(spans), framed.as_slice());
    let mut pieces = Vec::new(alloc);
    put_pieces(&mut pieces, &scale, LEFT as u64, 0, framed.as_slice())?;
    Ok(pieces)
}
