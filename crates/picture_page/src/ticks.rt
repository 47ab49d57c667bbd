//! The ticks of an axis, and which of them have labels.
ghost use Rattle.std.specs.Prelude.{◌≡◌, ◌≤◌, ◌++◌, OnOk, IfOk};
ghost use Rattle.picture_page.specs.Ticks.{mark_at, multiples_to, multiples, marks_between, limit_before, marks_of, marks_from, half_of};
ghost use Rattle.picture_page.specs.Ticks.{left_of, label_middle, label_of, free_after, ticks_from, ticks_of};

use crate::axis::Axis;
use crate::pieces::Piece;
use crate::steps::round_up;
use crate::times::{Clock, time_width};
use std::alloc::{AllocError, Global};

/// The width of a row's picture, in pixels.
pub(crate) const PLOT: u16 = 812;

/// A tick at a minute and a pixel, and the middle of its label where it has one.
#[derive(Clone, Copy)]
pub(crate) struct Tick {
    pub(crate) minute: u64,
    pub(crate) x: u16,
    pub(crate) label: Option<u16>,
}

/// Where the label of a tick may stand.
#[derive(Clone, Copy)]
pub(crate) enum Place {
    /// It begins a little left of the tick, or so that it ends with the picture.
    From,
    /// It is centred, and ends at this pixel or before.
    Before(u16),
}

/// A tick before its label is placed.
#[derive(Clone, Copy)]
pub(crate) struct Mark {
    pub(crate) minute: u64,
    pub(crate) x: u16,
    pub(crate) place: Place,
}

/// A mark at a minute, whose label must end before a pixel.
fn mark_at(axis: &Axis, limit: u16, minute: u64) -> Mark
    ensures { result ≡ mark_at axis.now limit minute }
{
    Mark {
        minute,
        x: axis.x(minute),
        place: Place::Before(limit),
    }
}

/// How many multiples of a step there are from one of them to a minute.
fn multiples_to(step: u64, first: u64, last: u64) -> u64
    ensures { result ≡ multiples_to step first last }
{
    if first <= last {
        ((last - first) / step.max(1)).saturating_add(1)
    } else {
        0
    }
}

/// Appends marks at so many multiples of the step.
fn put_multiples(
    marks: &mut Vec<Mark>,
    axis: &Axis,
    limit: u16,
    first: u64,
    count: u64,
) -> Result<(), AllocError>
    ensures { OnOk result (marks.new.items ≡ marks.old.items ++ multiples axis.now limit first count) }
{
    for k in 0..count {
        let minute = first.saturating_add(k.saturating_mul(axis.step()));
        marks.push(mark_at(axis, limit, minute))?;
    }
    Ok(())
}

/// Appends marks at all multiples of the step from one minute to another.
#[tactic(auto, unfolding(crate::specs::Ticks::marks_between))]
fn put_between(
    marks: &mut Vec<Mark>,
    axis: &Axis,
    limit: u16,
    from: u64,
    last: u64,
) -> Result<(), AllocError>
    ensures { OnOk result (marks.new.items ≡ marks.old.items ++ marks_between axis.now limit from last) }
{
    let first = round_up(axis.clock().offset(), axis.step(), from);
    let count = multiples_to(axis.step(), first, last);
    put_multiples(marks, axis, limit, first, count)
}

/// Where the labels before these pieces must end.
fn limit_before(pieces: &[Piece]) -> u16
    ensures { result ≡ limit_before pieces.now }
{
    match pieces {
        [] => PLOT,
        [piece, ..] => piece.left.saturating_sub(8),
    }
}

/// Appends the marks of a piece, with a break before it or not.
fn put_marks_of(
    marks: &mut Vec<Mark>,
    axis: &Axis,
    limit: u16,
    broken: bool,
    piece: &Piece,
) -> Result<(), AllocError>
    ensures { OnOk result (marks.new.items ≡ marks.old.items ++ marks_of axis.now limit broken piece.now) }
{
    if broken {
        marks.push(Mark {
            minute: piece.from,
            x: piece.left,
            place: Place::From,
        })?;
        put_between(marks, axis, limit, piece.from.saturating_add(1), piece.to)
    } else {
        put_between(marks, axis, limit, piece.from, piece.to)
    }
}

/// Appends the marks of pieces, with a break before the first of them or not.
fn put_marks(
    marks: &mut Vec<Mark>,
    axis: &Axis,
    broken: bool,
    pieces: &[Piece],
) -> Result<(), AllocError>
    ensures { OnOk result (marks.new.items ≡ marks.old.items ++ marks_from axis.now broken pieces.now) }
{
    match pieces {
        [] => Ok(()),
        [piece, rest @ ..] => {
            put_marks_of(marks, axis, limit_before(rest), broken, piece)?;
            put_marks(marks, axis, true, rest)
        }
    }
}

/// Half the width of a minute's label.
fn half_of(clock: Clock, minute: u64) -> u16
    ensures value { result ≡ half_of clock minute }
    ensures small { result ≤ 141 }
{
    3 * time_width(clock, minute) as u16
}

/// Where the label of a piece's first minute begins.
fn left_of(x: u16, half: u16) -> u16
    requires { half ≤ 141 }
    ensures value { result ≡ left_of x half }
    ensures small { result ≤ 812 }
{
    x.saturating_sub(4).min(PLOT - 2 * half)
}

/// The middle of a label, where it has room from a free pixel on.
fn label_middle(free: u32, half: u16, x: u16, place: Place) -> Option<u16>
    requires free_small { free ≤ 70000 }
    requires half_small { half ≤ 141 }
    ensures { result ≡ label_middle free half x place }
{
    match place {
        Place::From => {
            let left = left_of(x, half);
            if free <= left as u32 {
                Some(left + half)
            } else {
                None
            }
        }
        Place::Before(limit) => {
            if free + half as u32 <= x as u32 && x as u32 + half as u32 <= limit as u32 {
                Some(x)
            } else {
                None
            }
        }
    }
}

/// The middle of a mark's label, where it has room from a free pixel on.
fn label_of(clock: Clock, free: u32, mark: &Mark) -> Option<u16>
    requires { free ≤ 70000 }
    ensures { result ≡ label_of clock free mark.now }
{
    label_middle(free, half_of(clock, mark.minute), mark.x, mark.place)
}

/// The first pixel that is free after a label, if there is one.
fn free_after(free: u32, half: u16, label: Option<u16>) -> u32
    requires free_small { free ≤ 70000 }
    requires half_small { half ≤ 141 }
    ensures value { result ≡ free_after free half label }
    ensures small { result ≤ 70000 }
{
    match label {
        None => free,
        Some(middle) => middle as u32 + half as u32 + 8,
    }
}

/// Appends the ticks of marks, with the labels that have room from left to right.
fn put_ticks(
    ticks: &mut Vec<Tick>,
    clock: Clock,
    free: u32,
    marks: &[Mark],
) -> Result<(), AllocError>
    requires { free ≤ 70000 }
    ensures { OnOk result (ticks.new.items ≡ ticks.old.items ++ ticks_from clock free marks.now) }
{
    match marks {
        [] => Ok(()),
        [mark, rest @ ..] => {
            let label = label_of(clock, free, mark);
            ticks.push(Tick {
                minute: mark.minute,
                x: mark.x,
                label,
            })?;
            let free = free_after(free, half_of(clock, mark.minute), label);
            put_ticks(ticks, clock, free, rest)
        }
    }
}

/// The ticks of an axis from left to right, with the labels that have room. The only refusal is want
/// of memory.
#[tactic(auto, unfolding(crate::specs::Ticks::ticks_of))]
pub(crate) fn ticks_of(alloc: Global, axis: &Axis) -> Result<Vec<Tick>, AllocError>
    ensures { IfOk result (λ ticks. ticks.items ≡ ticks_of axis.now) }
{
    let mut marks = Vec::new(alloc);
    put_marks(&mut marks, axis, false, axis.pieces())?;
    let mut ticks = Vec::new(alloc);
    put_ticks(&mut ticks, axis.clock(), 0, marks.as_slice())?;
    Ok(ticks)
}
