//! The pieces of an axis, and where a minute lies among them.
ghost use Rattle.std.specs.Prelude.{◌≡◌, ◌≤◌, ◌++◌, OnOk};
ghost use Rattle.picture_page.specs.Axis.{pixel_of, piece_of, pieces_from, between, x_among, first_minute, last_minute, shows};

use crate::spans::Span;
use std::alloc::AllocError;

/// The first pixel of an axis.
pub(crate) const LEFT: u16 = 20;

/// The last pixel of an axis.
pub(crate) const RIGHT: u64 = 788;

/// A piece of the axis: its first and last minute, and where they lie, in pixels.
#[derive(Clone, Copy)]
pub(crate) struct Piece {
    pub(crate) from: u64,
    pub(crate) to: u64,
    pub(crate) left: u16,
    pub(crate) right: u16,
}

/// How minutes become pixels: all pieces have so many minutes and so many pixels, and a break is so
/// wide.
#[derive(Clone, Copy)]
pub(crate) struct AxisScale {
    pub(crate) total: u64,
    pub(crate) room: u64,
    pub(crate) gap: u64,
}

/// Where a minute lies that has so many minutes of pieces before it, and breaks before its piece up
/// to a pixel.
fn pixel_of(scale: &AxisScale, at: u64, done: u64) -> u16
    ensures { result ≡ pixel_of scale.now at done }
{
    let along = done.saturating_mul(scale.room) / scale.total.max(1);
    at.saturating_add(along).min(RIGHT) as u16
}

/// The piece of a span.
fn piece_of(scale: &AxisScale, at: u64, done: u64, span: &Span) -> Piece
    ensures { result ≡ piece_of scale.now at done span.now }
{
    let after = done.saturating_add(span.to.saturating_sub(span.from));
    Piece {
        from: span.from,
        to: span.to,
        left: pixel_of(scale, at, done),
        right: pixel_of(scale, at, after),
    }
}

/// Appends the pieces of spans, where those before them have so many minutes, and the breaks before
/// them end at a pixel.
pub(crate) fn put_pieces(
    pieces: &mut Vec<Piece>,
    scale: &AxisScale,
    at: u64,
    done: u64,
    spans: &[Span],
) -> Result<(), AllocError>
    ensures { OnOk result (pieces.new.items ≡ pieces.old.items ++ pieces_from scale.now at done spans.now) }
{
    match spans {
        [] => Ok(()),
        [span, rest @ ..] => {
            pieces.push(piece_of(scale, at, done, span))?;
            let after = done.saturating_add(span.to.saturating_sub(span.from));
            put_pieces(pieces, scale, at.saturating_add(scale.gap), after, rest)
        }
    }
}

/// Where minute `t` lies between minute `a` at pixel `xa` and minute `b` at pixel `xb`.
fn between(t: u64, a: u64, xa: u16, b: u64, xb: u16) -> u64
    ensures { result ≡ between t a xa b xb }
{
    let wide = (xb as u64).saturating_sub(xa as u64);
    let along = t.saturating_sub(a).saturating_mul(wide) / b.saturating_sub(a).max(1);
    (xa as u64).saturating_add(along)
}

/// Where minute `t` lies among pieces, where the one before them ended with minute `b` at pixel
/// `xb`.
pub(crate) fn x_among(pieces: &[Piece], b: u64, xb: u16, t: u64) -> u64
    ensures { result ≡ x_among pieces.now b xb t }
{
    match pieces {
        [] => xb as u64,
        [piece, rest @ ..] => {
            if t < piece.from {
                between(t, b, xb, piece.from, piece.left)
            } else if t <= piece.to {
                between(t, piece.from, piece.left, piece.to, piece.right)
            } else {
                x_among(rest, piece.to, piece.right, t)
            }
        }
    }
}

/// The first minute, or 0 where there is no piece.
pub(crate) fn first_minute(pieces: &[Piece]) -> u64
    ensures { result ≡ first_minute pieces.now }
{
    match pieces {
        [] => 0,
        [piece, ..] => piece.from,
    }
}

/// The last minute, or 0 where there is no piece.
pub(crate) fn last_minute(pieces: &[Piece]) -> u64
    ensures { result ≡ last_minute pieces.now }
{
    match pieces {
        [] => 0,
        [piece] => piece.to,
        [_, rest @ ..] => last_minute(rest),
    }
}

/// Whether a span, its end not included, shares a minute with a piece.
pub(crate) fn shows(pieces: &[Piece], from: u64, to: u64) -> bool
    ensures { result ≡ shows pieces.now from to }
{
    match pieces {
        [] => false,
        [piece, rest @ ..] => (from < piece.to && piece.from < to) || shows(rest, from, to),
    }
}
