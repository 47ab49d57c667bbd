//! Which spans of time are shown, and which gaps between them are left out.
ghost use Rattle.std.specs.Prelude.{◌≡◌, [], ◌∷◌, ◌++◌, OnOk, IfOk};
ghost use Rattle.picture_page.specs.Points.{sorted, gaps_after};
ghost use Rattle.picture_page.specs.Spans.{limit_in, is_cut, spans_after, spans_in, spans_of, total_of, with_ends, first_of, last_of};

use crate::points::{put_gaps, sorted};
use std::alloc::{AllocError, Global};

/// The greatest gap that is never left out, in minutes.
const SHORT: u64 = 120;

/// A span of minutes, both ends included.
#[derive(Clone, Copy)]
pub(crate) struct Span {
    pub(crate) from: u64,
    pub(crate) to: u64,
}

/// The least gap that is left out, where the gaps rise and those before them have this sum: the
/// first that is longer than all shorter ones together.
fn limit_in(sum: u64, gaps: &[u64]) -> Option<u64>
    ensures { result ≡ limit_in sum gaps.now }
{
    match gaps {
        [] => None,
        [gap, rest @ ..] => {
            if 0 < sum && SHORT < *gap && sum < *gap {
                Some(*gap)
            } else {
                limit_in(sum.saturating_add(*gap), rest)
            }
        }
    }
}

/// Whether a gap is left out.
fn is_cut(limit: Option<u64>, gap: u64) -> bool
    ensures { result ≡ is_cut limit gap }
{
    match limit {
        Some(limit) => limit <= gap,
        None => false,
    }
}

/// Appends a span.
fn put_span(spans: &mut Vec<Span>, from: u64, to: u64) -> Result<(), AllocError>
    ensures { OnOk result (spans.new.items ≡ spans.old.items ++ record { from = from; to = to } ∷ []) }
{
    spans.push(Span { from, to })?;
    Ok(())
}

/// Appends the spans that points make which rise, where a span was begun.
fn put_spans(
    spans: &mut Vec<Span>,
    limit: Option<u64>,
    from: u64,
    to: u64,
    points: &[u64],
) -> Result<(), AllocError>
    ensures { OnOk result (spans.new.items ≡ spans.old.items ++ spans_after limit from to points.now) }
{
    match points {
        [] => put_span(spans, from, to),
        [point, rest @ ..] => {
            if is_cut(limit, point.saturating_sub(to)) {
                put_span(spans, from, to)?;
                put_spans(spans, limit, *point, *point, rest)
            } else {
                put_spans(spans, limit, from, *point, rest)
            }
        }
    }
}

/// The least gap that is left out between points that rise.
fn limit_between(alloc: Global, first: u64, rest: &[u64]) -> Result<Option<u64>, AllocError>
    ensures { IfOk result (λ limit. limit ≡ limit_in 0 (sorted (gaps_after first rest.now))) }
{
    let mut gaps = Vec::new(alloc);
    put_gaps(&mut gaps, first, rest)?;
    let gaps = sorted(alloc, gaps.as_slice())?;
    Ok(limit_in(0, gaps.as_slice()))
}

/// The spans that points make which rise.
fn spans_in(alloc: Global, points: &[u64]) -> Result<Vec<Span>, AllocError>
    ensures { IfOk result (λ spans. spans.items ≡ spans_in points.now) }
{
    let mut spans = Vec::new(alloc);
    match points {
        [] => Ok(spans),
        [first, rest @ ..] => {
            let limit = limit_between(alloc, *first, rest)?;
            put_spans(&mut spans, limit, *first, *first, rest)?;
            Ok(spans)
        }
    }
}

/// The spans that events make.
#[tactic(auto, unfolding(crate::specs::Spans::spans_of))]
pub(crate) fn spans_of(alloc: Global, events: &[u64]) -> Result<Vec<Span>, AllocError>
    ensures { IfOk result (λ spans. spans.items ≡ spans_of events.now) }
{
    let points = sorted(alloc, events)?;
    spans_in(alloc, points.as_slice())
}

/// The minutes of all spans.
pub(crate) fn total_of(spans: &[Span]) -> u64
    ensures { result ≡ total_of spans.now }
{
    match spans {
        [] => 0,
        [span, rest @ ..] => span
            .to
            .saturating_sub(span.from)
            .saturating_add(total_of(rest)),
    }
}

/// Appends the spans with another first and another last minute.
pub(crate) fn put_with_ends(
    out: &mut Vec<Span>,
    first: u64,
    last: u64,
    spans: &[Span],
) -> Result<(), AllocError>
    ensures { OnOk result (out.new.items ≡ out.old.items ++ with_ends first last spans.now) }
{
    match spans {
        [] => Ok(()),
        [span, rest @ ..] => match rest {
            [] => put_span(out, first, last),
            [next, ..] => {
                put_span(out, first, span.to)?;
                put_with_ends(out, next.from, last, rest)
            }
        },
    }
}

/// The first minute, or 0 where there is no span.
pub(crate) fn first_of(spans: &[Span]) -> u64
    ensures { result ≡ first_of spans.now }
{
    match spans {
        [] => 0,
        [span, ..] => span.from,
    }
}

/// The last minute, or 0 where there is no span.
pub(crate) fn last_of(spans: &[Span]) -> u64
    ensures { result ≡ last_of spans.now }
{
    match spans {
        [] => 0,
        [span, rest @ ..] => match rest {
            [] => span.to,
            [_, ..] => last_of(rest),
        },
    }
}
