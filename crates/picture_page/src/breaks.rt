//! Where time is left out.
ghost use Rattle.std.specs.Prelude.{◌≡◌, ◌≤◌, ◌++◌, OnOk};
ghost use Rattle.picture_page.specs.Axis.{breaks_of, clear_end};

use crate::pieces::Piece;
use std::alloc::AllocError;

/// The white part of a break, in pixels.
pub(crate) const TORN: u64 = 10;

/// Appends where the breaks begin.
pub(crate) fn put_breaks(breaks: &mut Vec<u16>, pieces: &[Piece]) -> Result<(), AllocError>
    ensures { OnOk result (breaks.new.items ≡ breaks.old.items ++ breaks_of pieces.now) }
{
    match pieces {
        [] => Ok(()),
        [piece, rest @ ..] => match rest {
            [] => Ok(()),
            [_, ..] => {
                breaks.push(piece.right)?;
                put_breaks(breaks, rest)
            }
        },
    }
}

/// The end of the part of the pixels from `from` to `to` that no break cuts, where breaks are so
/// wide.
pub(crate) fn clear_end(breaks: &[u16], gap: u16, from: u16, to: u16) -> u64
    ensures value { result ≡ clear_end breaks.now gap from to }
    ensures small { result ≤ 100000 }
{
    match breaks {
        [] => to as u64,
        [at, rest @ ..] => {
            let at = *at as u64;
            if (from as u64) < at + gap as u64 && at < to as u64 {
                (2 * at + gap as u64).saturating_sub(TORN) / 2
            } else {
                clear_end(rest, gap, from, to)
            }
        }
    }
}
