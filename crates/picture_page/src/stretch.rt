//! The pixels of a passage in which its label stands.
ghost use Rattle.std.specs.Prelude.{◌≡◌, ◌<◌, ◌^◌};
ghost use Rattle.picture_page.specs.Labels.{stretch_of, stretch_width, stretch_middle};

use crate::axis::Axis;
use crate::passage::Passage;

/// The pixels of a passage from its start that no break cuts.
#[derive(Clone, Copy)]
pub(crate) struct Stretch {
    pub(crate) from: u16,
    pub(crate) to: u32,
}

impl Stretch {
    /// How many pixels there are.
    pub(crate) fn width(&self) -> u64
        ensures value { result ≡ stretch_width self.now }
        ensures small { result < 2 ^ 32 }
    {
        (self.to as u64).saturating_sub(self.from as u64)
    }

    /// The pixel in the middle.
    pub(crate) fn middle(&self) -> u64
        ensures value { result ≡ stretch_middle self.now }
        ensures small { result < 2 ^ 32 }
    {
        (self.from as u64 + self.to as u64) / 2
    }
}

/// The pixels of a passage from its start that no break cuts.
#[tactic(auto, unfolding(crate::specs::Labels::stretch_of))]
pub(crate) fn stretch_of(axis: &Axis, passage: &Passage) -> Stretch
    ensures { result ≡ stretch_of axis.now passage.now }
{
    let from = axis.x(passage.start as u64);
    Stretch {
        from,
        to: axis.clear_end(from, axis.x(passage.end())) as u32,
    }
}
