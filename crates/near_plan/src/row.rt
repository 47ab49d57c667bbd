//! A line of groups and the walk along it.
ghost use Rattle.std.specs.Prelude.{◌≡◌, ◌<◌, ◌≤◌, length, All};
ghost use Rattle.near_plan.specs.Rows.{IsRow};

use flow_bounds::{LineWalks, walk_along};
use lock_model::{Instance, Line, SHIPS};
use std::mem;

/// A line of groups, and the walk along it, kept at each of its groups.
#[derive(Drop)]
pub(crate) struct Row {
    line: Line,
    walks: LineWalks,
}

impl Row {
    /// No groups, and no chamber.
    pub(crate) fn new() -> Row {
        Row {
            line: Line::new(),
            walks: LineWalks::new(),
        }
    }

    /// Walks along a line of a chamber, which takes the place of the row's own; that is given back. What
    /// the walks take is large, so they are changed where they stand.
    pub(crate) fn walk(&mut self, instance: &Instance, chamber: u8, line: Line) -> Line
        requires chamber_in { chamber < length instance.now.chambers }
        requires ships_in { All (λ g. All (λ s. s < length instance.now.ships) g.ships) line }
        ensures { IsRow instance.now chamber self.new }
    {
        walk_along(instance, chamber, line.as_slice(), &mut self.walks);
        mem::replace(&mut self.line, line)
    }

    /// The groups in order of service.
    #[inline]
    pub(crate) fn line(&self) -> &Line
        ensures { result.now ≡ self.now.line }
    {
        &self.line
    }

    /// The walk along them.
    #[inline]
    pub(crate) fn walks(&self) -> &LineWalks
        ensures { result.now ≡ self.now.walks }
    {
        &self.walks
    }

    /// The minute at which the chamber is done with the groups before group `i`, or with all where `i` is
    /// their number.
    #[inline]
    pub(crate) fn done(&self, i: usize) -> u64
        requires { i ≤ SHIPS }
    {
        self.walks.walks[i].done
    }

    /// The flow times of all ships at the earliest, added, in minutes.
    #[inline]
    pub(crate) fn flow(&self) -> u64 {
        self.walks.walks[self.line.as_slice().len()].flow
    }
}
