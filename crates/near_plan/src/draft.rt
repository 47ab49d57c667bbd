//! Lines of groups as they are made.
ghost use Rattle.std.specs.Prelude.{◌≡◌, ◌<◌, length, IfSome};
ghost use Rattle.near_plan.specs.Rows.{IsDraft, row_at};

use crate::known::are_all_known;
use crate::lines::{group_of, line_without};
use crate::row::Row;
use lock_model::{CHAMBERS, Instance, Line};

/// A row of groups for each of four chambers, of which an instance may have fewer.
#[derive(Drop)]
pub(crate) struct Draft {
    rows: [Row; CHAMBERS],
}

/// Where a ship stands: the chamber, and the number of the group in its line.
#[derive(Clone, Copy)]
pub(crate) struct Standing {
    pub(crate) chamber: u8,
    group: usize,
}

impl Draft {
    /// Lines without groups.
    #[inline(never)]
    pub(crate) fn new(instance: &Instance) -> Draft
        ensures { IsDraft instance.now result }
    {
        let mut rows = [Row::new(), Row::new(), Row::new(), Row::new()];
        for chamber in 0..instance.chambers.as_slice().len() as u8 {
            rows[chamber as usize].walk(instance, chamber, Line::new());
        }
        Draft { rows }
    }

    /// The row of a chamber.
    pub(crate) fn row(&self, chamber: u8) -> &Row
        requires { chamber < CHAMBERS }
        ensures { result.now ≡ row_at self.now chamber }
    {
        &self.rows[chamber as usize]
    }

    /// Puts a line in the place of that of a chamber, which is given back. None, and nothing changed, where
    /// it has a group of no ship, or of one that the instance lacks.
    #[inline(never)]
    pub(crate) fn set_line(&mut self, instance: &Instance, chamber: u8, line: Line) -> Option<Line>
        requires chamber_in { chamber < length instance.now.chambers }
        requires draft { IsDraft instance.now self.old }
        ensures { IsDraft instance.now self.new }
    {
        if !are_all_known(instance, chamber, line.as_slice()) {
            return None;
        }
        Some(self.rows[chamber as usize].walk(instance, chamber, line))
    }

    /// Where a ship stands.
    pub(crate) fn find(&self, instance: &Instance, ship: u8) -> Option<Standing>
        ensures { IfSome result (λ at. at.chamber < length instance.now.chambers) }
    {
        for chamber in 0..instance.chambers.as_slice().len() as u8 {
            if let Some(group) = group_of(self.row(chamber).line(), ship) {
                return Some(Standing { chamber, group });
            }
        }
        None
    }

    /// Takes a ship out of where it stands; the line as it was is given back. None, and nothing changed,
    /// where the line has a ship that the instance lacks.
    #[inline(never)]
    pub(crate) fn take_out(&mut self, instance: &Instance, ship: u8, at: Standing) -> Option<Line>
        requires chamber_in { at.chamber < length instance.now.chambers }
        requires draft { IsDraft instance.now self.old }
        ensures { IsDraft instance.now self.new }
    {
        let rest = line_without(self.row(at.chamber).line(), at.group, ship);
        self.set_line(instance, at.chamber, rest)
    }

    /// The flow times of all ships at the earliest, added, in minutes.
    pub(crate) fn flow(&self) -> u64 {
        let mut flow: u64 = 0;
        for row in &self.rows {
            flow = flow.saturating_add(row.flow());
        }
        flow
    }
}
