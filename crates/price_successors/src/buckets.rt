//! Buckets of successors: where those stand that most likely dominate another.
ghost use Rattle.std.specs.Prelude.{◌<◌};

use crate::bests::COUNTS;
use crate::successor::Successor;
use lock_model::MOST;

// How many minutes of handling have a column of their own.
const COLUMNS: usize = 64;

/// By which of its sums a successor most likely dominates others.
#[derive(Clone, Copy)]
pub(crate) enum Merit {
    /// It pays much beyond what it is charged.
    Surplus,
    /// Its last ship arrives soon.
    Soon,
}

/// By number of ships and by minutes of handling the place among some successors of the best one by its
/// merit of as many ships and at most so many minutes. It helps speed alone: whoever finds a place asks
/// the successor there. A chamber's line has one for all its lists, since clearing it takes its time:
/// what stands in rows that aren't in use counts for nothing.
#[derive(Drop)]
pub struct Buckets {
    pass: u32,
    merit: Merit,
    in_use: [bool; COUNTS],
    places: [[Option<u16>; COLUMNS]; COUNTS],
}

impl Buckets {
    /// No place yet, for a chamber that takes so many minutes to pass.
    pub fn new(pass: u32) -> Buckets {
        Buckets {
            pass,
            merit: Merit::Surplus,
            in_use: [false; COUNTS],
            places: [[None; COLUMNS]; COUNTS],
        }
    }

    // Forgets all places; from now on successors are good by this merit.
    pub(crate) fn clear(&mut self, merit: Merit) {
        self.merit = merit;
        self.in_use = [false; COUNTS];
    }

    // The minutes of handling of a successor.
    fn handled(&self, successor: &Successor) -> usize {
        successor.duration.saturating_sub(self.pass) as usize
    }

    // The column of a successor; those of long handling share the last one.
    fn column(&self, successor: &Successor) -> usize
        ensures { result < 64 }
    {
        self.handled(successor).min(COLUMNS - 1)
    }

    // Whether a successor shares its column with others of longer or shorter handling, so that others may
    // dominate it than the buckets have.
    pub(crate) fn is_vague(&self, successor: &Successor) -> bool {
        self.handled(successor) >= COLUMNS - 1
    }

    // The place of the best successor of so many ships and at most as many minutes, if there is one.
    pub(crate) fn find(&self, ships: usize, successor: &Successor) -> Option<usize> {
        let row = ships.min(MOST);
        if !self.in_use[row] {
            return None;
        }
        let place = self.places[row][self.column(successor)]?;
        Some(place as usize)
    }

    // Whether a successor is better than another by the merit.
    fn is_better(&self, successor: &Successor, other: &Successor) -> bool {
        match self.merit {
            Merit::Surplus => successor.surplus() > other.surplus(),
            Merit::Soon => successor.last < other.last,
        }
    }

    // Whether a successor is better than the one at a place, if there is one.
    fn beats(&self, successors: &[Successor], place: Option<u16>, successor: &Successor) -> bool {
        match place {
            Some(place) if (place as usize) < successors.len() => {
                self.is_better(successor, &successors[place as usize])
            }
            _ => true,
        }
    }

    // Puts a row into use.
    fn use_row(&mut self, row: usize)
        requires { row < COUNTS }
    {
        if !self.in_use[row] {
            self.in_use[row] = true;
            self.places[row] = [None; COLUMNS];
        }
    }

    // Notes a successor that comes behind these, in the columns where it is the best one.
    pub(crate) fn note(&mut self, successors: &[Successor], successor: &Successor) {
        let row = successor.group.ships.len().min(MOST);
        self.use_row(row);
        for column in self.column(successor)..COLUMNS {
            if !self.beats(successors, self.places[row][column], successor) {
                return;
            }
            self.places[row][column] = u16::try_from(successors.len()).ok();
        }
    }
}
