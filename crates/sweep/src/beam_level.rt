//! Labels of a beam that serve the same number of ships.
ghost use Rattle.std.specs.Prelude.{◌≤◌, length, IfSome};

use price_terms::PriceError;
use sweep_labels::{KeptLabel, Label};

// How many labels of a number of served ships are kept at the most.
const WIDTH: usize = 300;

/// A label, and by how much its bound is below the goal, in hundredths of a minute.
#[derive(Clone, Copy)]
pub(crate) struct BeamLabel {
    pub(crate) margin: i64,
    pub(crate) kept: KeptLabel,
}

/// The labels of least bound, least first.
#[derive(Drop)]
pub(crate) struct BeamLevel {
    pub(crate) items: Vec<BeamLabel>,
}

impl BeamLevel {
    /// Whether there is room for a label whose bound is below the goal by so much.
    pub(crate) fn has_room(&self, margin: i64) -> bool {
        match self.items.get(WIDTH - 1) {
            Some(last) => margin > last.margin,
            None => margin >= 0,
        }
    }

    // The place of a label among them; None where a better one dominates it.
    fn place_of(&self, one: &BeamLabel) -> Option<usize>
        ensures { IfSome result (λ place. place ≤ length self.now.items.items) }
    {
        for place in 0..self.items.len() {
            let other = &self.items[place];
            if other.margin < one.margin {
                return Some(place);
            }
            if other.kept.label.dominates(&one.kept.label) {
                return None;
            }
        }
        Some(self.items.len())
    }

    // The place of a label that is dominated, or of the last one where there is no more room.
    fn outdone(&self, label: &Label) -> usize {
        for place in 0..self.items.len() {
            if label.dominates(&self.items[place].kept.label) {
                return place;
            }
        }
        WIDTH - 1
    }

    // Takes one out that a label dominates, or else the last one where there is no room.
    fn make_room(&mut self, label: &Label) {
        let place = self.outdone(label);
        if place < self.items.len() {
            self.items.remove(place);
        }
    }

    /// Puts a label, unless a better one dominates it.
    pub(crate) fn put(&mut self, one: BeamLabel) -> Result<(), PriceError> {
        let Some(place) = self.place_of(&one) else {
            return Ok(());
        };
        self.make_room(&one.kept.label);
        match self.items.insert(place.min(self.items.len()), one) {
            Ok(()) => Ok(()),
            Err(_) => Err(PriceError::NoMemory),
        }
    }
}
