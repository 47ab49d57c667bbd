//! Where among some successors those stand that pay most.
ghost use Rattle.std.specs.Prelude.{◌<◌};

use crate::successor::Successor;
use lock_model::MOST;

/// How many numbers of ships a group may have, with none.
pub(crate) const COUNTS: usize = MOST + 1;

/// By number of ships the place among some successors of the one of the greatest surplus. It helps speed
/// alone: whoever finds a place asks the successor there.
#[derive(Drop)]
pub(crate) struct Bests {
    places: [Option<u16>; COUNTS],
}

impl Bests {
    // No place yet.
    pub(crate) fn new() -> Bests {
        Bests {
            places: [None; COUNTS],
        }
    }

    // Forgets all places.
    pub(crate) fn clear(&mut self) {
        self.places = [None; COUNTS];
    }

    // The place of the best successor of so many ships, if there is one.
    pub(crate) fn find(&self, ships: usize) -> Option<usize> {
        let place = self.places[ships.min(MOST)]?;
        Some(place as usize)
    }

    // Whether a successor has a greater surplus than the one at a place, if there is one.
    fn beats(&self, successors: &[Successor], place: Option<u16>, successor: &Successor) -> bool {
        match place {
            Some(place) if (place as usize) < successors.len() => {
                successor.surplus() > successors[place as usize].surplus()
            }
            _ => true,
        }
    }

    // Notes a successor that comes behind these, where it is the best one.
    pub(crate) fn note(&mut self, successors: &[Successor], successor: &Successor) {
        let ships = successor.group.ships.len().min(MOST);
        if self.beats(successors, self.places[ships], successor) {
            self.places[ships] = u16::try_from(successors.len()).ok();
        }
    }
}
