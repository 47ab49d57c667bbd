//! Decks of ships without cargo.
use lock_model::{Deck, Measures, Size, Sizes};

/// The measures of the base chamber, in decimetres.
pub(crate) const BASE: Measures = Measures {
    length: 2000,
    width: 240,
    end: 10,
    gap: 20,
    side: 5,
};

/// The deck of the first eight of these ships, by length and width in decimetres, without cargo;
/// None where a limit fails.
pub(crate) fn deck_of(measures: Measures, ships: &[(u32, u32)]) -> Option<Deck> {
    let mut sizes = Sizes::new();
    for &(length, width) in ships {
        if sizes.as_slice().len() < 8 {
            sizes.push(Size {
                length,
                width,
                cargo: 0,
            });
        }
    }
    Deck::new(measures, sizes)
}
