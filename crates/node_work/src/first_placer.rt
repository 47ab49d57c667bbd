//! Which placer is asked first.

/// Which placer is asked first. Prices propose crowded decks, of which the placer by berths decides
/// most far sooner than `place`, and by smaller trees.
#[derive(Clone, Copy)]
pub enum FirstPlacer {
    /// `place` has at most 500 turns before the placer by berths.
    Cases,
    /// Only a quick reason is looked for before the placer by berths.
    Berths,
}
